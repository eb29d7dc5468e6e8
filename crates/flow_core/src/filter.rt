//! A test on each record.

ghost use Rattle.std.specs.Prelude.{◌≡◌, [], ◌∷◌, ◌++◌, if◌then◌else◌, IfOk, OnOk};
ghost use Rattle.weighted.specs.SumLaws.{filtered};
ghost use Rattle.flow_core.specs.Runs.{IsFresh};
ghost use Rattle.flow_core.specs.Linear.{StandsByStep, linear_answers, linear_idle, paid_nothing};
ghost use Rattle.flow_core.specs.Functions.{filtered_linear};

use crate::keep::Keep;
use crate::operator::Operator;
use lattice_time::Time;
use std::alloc::Global;
use std::marker::PhantomData;
use surge_outside::{Counted, List, NoMemory, Record};
use weighted::{Batch, Weight};

/// The operator of a test on each record: it makes the records that pass, with their weights. It keeps nothing of what
/// it was fed, nothing is ever due, and it charges nothing.
#[derive(Drop)]
pub struct Filter<E, A, T, U> {
    alloc: Global,
    keep: E,
    sealed: T,
    spent: bool,
    of: PhantomData<(A, U)>,
}

/// Adds an entry at the end where it passes.
fn push_if<A: Record>(
    entries: &mut Vec<(A, Weight)>,
    passes: bool,
    entry: (A, Weight),
) -> Result<(), NoMemory>
    ensures { OnOk result (entries.new.items ≡ entries.old.items ++ (if passes then entry ∷ [] else [])) }
{
    if passes {
        entries.push(entry)?;
    }
    Ok(())
}

/// The batch of the records that pass. They stay in order, so it doesn't sort.
fn filter_batch<A: Record, E: Keep<A>>(
    alloc: Global,
    keep: &E,
    delta: &Batch<A>,
) -> Result<Batch<A>, NoMemory>
    ensures { IfOk result (λ made. made ≡ filtered (E.keeps keep.now) delta.now) }
{
    let mut entries = Vec::new(alloc);
    for entry in delta.as_slice() {
        push_if(&mut entries, keep.keep(&entry.0), *entry)?;
    }
    Ok(Batch::from_rising(List::from_vec(entries)))
}

impl<E: Keep<A>, A: Record, T: Time, U: Counted> Filter<E, A, T, U> {
    /// The operator of the test `keep`. It takes no memory; its steps use `alloc`.
    pub fn new(alloc: Global, keep: E) -> Filter<E, A, T, U>
        ensures fresh { let it = ⟦<Filter<E, A, T, U> as Operator<T, U>>⟧ in IsFresh it.stands it.due it.seal it.spent T.least result }
        ensures apply { ⟦<Filter<E, A, T, U> as Operator<T, U>>⟧.apply result ≡ filtered (E.keeps keep) }
        ensures charge { ⟦<Filter<E, A, T, U> as Operator<T, U>>⟧.charge result ≡ 0 }
    {
        Filter {
            alloc,
            keep,
            sealed: T::least(),
            spent: false,
            of: PhantomData,
        }
    }
}

impl<E: Keep<A>, A: Record, T: Time, U: Counted> Operator<T, U> for Filter<E, A, T, U> {
    type Input = A;

    type Output = A;

    ghost stands = { λ s. StandsByStep (filtered (E.keeps s.keep)) };

    ghost due = { λ _. [] };

    ghost seal = { λ s. s.sealed };

    ghost apply = { λ s. filtered (E.keeps s.keep) };

    ghost kept = { λ s. filtered (E.keeps s.keep) };

    ghost charge = { λ _. 0 };

    ghost spent = { λ s. s.spent };

    ghost answers = { λ s. linear_answers (filtered (E.keeps s.keep)) (filtered_linear (E.keeps s.keep)) T.leq T.lub s.sealed };

    ghost respects = { λ s. (filtered_linear (E.keeps s.keep)).respects };

    ghost idle = { λ s run t h _ _ _. linear_idle (filtered (E.keeps s.keep)) (filtered_linear (E.keeps s.keep)) run t h };

    ghost paid = { λ s run h. paid_nothing run.base h.1 };

    fn step(&mut self, t: T, delta: &Batch<A>, updater: &mut U) -> Result<Batch<A>, NoMemory> {
        let made = filter_batch(self.alloc, &self.keep, delta);
        self.spent = made.is_err();
        made
    }

    fn next_due(&self) -> Option<T> {
        None
    }

    fn seal(&mut self, f: T) -> Result<(), NoMemory> {
        self.sealed = f;
        Ok(())
    }

    fn is_spent(&self) -> bool {
        self.spent
    }
}
