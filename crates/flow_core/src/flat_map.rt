//! A function from each record to several.

ghost use Rattle.std.specs.Prelude.{◌≡◌, [], ◌++◌, map, IfOk, OnOk};
ghost use Rattle.weighted.specs.Alike.{Alike};
ghost use Rattle.flow_core.specs.Runs.{IsFresh};
ghost use Rattle.flow_core.specs.Linear.{StandsByStep, linear_answers, linear_idle, paid_nothing};
ghost use Rattle.flow_core.specs.Expanded.{expanded, expanded_linear};

use crate::expand::Expand;
use crate::operator::Operator;
use lattice_time::Time;
use std::alloc::Global;
use std::marker::PhantomData;
use surge_outside::{Counted, List, NoMemory, Record};
use weighted::{Batch, Weight};

/// The operator of a function from each record to several: the weight of a record that it makes is the sum of the
/// weights of those that give it, each as often as it is given. It keeps nothing of what it was fed, nothing is ever
/// due, and it charges nothing.
#[derive(Drop)]
pub struct FlatMap<E, A, B, T, U> {
    alloc: Global,
    expand: E,
    sealed: T,
    spent: bool,
    of: PhantomData<(A, B, U)>,
}

/// Adds records, each with one weight.
fn push_given<B: Record>(
    entries: &mut Vec<(B, Weight)>,
    given: &[B],
    weight: Weight,
) -> Result<(), NoMemory>
    ensures { OnOk result (entries.new.items ≡ entries.old.items ++ map (λ b. (b, weight)) given.now) }
{
    for record in given {
        entries.push((*record, weight))?;
    }
    Ok(())
}

/// Adds what a function gives for each record of a batch, with the record's weight, in the order of the batch.
fn push_expanded<A: Record, B: Record, E: Expand<A, B>>(
    alloc: Global,
    entries: &mut Vec<(B, Weight)>,
    expand: &E,
    delta: &Batch<A>,
) -> Result<(), NoMemory>
    ensures { OnOk result (entries.new.items ≡ entries.old.items ++ expanded (E.gives expand.now) delta.now) }
{
    let mut given = List::new(alloc);
    for (record, weight) in delta.as_slice() {
        given.clear();
        expand.expand(*record, &mut given)?;
        push_given(entries, given.as_slice(), *weight)?;
    }
    Ok(())
}

/// The batch of what a function gives for each record. It sorts once.
pub(crate) fn flat_map_batch<A: Record, B: Record, E: Expand<A, B>>(
    alloc: Global,
    expand: &E,
    delta: &Batch<A>,
) -> Result<Batch<B>, NoMemory>
    ensures { IfOk result (λ made. Alike made (expanded (E.gives expand.now) delta.now)) }
{
    let mut entries = Vec::new(alloc);
    push_expanded(alloc, &mut entries, expand, delta)?;
    Batch::from_entries(List::from_vec(entries))
}

impl<E: Expand<A, B>, A: Record, B: Record, T: Time, U: Counted> FlatMap<E, A, B, T, U> {
    /// The operator of `expand`. It takes no memory; its steps use `alloc`.
    pub fn new(alloc: Global, expand: E) -> FlatMap<E, A, B, T, U>
        ensures fresh { let it = ⟦<FlatMap<E, A, B, T, U> as Operator<T, U>>⟧ in IsFresh it.stands it.due it.seal it.spent T.least result }
        ensures apply { ⟦<FlatMap<E, A, B, T, U> as Operator<T, U>>⟧.apply result ≡ expanded (E.gives expand) }
        ensures charge { ⟦<FlatMap<E, A, B, T, U> as Operator<T, U>>⟧.charge result ≡ 0 }
    {
        FlatMap {
            alloc,
            expand,
            sealed: T::least(),
            spent: false,
            of: PhantomData,
        }
    }
}

impl<E: Expand<A, B>, A: Record, B: Record, T: Time, U: Counted> Operator<T, U>
    for FlatMap<E, A, B, T, U> {
    type Input = A;

    type Output = B;

    ghost stands = { λ s. StandsByStep (expanded (E.gives s.expand)) };

    ghost due = { λ _. [] };

    ghost seal = { λ s. s.sealed };

    ghost apply = { λ s. expanded (E.gives s.expand) };

    ghost kept = { λ s. expanded (E.gives s.expand) };

    ghost charge = { λ _. 0 };

    ghost spent = { λ s. s.spent };

    ghost answers = { λ s. linear_answers (expanded (E.gives s.expand)) (expanded_linear (E.gives s.expand)) T.leq T.lub s.sealed };

    ghost respects = { λ s. (expanded_linear (E.gives s.expand)).respects };

    ghost idle = { λ s run t h _ _ _. linear_idle (expanded (E.gives s.expand)) (expanded_linear (E.gives s.expand)) run t h };

    ghost paid = { λ s run h. paid_nothing run.base h.1 };

    fn step(&mut self, t: T, delta: &Batch<A>, updater: &mut U) -> Result<Batch<B>, NoMemory> {
        let made = flat_map_batch(self.alloc, &self.expand, delta);
        self.spent = made.is_err();
        made
    }

    fn next_due(&self) -> Option<T> {
        None
    }

    fn seal(&mut self, f: T) -> Result<(), NoMemory> {
        self.sealed = f;
        Ok(())
    }

    fn is_spent(&self) -> bool {
        self.spent
    }
}
