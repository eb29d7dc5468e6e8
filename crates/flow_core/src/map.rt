//! A function on each record.

ghost use Rattle.std.specs.Prelude.{◌≡◌, [], IfOk};
ghost use Rattle.weighted.specs.Alike.{Alike};
ghost use Rattle.weighted.specs.WordLaws.{mapped};
ghost use Rattle.flow_core.specs.Runs.{IsFresh};
ghost use Rattle.flow_core.specs.Linear.{StandsByStep, linear_answers, linear_idle, paid_nothing};
ghost use Rattle.flow_core.specs.Functions.{mapped_linear};

use crate::each::{Each, push_each};
use crate::operator::Operator;
use lattice_time::Time;
use std::alloc::Global;
use std::marker::PhantomData;
use surge_outside::{Counted, List, NoMemory, Record};
use weighted::Batch;

/// The operator of a function on each record: the weight of a record that it makes is the sum of the weights of those
/// that are mapped to it. It keeps nothing of what it was fed, nothing is ever due, and it charges nothing.
#[derive(Drop)]
pub struct Map<E, A, B, T, U> {
    alloc: Global,
    each: E,
    sealed: T,
    spent: bool,
    of: PhantomData<(A, B, U)>,
}

/// The batch of what a function gives for each record. It sorts once.
fn map_batch<A: Record, B: Record, E: Each<A, B>>(
    alloc: Global,
    each: &E,
    delta: &Batch<A>,
) -> Result<Batch<B>, NoMemory>
    ensures { IfOk result (λ made. Alike made (mapped (E.gives each.now) delta.now)) }
{
    let mut entries = Vec::new(alloc);
    push_each(&mut entries, each, delta)?;
    Batch::from_entries(List::from_vec(entries))
}

impl<E: Each<A, B>, A: Record, B: Record, T: Time, U: Counted> Map<E, A, B, T, U> {
    /// The operator of `each`. It takes no memory; its steps use `alloc`.
    pub fn new(alloc: Global, each: E) -> Map<E, A, B, T, U>
        ensures fresh { let it = ⟦<Map<E, A, B, T, U> as Operator<T, U>>⟧ in IsFresh it.stands it.due it.seal it.spent T.least result }
        ensures apply { ⟦<Map<E, A, B, T, U> as Operator<T, U>>⟧.apply result ≡ mapped (E.gives each) }
        ensures charge { ⟦<Map<E, A, B, T, U> as Operator<T, U>>⟧.charge result ≡ 0 }
    {
        Map {
            alloc,
            each,
            sealed: T::least(),
            spent: false,
            of: PhantomData,
        }
    }
}

impl<E: Each<A, B>, A: Record, B: Record, T: Time, U: Counted> Operator<T, U>
    for Map<E, A, B, T, U> {
    type Input = A;

    type Output = B;

    ghost stands = { λ s. StandsByStep (mapped (E.gives s.each)) };

    ghost due = { λ _. [] };

    ghost seal = { λ s. s.sealed };

    ghost apply = { λ s. mapped (E.gives s.each) };

    ghost kept = { λ s. mapped (E.gives s.each) };

    ghost charge = { λ _. 0 };

    ghost spent = { λ s. s.spent };

    ghost answers = { λ s. linear_answers (mapped (E.gives s.each)) (mapped_linear (E.gives s.each)) T.leq T.lub s.sealed };

    ghost respects = { λ s. (mapped_linear (E.gives s.each)).respects };

    ghost idle = { λ s run t h _ _ _. linear_idle (mapped (E.gives s.each)) (mapped_linear (E.gives s.each)) run t h };

    ghost paid = { λ s run h. paid_nothing run.base h.1 };

    fn step(&mut self, t: T, delta: &Batch<A>, updater: &mut U) -> Result<Batch<B>, NoMemory> {
        let made = map_batch(self.alloc, &self.each, delta);
        self.spent = made.is_err();
        made
    }

    fn next_due(&self) -> Option<T> {
        None
    }

    fn seal(&mut self, f: T) -> Result<(), NoMemory> {
        self.sealed = f;
        Ok(())
    }

    fn is_spent(&self) -> bool {
        self.spent
    }
}
