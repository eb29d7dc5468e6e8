//! The sum of two collections.

ghost use Rattle.std.specs.Prelude.{◌≡◌, [], IfOk};
ghost use Rattle.weighted.specs.Alike.{Alike};
ghost use Rattle.flow_core.specs.Runs.{IsFresh};
ghost use Rattle.flow_core.specs.Linear.{StandsByStep, linear_answers, linear_idle, paid_nothing};
ghost use Rattle.flow_core.specs.Functions.{side_sum, side_sum_linear};

use crate::operator::Operator;
use crate::side::{Side, split};
use lattice_time::Time;
use std::alloc::Global;
use std::marker::PhantomData;
use surge_outside::{Counted, NoMemory, Record};
use weighted::Batch;

/// The operator that adds up two collections, which it is fed as the two sides of one: the weight of a record that it
/// makes is the sum of its weights on both sides. It keeps nothing of what it was fed, nothing is ever due, and it
/// charges nothing.
#[derive(Drop)]
pub struct Concat<A, T, U> {
    alloc: Global,
    sealed: T,
    spent: bool,
    of: PhantomData<(A, U)>,
}

/// The sum of both sides of a batch. Each side is in order, so it doesn't sort.
fn concat_batch<A: Record>(alloc: Global, delta: &Batch<Side<A, A>>) -> Result<Batch<A>, NoMemory>
    ensures { IfOk result (λ made. Alike made (side_sum delta.now)) }
{
    let (left, right) = split(alloc, delta)?;
    left.add(&right)
}

impl<A: Record, T: Time, U: Counted> Concat<A, T, U> {
    /// The operator that adds up both sides. It takes no memory; its steps use `alloc`.
    pub fn new(alloc: Global) -> Concat<A, T, U>
        ensures fresh { let it = ⟦<Concat<A, T, U> as Operator<T, U>>⟧ in IsFresh it.stands it.due it.seal it.spent T.least result }
        ensures apply { ⟦<Concat<A, T, U> as Operator<T, U>>⟧.apply result ≡ side_sum }
        ensures charge { ⟦<Concat<A, T, U> as Operator<T, U>>⟧.charge result ≡ 0 }
    {
        Concat {
            alloc,
            sealed: T::least(),
            spent: false,
            of: PhantomData,
        }
    }
}

impl<A: Record, T: Time, U: Counted> Operator<T, U> for Concat<A, T, U> {
    type Input = Side<A, A>;

    type Output = A;

    ghost stands = { λ _. StandsByStep side_sum };

    ghost due = { λ _. [] };

    ghost seal = { λ s. s.sealed };

    ghost apply = { λ _. side_sum };

    ghost kept = { λ _. side_sum };

    ghost charge = { λ _. 0 };

    ghost spent = { λ s. s.spent };

    ghost answers = { λ s. linear_answers side_sum side_sum_linear T.leq T.lub s.sealed };

    ghost respects = { λ _. side_sum_linear.respects };

    ghost idle = { λ _ run t h _ _ _. linear_idle side_sum side_sum_linear run t h };

    ghost paid = { λ _ run h. paid_nothing run.base h.1 };

    fn step(
        &mut self,
        t: T,
        delta: &Batch<Side<A, A>>,
        updater: &mut U,
    ) -> Result<Batch<A>, NoMemory> {
        let made = concat_batch(self.alloc, delta);
        self.spent = made.is_err();
        made
    }

    fn next_due(&self) -> Option<T> {
        None
    }

    fn seal(&mut self, f: T) -> Result<(), NoMemory> {
        self.sealed = f;
        Ok(())
    }

    fn is_spent(&self) -> bool {
        self.spent
    }
}
