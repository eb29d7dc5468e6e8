//! An operator whose calls of the updater are not counted.

ghost use Rattle.std.specs.Prelude.{◌≡◌, ℕ};
ghost use Rattle.flow_core.specs.Runs.{IsFresh};
ghost use Rattle.flow_core.specs.Quietly.{StandsQuietly, quiet_answers, quiet_idle, quiet_paid};

use crate::operator::Operator;
use lattice_time::Time;
use surge_outside::{Counted, NoMemory};
use weighted::Batch;

/// An updater that is never called: its number of calls is 0 for ever.
#[derive(Drop)]
pub struct NoCalls;

impl Counted for NoCalls {
    ghost calls = { λ _. 0 };
}

/// An operator that hands the operator inside it an updater of its own, in place of the one that it is handed. So it
/// never calls the latter, and charges nothing. All else is as inside.
#[derive(Drop)]
pub struct Quiet<O> {
    inner: O,
}

impl<O> Quiet<O> {
    /// An operator that was not stepped yet, made quiet. It takes no memory.
    pub fn new<T: Time, U: Counted>(inner: O) -> Quiet<O>
    where
        O: Operator<T, NoCalls>,
        requires { IsFresh O.stands O.due O.seal O.spent T.least inner }
        ensures fresh { let it = ⟦<Quiet<O> as Operator<T, U>>⟧ in IsFresh it.stands it.due it.seal it.spent T.least result }
        ensures apply { ⟦<Quiet<O> as Operator<T, U>>⟧.apply result ≡ O.apply inner }
        ensures kept { ⟦<Quiet<O> as Operator<T, U>>⟧.kept result ≡ O.apply inner }
        ensures charge { ⟦<Quiet<O> as Operator<T, U>>⟧.charge result ≡ 0 }
        ensures inner { result.inner ≡ inner }
    {
        Quiet { inner }
    }

    /// The operator inside, lent.
    pub fn inner(&self) -> &O
        ensures { result.now ≡ self.now.inner }
    {
        &self.inner
    }
}

impl<T: Time, U: Counted, O: Operator<T, NoCalls>> Operator<T, U> for Quiet<O> {
    type Input = O::Input;

    type Output = O::Output;

    ghost stands = { λ s. StandsQuietly (O.stands s.inner) };

    ghost due = { λ s. O.due s.inner };

    ghost seal = { λ s. O.seal s.inner };

    ghost apply = { λ s. O.apply s.inner };

    ghost kept = { λ s. O.apply s.inner };

    ghost charge = { λ _. 0 };

    ghost spent = { λ s. O.spent s.inner };

    ghost answers = { λ s. quiet_answers T.leq T.lub (O.apply s.inner) (O.seal s.inner) (O.due s.inner) (O.stands s.inner) (O.answers s.inner) };

    ghost respects = { λ s. O.respects s.inner };

    ghost idle = { λ s. quiet_idle T.leq (O.seal s.inner) (O.due s.inner) (O.stands s.inner) (O.idle s.inner) };

    ghost paid = { λ s. quiet_paid (O.stands s.inner) };

    fn step(
        &mut self,
        t: T,
        delta: &Batch<O::Input>,
        updater: &mut U,
    ) -> Result<Batch<O::Output>, NoMemory> {
        self.inner.step(t, delta, &mut NoCalls)
    }

    fn next_due(&self) -> Option<T> {
        self.inner.next_due()
    }

    fn seal(&mut self, f: T) -> Result<(), NoMemory> {
        self.inner.seal(f)
    }

    fn is_spent(&self) -> bool {
        self.inner.is_spent()
    }
}
