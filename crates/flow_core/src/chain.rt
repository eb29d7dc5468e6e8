//! Two operators, one after the other.

ghost use Rattle.std.specs.Prelude.{◌≡◌, ◌+◌, ◌++◌, ◌||◌, [], refl};
ghost use Rattle.flow_core.specs.Runs.{IsFresh};
ghost use Rattle.flow_core.specs.Parts.{StandsByLinks, link_whole, link_first, link_second};
ghost use Rattle.flow_core.specs.PartLaws.{parts_idle, parts_paid};
ghost use Rattle.flow_core.specs.ChainLaws.{chain_answers};

use crate::earlier::earlier;
use crate::operator::Operator;
use lattice_time::Time;
use surge_outside::{Counted, NoMemory};
use weighted::Batch;

/// Two operators, one after the other: what the first makes is fed to the second at the same time. Its function is the
/// second's of the first's, and its charge the sum of both. What is due to either is due to it.
#[derive(Drop)]
pub struct Chain<A, B> {
    first: A,
    second: B,
}

impl<A, B> Chain<A, B> {
    /// The chain of two operators that were not stepped yet. It takes no memory.
    pub fn new<T: Time, U: Counted>(first: A, second: B) -> Chain<A, B>
    where
        A: Operator<T, U>,
        B: Operator<T, U, Input = A::Output>,
        requires first { IsFresh A.stands A.due A.seal A.spent T.least first }
        requires second { IsFresh B.stands B.due B.seal B.spent T.least second }
        ensures fresh { let it = ⟦<Chain<A, B> as Operator<T, U>>⟧ in IsFresh it.stands it.due it.seal it.spent T.least result }
        ensures apply { ⟦<Chain<A, B> as Operator<T, U>>⟧.apply result ≡ (λ xs. B.apply second (A.apply first xs)) }
        ensures kept { ⟦<Chain<A, B> as Operator<T, U>>⟧.kept result ≡ (A.kept first, B.kept second) }
        ensures charge { ⟦<Chain<A, B> as Operator<T, U>>⟧.charge result ≡ A.charge first + B.charge second }
        ensures first { result.first ≡ first }
        ensures second { result.second ≡ second }
    {
        Chain { first, second }
    }

    /// The first operator, lent.
    pub fn first(&self) -> &A
        ensures { result.now ≡ self.now.first }
    {
        &self.first
    }

    /// The second operator, lent.
    pub fn second(&self) -> &B
        ensures { result.now ≡ self.now.second }
    {
        &self.second
    }
}

impl<T: Time, U: Counted, A: Operator<T, U>, B: Operator<T, U, Input = A::Output>> Operator<T, U>
    for Chain<A, B> {
    type Input = A::Input;

    type Output = B::Output;

    ghost stands = { λ s run. StandsByLinks (A.stands s.first) (B.stands s.second) run × (B.seal s.second ≡ A.seal s.first) };

    ghost due = { λ s. A.due s.first ++ B.due s.second };

    ghost seal = { λ s. T.lub (A.seal s.first) (B.seal s.second) };

    ghost apply = { λ s xs. B.apply s.second (A.apply s.first xs) };

    ghost Kept = { A.Kept × B.Kept };

    ghost kept = { λ s. (A.kept s.first, B.kept s.second) };

    ghost charge = { λ s. A.charge s.first + B.charge s.second };

    ghost spent = { λ s. A.spent s.first || B.spent s.second };

    ghost answers = { λ s run h. chain_answers T.leq T.lub T.lattice (A.apply s.first) (B.apply s.second) (B.respects s.second) (A.seal s.first) (B.seal s.second) (A.due s.first) (B.due s.second) (A.stands s.first) (B.stands s.second) (A.answers s.first) (B.answers s.second) run h.0 h.1 };

    ghost respects = { λ s xs ys h. B.respects s.second _ _ (A.respects s.first xs ys h) };

    ghost idle = { λ s run t h above over below. (parts_idle link_whole link_first link_second (λ _. refl) (λ _. refl) T.leq T.lub T.lattice (A.stands s.first) (B.stands s.second) (A.seal s.first) (B.seal s.second) (A.due s.first) (B.due s.second) run (record { time = t; fed = []; handed = []; made = []; first_charge = 0; second_charge = 0 }) (A.idle s.first) (B.idle s.second) refl refl refl refl refl refl h.0 above over below, h.1) };

    ghost paid = { λ s run h. parts_paid link_whole link_first link_second (λ _. refl) (λ _. refl) (A.stands s.first) (B.stands s.second) (A.charge s.first) (B.charge s.second) run (A.paid s.first) (B.paid s.second) h.0 };

    fn step(
        &mut self,
        t: T,
        delta: &Batch<A::Input>,
        updater: &mut U,
    ) -> Result<Batch<B::Output>, NoMemory> {
        let handed = self.first.step(t, delta, updater)?;
        self.second.step(t, &handed, updater)
    }

    fn next_due(&self) -> Option<T> {
        earlier(self.first.next_due(), self.second.next_due())
    }

    fn seal(&mut self, f: T) -> Result<(), NoMemory> {
        self.first.seal(f)?;
        self.second.seal(f)
    }

    fn is_spent(&self) -> bool {
        self.first.is_spent() || self.second.is_spent()
    }
}
