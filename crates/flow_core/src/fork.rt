//! Two operators, side by side.

ghost use Rattle.std.specs.Prelude.{◌≡◌, ◌+◌, ◌++◌, ◌||◌, [], refl, IfOk};
ghost use Rattle.flow_core.specs.declared.side.Side.TheVariants.{Left, Right};
ghost use Rattle.flow_core.specs.Runs.{IsFresh};
ghost use Rattle.flow_core.specs.Parts.{StandsByBranches, both_sides, branch_whole, branch_first, branch_second};
ghost use Rattle.flow_core.specs.PartLaws.{parts_idle, parts_paid};
ghost use Rattle.flow_core.specs.ForkLaws.{fork_answers, Alike-both_sides};

use crate::each::{Each, push_each};
use crate::earlier::earlier;
use crate::operator::Operator;
use crate::side::Side;
use lattice_time::Time;
use std::alloc::Global;
use surge_outside::{Counted, List, NoMemory, Record};
use weighted::Batch;

/// Two operators, side by side: both are fed the same, and what each makes is a side of what is made. Its charge is the
/// sum of both. What is due to either is due to it.
#[derive(Drop)]
pub struct Fork<A, B> {
    alloc: Global,
    first: A,
    second: B,
    spent: bool,
}

/// Puts a record on the left.
struct ToLeft;

impl<A, B> Each<A, Side<A, B>> for ToLeft {
    ghost gives = { λ _. Left };

    fn apply(&self, a: A) -> Side<A, B> {
        Side::Left(a)
    }
}

/// Puts a record on the right.
struct ToRight;

impl<A, B> Each<B, Side<A, B>> for ToRight {
    ghost gives = { λ _. Right };

    fn apply(&self, b: B) -> Side<A, B> {
        Side::Right(b)
    }
}

/// The batch of two sides. Left records come before right ones, so it doesn't sort.
fn join_sides<A: Record, B: Record>(
    alloc: Global,
    left: &Batch<A>,
    right: &Batch<B>,
) -> Result<Batch<Side<A, B>>, NoMemory>
    ensures { IfOk result (λ made. made ≡ both_sides left.now right.now) }
{
    let mut entries = Vec::new(alloc);
    push_each(&mut entries, &ToLeft, left)?;
    push_each(&mut entries, &ToRight, right)?;
    Ok(Batch::from_rising(List::from_vec(entries)))
}

impl<A, B> Fork<A, B> {
    /// Two operators that were not stepped yet, side by side. It takes no memory; its steps use `alloc`.
    pub fn new<T: Time, U: Counted>(alloc: Global, first: A, second: B) -> Fork<A, B>
    where
        A: Operator<T, U>,
        B: Operator<T, U, Input = A::Input>,
        requires first { IsFresh A.stands A.due A.seal A.spent T.least first }
        requires second { IsFresh B.stands B.due B.seal B.spent T.least second }
        ensures fresh { let it = ⟦<Fork<A, B> as Operator<T, U>>⟧ in IsFresh it.stands it.due it.seal it.spent T.least result }
        ensures apply { ⟦<Fork<A, B> as Operator<T, U>>⟧.apply result ≡ (λ xs. both_sides (A.apply first xs) (B.apply second xs)) }
        ensures charge { ⟦<Fork<A, B> as Operator<T, U>>⟧.charge result ≡ A.charge first + B.charge second }
        ensures first { result.first ≡ first }
        ensures second { result.second ≡ second }
    {
        Fork {
            alloc,
            first,
            second,
            spent: false,
        }
    }

    /// The first operator, lent.
    pub fn first(&self) -> &A
        ensures { result.now ≡ self.now.first }
    {
        &self.first
    }

    /// The second operator, lent.
    pub fn second(&self) -> &B
        ensures { result.now ≡ self.now.second }
    {
        &self.second
    }
}

impl<T: Time, U: Counted, A: Operator<T, U>, B: Operator<T, U, Input = A::Input>> Operator<T, U>
    for Fork<A, B> {
    type Input = A::Input;

    type Output = Side<A::Output, B::Output>;

    ghost stands = { λ s run. StandsByBranches (A.stands s.first) (B.stands s.second) run × (B.seal s.second ≡ A.seal s.first) };

    ghost due = { λ s. A.due s.first ++ B.due s.second };

    ghost seal = { λ s. T.lub (A.seal s.first) (B.seal s.second) };

    ghost apply = { λ s xs. both_sides (A.apply s.first xs) (B.apply s.second xs) };

    ghost kept = { λ s xs. both_sides (A.apply s.first xs) (B.apply s.second xs) };

    ghost charge = { λ s. A.charge s.first + B.charge s.second };

    ghost spent = { λ s. s.spent || (A.spent s.first || B.spent s.second) };

    ghost answers = { λ s run h. fork_answers T.leq T.lub T.lattice (A.apply s.first) (B.apply s.second) (A.seal s.first) (B.seal s.second) (A.due s.first) (B.due s.second) (A.stands s.first) (B.stands s.second) (A.answers s.first) (B.answers s.second) run h.0 h.1 };

    ghost respects = { λ s xs ys h. Alike-both_sides _ _ _ _ (A.respects s.first xs ys h) (B.respects s.second xs ys h) };

    ghost idle = { λ s run t h above over below. (parts_idle branch_whole branch_first branch_second (λ _. refl) (λ _. refl) T.leq T.lub T.lattice (A.stands s.first) (B.stands s.second) (A.seal s.first) (B.seal s.second) (A.due s.first) (B.due s.second) run (record { time = t; fed = []; left = []; right = []; first_charge = 0; second_charge = 0 }) (A.idle s.first) (B.idle s.second) refl refl refl refl refl refl h.0 above over below, h.1) };

    ghost paid = { λ s run h. parts_paid branch_whole branch_first branch_second (λ _. refl) (λ _. refl) (A.stands s.first) (B.stands s.second) (A.charge s.first) (B.charge s.second) run (A.paid s.first) (B.paid s.second) h.0 };

    fn step(
        &mut self,
        t: T,
        delta: &Batch<A::Input>,
        updater: &mut U,
    ) -> Result<Batch<Side<A::Output, B::Output>>, NoMemory> {
        let left = self.first.step(t, delta, updater)?;
        let right = self.second.step(t, delta, updater)?;
        let made = join_sides(self.alloc, &left, &right);
        self.spent = made.is_err();
        made
    }

    fn next_due(&self) -> Option<T> {
        earlier(self.first.next_due(), self.second.next_due())
    }

    fn seal(&mut self, f: T) -> Result<(), NoMemory> {
        self.first.seal(f)?;
        self.second.seal(f)
    }

    fn is_spent(&self) -> bool {
        self.spent || self.first.is_spent() || self.second.is_spent()
    }
}
