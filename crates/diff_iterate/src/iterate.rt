//! The operator of a loop.

ghost use Rattle.std.specs.Prelude.{◌≡◌, ℕ, ◌<◌, ◌≤◌, ◌||◌, false, IsTrue, map};
ghost use Rattle.flow_core.specs.Runs.{IsFresh, NoneBelow, Run};
ghost use Rattle.loop_theory.specs.Loops.{loop_apply, StandsByLaps};
ghost use Rattle.loop_theory.specs.LoopLaws.{HoldsAtRound, loop_respects, none_outer, seal_below};
ghost use Rattle.loop_theory.specs.RunLaws.{laps_answers};
ghost use Rattle.loop_theory.specs.Underway.{laps_idle};

use crate::lap::take_lap;
use flow_core::Operator;
use lattice_time::{Pair, Round, Time};
use loop_theory::LoopInput;
use std::alloc::Global;
use std::marker::PhantomData;
use surge_outside::{Counted, NoMemory, Record};
use weighted::Batch;

/// The operator that applies a body again and again, so many rounds. The body is an operator over pairs of a time and a
/// round, from the fixed part and a collection to a collection. At round 0 the loop makes the moving part that it is
/// fed, and at each later round the change that one more application of the body makes. It charges what its body
/// charges, and what is due to its body at a round is due to it.
#[derive(Drop)]
pub struct Iterate<B: Operator<Pair<T, Round>, U>, T: Time, U: Counted> {
    alloc: Global,
    body: B,
    rounds: u32,
    broken: bool,
    of: PhantomData<(T, U)>,
    ghost some: { 0 < rounds },
    ghost level: { B.spent body ≡ false → (B.seal body).inner.0 ≡ 0 },
}

// `LoopInput<F, X>` is a record wherever F and X are. It is asked for here as well, so that its one order is that of
// the body's input.
impl<
    T: Time,
    U: Counted,
    F: Record,
    X: Record,
    B: Operator<Pair<T, Round>, U, Input = LoopInput<F, X>, Output = X>,
> Iterate<B, T, U>
where
    LoopInput<F, X>: Record + Ord + Eq + PartialOrd + PartialEq,
{
    /// The loop of a body that was not stepped yet, of 1 to 1,000,000 rounds. It takes no memory; its steps use
    /// `alloc`.
    pub fn new(alloc: Global, body: B, rounds: u32) -> Iterate<B, T, U>
        requires body { IsFresh B.stands B.due B.seal B.spent ⟦<Pair<T, Round> as Time>⟧.least body }
        requires some { 1 ≤ rounds }
        requires few { rounds ≤ 1000000 }
        ensures fresh { let it = ⟦<Iterate<B, T, U> as Operator<T, U>>⟧ in IsFresh it.stands it.due it.seal it.spent T.least result }
        ensures apply { ⟦<Iterate<B, T, U> as Operator<T, U>>⟧.apply result ≡ loop_apply (B.apply body) rounds }
        ensures kept { ⟦<Iterate<B, T, U> as Operator<T, U>>⟧.kept result ≡ (B.kept body, rounds) }
        ensures charge { ⟦<Iterate<B, T, U> as Operator<T, U>>⟧.charge result ≡ B.charge body }
        ensures body { result.body ≡ body }
        ensures rounds { result.rounds ≡ rounds }
    {
        Iterate {
            alloc,
            body,
            rounds,
            broken: false,
            of: PhantomData,
        }
    }

    /// The body, lent. For each run for which the loop stands, the body stands for the run of its laps: one step a
    /// round of each step of the loop. At each round of a time at or above the seal with nothing due at or below it,
    /// the body was fed the fixed part and what so many applications give, and made what one more gives. It takes no
    /// memory.
    pub fn body(&self) -> &B
        ensures body { result.now ≡ self.now.body }
        ensures run { (run : Run T (LoopInput F X) (Round × X)) → ⟦<Iterate<B, T, U> as Operator<T, U>>⟧.stands self.now run → StandsByLaps (B.stands result.now) self.now.rounds run }
        ensures rounds { let it = ⟦<Iterate<B, T, U> as Operator<T, U>>⟧ in (run : Run T (LoopInput F X) (Round × X)) (stands : it.stands self.now run) (t : T) (r : ℕ) → r < self.now.rounds → IsTrue (T.leq (it.seal self.now) t) → NoneBelow T.leq t (it.due self.now) → HoldsAtRound T.leq (B.apply result.now) stands.0.laps t r }
    {
        &self.body
    }
}

impl<
    T: Time,
    U: Counted,
    F: Record,
    X: Record,
    B: Operator<Pair<T, Round>, U, Input = LoopInput<F, X>, Output = X>,
> Operator<T, U> for Iterate<B, T, U>
where
    LoopInput<F, X>: Record + Ord + Eq + PartialOrd + PartialEq,
{
    type Input = LoopInput<F, X>;

    type Output = (Round, X);

    ghost stands = { λ s run. StandsByLaps (B.stands s.body) s.rounds run × ((B.seal s.body).inner.0 ≡ 0) };

    ghost due = { λ s. map (λ d. d.outer) (B.due s.body) };

    ghost seal = { λ s. (B.seal s.body).outer };

    ghost apply = { λ s. loop_apply (B.apply s.body) s.rounds };

    ghost Kept = { B.Kept × ℕ };

    ghost kept = { λ s. (B.kept s.body, s.rounds) };

    ghost charge = { λ s. B.charge s.body };

    ghost spent = { λ s. s.broken || B.spent s.body };

    ghost answers = { λ s run h. laps_answers T.leq T.lub (B.apply s.body) (B.respects s.body) (B.seal s.body) (B.due s.body) (B.stands s.body) (B.answers s.body) s.rounds run h.1 h.0 };

    ghost respects = { λ s. loop_respects (B.apply s.body) (B.respects s.body) s.rounds };

    ghost idle = { λ s run t h above over below. (laps_idle T.leq (B.stands s.body) s.rounds run t (λ k r w none. B.idle s.body r _ w none (seal_below T.leq (B.seal s.body) t k h.1 over) (none_outer T.leq t k (B.due s.body) below)) h.0 above, h.1) };

    ghost paid = { λ s run h. B.paid s.body _ (h.0.stands) };

    fn step(
        &mut self,
        t: T,
        delta: &Batch<LoopInput<F, X>>,
        updater: &mut U,
    ) -> Result<Batch<(Round, X)>, NoMemory> {
        let made = take_lap(self.alloc, &mut self.body, self.rounds, t, delta, updater);
        self.broken = made.is_err();
        made
    }

    fn next_due(&self) -> Option<T> {
        match self.body.next_due() {
            Some(due) => Some(due.outer),
            None => None,
        }
    }

    fn seal(&mut self, f: T) -> Result<(), NoMemory> {
        let time = Pair {
            outer: f,
            inner: Round(0),
        };
        self.body.seal(time)
    }

    fn is_spent(&self) -> bool {
        self.broken || self.body.is_spent()
    }
}
