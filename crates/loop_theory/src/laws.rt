//! The laws of a loop over a body in hand.

ghost use Rattle.std.specs.Prelude.{◌≡◌, ℕ, ◌<◌, IsTrue, List};
ghost use Rattle.flow_core.specs.Runs.{Every, NoneBelow};
ghost use Rattle.loop_theory.specs.Loops.{pair_leq, pair_of, Lap, IsLap, body_steps};
ghost use Rattle.loop_theory.specs.LoopLaws.{HoldsAtRound};

use crate::input::LoopInput;
use flow_core::Operator;
use lattice_time::{Pair, Round, Time};
use surge_outside::{Counted, Record};

/// Does nothing, and tells contracts the laws of a loop over the body in hand. Whatever laps it took, at each round of an
/// outer time at or above its seal, with nothing due at or below them, what it was fed sums to the fixed part and to what
/// that many applications give, and what it made to what one more gives. It takes no memory.
pub fn loop_laws<
    T: Time,
    U: Counted,
    F: Record,
    X: Record,
    B: Operator<Pair<T, Round>, U, Input = LoopInput<F, X>, Output = X>,
>(body: &B)
    ensures { (rounds before base : ℕ) (laps : List (Lap T F X)) → Every (IsLap rounds) laps → B.stands body.now (record { steps = body_steps laps; before = before; base = base }) → (t : T) (r : ℕ) → r < rounds → (B.seal body.now).inner.0 ≡ 0 → IsTrue (T.leq (B.seal body.now).outer t) → NoneBelow (pair_leq T.leq) (pair_of t r) (B.due body.now) → HoldsAtRound T.leq (B.apply body.now) laps t r }
{}
