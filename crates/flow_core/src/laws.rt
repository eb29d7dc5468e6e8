//! The laws of an operator in hand.

ghost use Rattle.std.specs.Prelude.{ℕ, ◌≤◌, IsTrue, List, []};
ghost use Rattle.weighted.specs.Alike.{Alike};
ghost use Rattle.flow_core.specs.Runs.{Run, continued, times_of, NoneAbove, NoneBelow, Answers};

use crate::operator::Operator;
use lattice_time::Time;
use surge_outside::Counted;

/// Does nothing, and tells contracts the laws of the operator in hand. A proof can name the laws of a type parameter,
/// but not those of an operator whose type is known: this call lends them. It takes no memory.
pub fn lawful<T: Time, U: Counted, O: Operator<T, U>>(operator: &O)
    ensures answers { (run : Run T O.Input O.Output) → O.stands operator.now run → Answers T.leq T.lub (O.apply operator.now) (O.seal operator.now) (O.due operator.now) run }
    ensures respects { (xs ys : List (O.Input × ℕ)) → Alike xs ys → Alike (O.apply operator.now xs) (O.apply operator.now ys) }
    ensures idle { (run : Run T O.Input O.Output) (t : T) → O.stands operator.now run → NoneAbove T.leq t (times_of run.steps) → IsTrue (T.leq (O.seal operator.now) t) → NoneBelow T.leq t (O.due operator.now) → O.stands operator.now (continued run t [] [] 0) }
    ensures paid { (run : Run T O.Input O.Output) → O.stands operator.now run → run.base ≤ O.charge operator.now }
{}
