//! Where nothing is due.

ghost use Rattle.std.specs.Prelude.{◌≡◌, IsTrue, []};
ghost use Rattle.flow_core.specs.Closing.{IsClosed, IsClosedBelow};
ghost use Rattle.flow_core.specs.Runs.{Run, Every, times_of};

use crate::operator::Operator;
use lattice_time::Time;
use surge_outside::Counted;

/// Does nothing, and tells contracts that nothing is due to an operator where it stands for a run whose times have
/// their least upper bounds among them. So it may be sealed, or stepped at any time that the run allows. It takes no
/// memory.
pub fn settled<T: Time, U: Counted, O: Operator<T, U>>(operator: &O)
    ensures due { (run : Run T O.Input O.Output) → O.stands operator.now run → IsClosed T.lub (times_of run.steps) → O.due operator.now ≡ [] }
    ensures step { (run : Run T O.Input O.Output) (t : T) → O.stands operator.now run → IsClosed T.lub (times_of run.steps) → Every (λ d. IsTrue (T.leq d t) → d ≡ t) (O.due operator.now) }
{}

/// Does nothing, and tells contracts that nothing is due to an operator at or below `t` but perhaps `t` itself, where
/// it stands for a run in which each least upper bound of two times that is at or below `t` is one of its times or `t`.
/// It takes no memory.
pub fn settled_below<T: Time, U: Counted, O: Operator<T, U>>(operator: &O, t: T)
    ensures { (run : Run T O.Input O.Output) → O.stands operator.now run → IsClosedBelow T.leq T.lub t (times_of run.steps) → Every (λ d. IsTrue (T.leq d t) → d ≡ t) (O.due operator.now) }
{}
