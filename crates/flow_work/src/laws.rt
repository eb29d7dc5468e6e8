//! The law of the charge of a turn.

ghost use Rattle.flow_work.specs.Inner.{InnerIsFedInputs};
ghost use Rattle.flow_work.specs.Turns.{TurnIsWork};

use flow_core::Operator;
use lattice_time::Time;
use lone_work::count_work;
use loop_theory::LoopInput;
use trace_store::Trace;
use vertex_items::NodeItem;
use view_items::items_are_inputs;
use weighted::Batch;
use work_theory::lap_is_work;

/// Where one step came after the seal, and nothing is due at or below its time, the charge since the seal is the work
/// of the view that was fed up to that time behind the view that was fed up to the seal.
pub fn turn_is_work<T: Time>()
    ensures { TurnIsWork T T.leq T.lub }
{}

/// Where what such a dataflow was fed up to a time at which nothing is due is a view, the reduce inside was fed the
/// input of each node in each round of the view's plain run.
pub fn inner_is_fed_inputs<T: Time>()
    ensures { InnerIsFedInputs T T.leq T.lub }
{}
