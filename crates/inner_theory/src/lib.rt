//! What holds of a reduce at the end of the body of a loop.
//!
//! A vertex program as a dataflow is a loop round a part that makes the items of each node and a reduce that makes the
//! next value of each node of them, behind a part that prepares what comes into the loop. This room has no code: it
//! says of any such parts, of which only the reduce is charged, which run the reduce inside stands for
//! (`specs/Inside`), and that this follows from the runs for which the parts stand (`specs/InsideLaws`). It stands on
//! `reduce_theory` and `loop_theory`; `keyed_loop` tells it of the operators.
#![tactic(auto)]

use flow_core::Operator;
use lattice_time::Time;
use loop_theory::LoopInput;
use surge_outside::Record;
use trace_store::Trace;
use weighted::Batch;
