//! All statements of a plan.

ghost use Rattle.std.specs.Prelude.{◌≡◌, ◌+◌, ◌≤◌, OnOk, OnErr};
ghost use Rattle.surge_outside.specs.Counts.{HasRisen};
ghost use Rattle.surge_outside.specs.Written.{GrewByFront, appended};
ghost use Rattle.gvdl_check.specs.Fits.{PlanFits};
ghost use Rattle.surge_session.specs.Output.{plan_text};
ghost use Rattle.surge_session.specs.Works.{plan_work};

use crate::session::{Next, Session, SessionFault};
use graph_model::Graph;
use gvdl_check::Plan;
use result_tables::Form;
use std::alloc::Global;
use surge_outside::{NoMemory, Sink};
use vertex_lang::Updater;

/// Executes all statements of a plan, in their order, and writes what they print. The plan fits the graph; form and turns are
/// as for [`Session::new`]. The updater is called at most as often as the works of all views that are run say.
///
/// # Errors
///
/// [`SessionFault::WriteFault`] where a write failed, which the sink counts, and [`SessionFault::NoMemory`] where memory
/// was wanting. Then a front of the text went out.
pub fn run_all<O: Sink, U: Updater>(
    alloc: Global,
    graph: &Graph,
    plan: &Plan,
    form: Form,
    turns: Option<u64>,
    out: &mut O,
    updater: &mut U,
) -> Result<(), SessionFault>
    requires fits { PlanFits graph.now plan.now }
    ensures ok { OnOk result (O.written out.new ≡ appended (O.written out.old) (plan_text U.answer form graph.now plan.now)) }
    ensures err { OnErr result (GrewByFront (O.written out.old) (O.written out.new) (plan_text U.answer form graph.now plan.now)) }
    ensures calls { OnOk result (U.calls updater.new ≤ U.calls updater.old + plan_work U.answer graph.now plan.now) }
    ensures faults { O.faults out.old ≤ O.faults out.new }
    ensures failed { result ≡ Err SessionFault.WriteFault → HasRisen (O.faults out.old) (O.faults out.new) }
{
    let mut session = match Session::<U>::new(alloc, graph, plan, form, turns) {
        Ok(session) => session,
        Err(NoMemory) => return Err(SessionFault::NoMemory),
    };
    for _done in 0..plan.steps.len() {
        match session.next(out, updater) {
            Ok(Next::Ran) => {}
            Ok(Next::Ended) => return Ok(()),
            Err(fault) => return Err(fault),
        }
    }
    Ok(())
}
