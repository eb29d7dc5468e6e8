//! The check of a whole script.

ghost use Rattle.std.specs.Prelude.{◌≡◌, length, sum, IfOk};
ghost use Rattle.gvdl_check.specs.Faults.{Agrees};
ghost use Rattle.gvdl_check.specs.Plans.{plan_loaded, plan};
ghost use Rattle.gvdl_check.specs.Fits.{PlanFits, HoldsNoLowest};
ghost use Rattle.gvdl_check.specs.Written.{IsWritten};

use crate::fault::{CheckFault, stop_at};
use crate::form::is_form;
use crate::known::Known;
use crate::plan::Plan;
use crate::statement::{Moment, add_statement, group_at, last_edit, load};
use graph_model::Graph;
use gvdl_tree::Script;
use std::alloc::Global;

/// The plan of a script against a graph, whose edges come with the edges file and with the files that the script inserts: so
/// many with each of them, in this order.
///
/// The script was read from a text shorter than 2^31 bytes. Names are looked up by hash, so it takes the time of the
/// script's length and of what the plan holds.
///
/// # Errors
///
/// [`CheckFault::BadForm`] exactly where the script writes a form that is neither 1 nor 2, whatever its statements are; else
/// [`CheckFault::Fault`] with the first fault of the script against the graph, exactly where it has one;
/// [`CheckFault::NoMemory`] where a request for memory was refused.
pub fn check(
    alloc: Global,
    script: &Script,
    graph: &Graph,
    groups: &[u32],
) -> Result<Plan, CheckFault>
    requires written { IsWritten script.now }
    requires groups { sum groups.now ≡ length graph.now.ends }
    ensures exact { Agrees (plan script.now graph.now groups.now) result }
    ensures fits { IfOk result (λ p. PlanFits graph.now p) }
    ensures numbers { IfOk result HoldsNoLowest }
    ensures steps { IfOk result (λ p. length p.steps ≡ length script.now.statements) }
{
    judged(alloc, script, graph, groups)
}

// The same: first the form, and then the statements.
#[tactic(auto, using(crate::proofs::PlanAnswers::form_refused, crate::proofs::PlanAnswers::form_taken))]
fn judged(alloc: Global, script: &Script, graph: &Graph, groups: &[u32]) -> Result<Plan, CheckFault>
    requires written { IsWritten script.now }
    requires groups { sum groups.now ≡ length graph.now.ends }
    ensures { Agrees (plan script.now graph.now groups.now) result }
{
    if !is_form(script.form) {
        return Err(CheckFault::BadForm);
    }
    statements_judged(alloc, script, graph, groups)
}

// The same of a script in a form that there is, statement by statement.
fn statements_judged(
    alloc: Global,
    script: &Script,
    graph: &Graph,
    groups: &[u32],
) -> Result<Plan, CheckFault>
    requires written { IsWritten script.now }
    requires groups { sum groups.now ≡ length graph.now.ends }
    ensures { Agrees (plan_loaded script.now graph.now groups.now) result }
{
    let mut known = match load(alloc, script.graph.as_str(), group_at(groups, 0)) {
        Ok(known) => known,
        Err(stop) => return Err(stop_at(stop, 1)),
    };
    let last_edit = last_edit(script.statements.as_slice());
    let _edges = graph.edge_count();
    let mut number = 1;
    for statement in script.statements.as_slice() {
        number += 1;
        let moment = Moment {
            number,
            last_edit,
            group: group_at(groups, known.files),
        };
        if let Err(stop) = add_statement(alloc, script.form, graph, moment, &mut known, statement) {
            return Err(stop_at(stop, number));
        }
    }
    Ok(known.into_plan(last_edit))
}
