//! Changes of values, as they are kept.

ghost use Rattle.std.specs.Prelude.{◌≡◌, map, IfOk, OnOk, OnErr};
ghost use Rattle.result_tables.specs.Results.{IsNew, IsBefore, IsChange, with_answer};
ghost use Rattle.view_engine.specs.Assigning.{change_in};

use change_lists::Change;
use graph_model::{NodeNo, Val};
use result_tables::Results;
use std::alloc::Global;
use surge_outside::{List, NoMemory};
use view_segment::Given;

// Changes as pairs of a node and its value.
fn pairs(alloc: Global, change: &List<Change>) -> Result<Vec<(NodeNo, Val)>, NoMemory>
    ensures { IfOk result (λ pairs. pairs.items ≡ map (λ c. (c.node, c.value)) change.now) }
{
    let changes = change.as_slice();
    let mut pairs = Vec::with_capacity(alloc, changes.len())?;
    for c in changes {
        pairs.push((c.node, c.value))?;
    }
    Ok(pairs)
}

/// Keeps the answer that the step of a view gave. The error is want of memory, and it leaves the results as they were.
pub(crate) fn hold(alloc: Global, results: &mut Results, given: &Given) -> Result<(), NoMemory>
    requires new { IsNew results.old given.now.view }
    requires before { IsBefore results.old given.now.before }
    requires change { IsChange results.old given.now.before (change_in given.now) }
    ensures ok { OnOk result (results.new ≡ with_answer results.old given.now.view given.now.before given.now.outcome (change_in given.now)) }
    ensures err { OnErr result (results.new ≡ results.old) }
{
    let change = pairs(alloc, &given.change)?;
    results.add_change(given.view, given.before, given.outcome, &change)
}
