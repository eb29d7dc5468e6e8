//! Dataflows from starts that are given.

ghost use Rattle.std.specs.Prelude.{◌≤◌};
ghost use Rattle.vertex_lang.specs.Leaves.{IsChecked};
ghost use Rattle.flow_core.specs.Runs.{IsFresh};

use crate::tests::plain::{Made, plain_made, starts};
use crate::tests::views::arcs_at;
use flow_core::Operator;
use flow_rows::{Fed, driven, same, sum_to};
use graph_model::{Graph, NodeNo, Val};
use lattice_time::{Position, Time};
use std::alloc::Global;
use surge_outside::{List, NoMemory};
use vertex_flow::{StartFlow, start_flow};
use vertex_items::StartInput;
use vertex_lang::{Along, Program, Updater};
use weighted::{Batch, Weight};

/// Starts of the nodes, in their order, and the arcs of a view, at position 1.
fn fed(
    alloc: Global,
    graph: &Graph,
    along: Along,
    starts: &[Val],
    bits: u32,
) -> Result<List<Fed<Position, StartInput>>, NoMemory> {
    let mut entries = List::new(alloc);
    let mut node: u32 = 0;
    for value in starts {
        entries.push((StartInput::Start(NodeNo(node), *value), Weight(1)))?;
        node = node.wrapping_add(1);
    }
    let arcs = arcs_at(alloc, graph, along, bits)?;
    for arc in arcs.as_slice() {
        entries.push((StartInput::Arc(*arc), Weight(1)))?;
    }
    let delta = Batch::from_entries(entries)?;
    let mut fed = List::new(alloc);
    fed.push(Fed {
        at: Position(1),
        delta,
    })?;
    Ok(fed)
}

/// What a new dataflow makes of what it is fed, up to position 1, and None where its contract doesn't allow a step.
fn made_of<U: Updater, O: Operator<Position, U, Input = StartInput, Output = Made> + Drop>(
    alloc: Global,
    flow: O,
    fed: &[Fed<Position, StartInput>],
    updater: &mut U,
) -> Result<Option<Batch<Made>>, NoMemory>
    requires { IsFresh O.stands O.due O.seal O.spent ⟦<Position as Time>⟧.least flow }
{
    let mut flow = flow;
    let Some(made) = driven(alloc, &mut flow, fed, false, updater)? else {
        return Ok(None);
    };
    Ok(Some(sum_to(alloc, &made, Position(1))?))
}

/// The same of the dataflow of a program.
fn started_over<U: Updater>(
    alloc: Global,
    program: &Program,
    graph: &Graph,
    rounds: u32,
    fed: &[Fed<Position, StartInput>],
    updater: &mut U,
) -> Result<Option<Batch<Made>>, NoMemory>
    requires checked { IsChecked program.now graph.now }
    requires some { 1 ≤ rounds }
    requires limit { rounds ≤ 1_000_000 }
{
    let flow: StartFlow<'_, Position, U> = start_flow(alloc, graph, program, rounds);
    made_of(alloc, flow, fed, updater)
}

/// What it makes of starts and a view.
pub(crate) fn started<U: Updater>(
    alloc: Global,
    program: &Program,
    graph: &Graph,
    rounds: u32,
    starts: &[Val],
    bits: u32,
    updater: &mut U,
) -> Result<Option<Batch<Made>>, NoMemory>
    requires checked { IsChecked program.now graph.now }
    requires some { 1 ≤ rounds }
    requires limit { rounds ≤ 1_000_000 }
{
    let fed = fed(alloc, graph, program.along, starts, bits)?;
    started_over(alloc, program, graph, rounds, fed.as_slice(), updater)
}

/// Whether a dataflow makes of a plain run's starts what that run makes of them.
pub(crate) fn is_own_start<U: Updater>(
    alloc: Global,
    program: &Program,
    graph: &Graph,
    rounds: u32,
    bits: u32,
    updater: &mut U,
) -> Result<bool, NoMemory>
    requires checked { IsChecked program.now graph.now }
    requires some { 1 ≤ rounds }
    requires limit { rounds ≤ 1_000_000 }
{
    let starts = starts(alloc, program, graph)?;
    let starts = starts.as_slice();
    let Some(made) = started(alloc, program, graph, rounds, starts, bits, updater)? else {
        return Ok(false);
    };
    let plain = plain_made(alloc, program, graph, rounds, bits, updater)?;
    Ok(same(&made, &plain))
}
