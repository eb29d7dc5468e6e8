//! What should be made of a view, by its plain runs.

ghost use Rattle.std.specs.Prelude.{◌<◌, ◌≤◌, ◌^◌, length, All};
ghost use Rattle.vertex_lang.specs.Arcs.{IsArc};
ghost use Rattle.vertex_lang.specs.Leaves.{IsChecked};

use crate::tests::views::arcs_at;
use graph_model::{Graph, NodeNo, Val};
use lattice_time::Round;
use std::alloc::Global;
use surge_outside::{List, NoMemory};
use vertex_lang::{Arc, Program, Rounds, Updater, lone_run, start};
use weighted::{Batch, Weight};

/// A value of a node at a round, with its weight.
pub(crate) type Made = (Round, (NodeNo, Val));

/// The value with which each node starts.
pub(crate) fn starts(alloc: Global, program: &Program, graph: &Graph) -> Result<List<Val>, NoMemory>
    requires { IsChecked program.now graph.now }
{
    let mut values = List::new(alloc);
    for node in 0..graph.node_count() {
        values.push(start(program, graph, NodeNo(node)))?;
    }
    Ok(values)
}

/// The values of the nodes after so many rounds over these arcs.
fn values<U: Updater>(
    alloc: Global,
    program: &Program,
    graph: &Graph,
    arcs: &[Arc],
    round: u32,
    updater: &mut U,
) -> Result<List<Val>, NoMemory>
    requires checked { IsChecked program.now graph.now }
    requires arcs { All (IsArc graph.now) arcs.now }
    requires few { length arcs.now < 2 ^ 32 }
    requires some { 1 ≤ round }
    requires limit { round ≤ 1_000_000 }
{
    let run = lone_run(alloc, program, graph, arcs, Rounds::For(round), updater)?;
    Ok(run.values)
}

/// Adds the values of all nodes at a round, each with this weight.
fn push_values(
    entries: &mut List<(Made, Weight)>,
    round: u32,
    values: &[Val],
    weight: Weight,
) -> Result<(), NoMemory> {
    let mut node: u32 = 0;
    for value in values {
        entries.push(((Round(round), (NodeNo(node), *value)), weight))?;
        node = node.wrapping_add(1);
    }
    Ok(())
}

/// What should be made of a view: up to each round the values of the plain run after it, each once.
pub(crate) fn plain_made<U: Updater>(
    alloc: Global,
    program: &Program,
    graph: &Graph,
    rounds: u32,
    bits: u32,
    updater: &mut U,
) -> Result<Batch<Made>, NoMemory>
    requires checked { IsChecked program.now graph.now }
    requires limit { rounds ≤ 1_000_000 }
{
    let arcs = arcs_at(alloc, graph, program.along, bits)?;
    let mut now = starts(alloc, program, graph)?;
    let mut entries = List::new(alloc);
    push_values(&mut entries, 0, now.as_slice(), Weight(1))?;
    for round in 0..rounds {
        let next = values(alloc, program, graph, arcs.as_slice(), round + 1, updater)?;
        push_values(&mut entries, round + 1, now.as_slice(), Weight(1).negate())?;
        push_values(&mut entries, round + 1, next.as_slice(), Weight(1))?;
        now = next;
    }
    Batch::from_entries(entries)
}
