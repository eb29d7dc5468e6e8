//! What a node gets in a round of a view, computed anew from the plain run.

ghost use Rattle.std.specs.Prelude.{◌≡◌, ◌<◌, ◌≤◌, ◌^◌, [], map, length, All, IfOk};
ghost use Rattle.vertex_lang.specs.Leaves.{IsChecked};
ghost use Rattle.vertex_lang.specs.Arcs.{IsArc, outdeg};
ghost use Rattle.vertex_lang.specs.Expressions.{start_of};
ghost use Rattle.vertex_lang.specs.Rounds.{nodes_of, received, lone};
ghost use Rattle.lone_work.specs.Inputs.{own_values, got_values};

use graph_model::{Graph, NodeNo, Val};
use std::alloc::Global;
use surge_outside::{List, NoMemory};
use vertex_lang::{Arc, Program, Rounds, Updater, lone_run, send, start};

/// The value of a node and its messages in a round.
#[derive(Drop)]
pub(crate) struct State {
    pub(crate) own: Vec<Val>,
    pub(crate) got: Vec<Val>,
}

/// What a node has and gets in a round of the plain run over these arcs.
pub(crate) fn state_at<U: Updater>(
    alloc: Global,
    program: &Program,
    graph: &Graph,
    arcs: &[Arc],
    node: u32,
    round: u32,
    updater: &mut U,
) -> Result<State, NoMemory>
    requires checked { IsChecked program.now graph.now }
    requires arcs { All (IsArc graph.now) arcs.now }
    requires few { length arcs.now < 2 ^ 32 }
    requires node { node < length graph.now.ids }
    requires limit { round ≤ 1_000_000 }
    ensures own { IfOk result (λ s. s.own.items ≡ own_values U.answer program.now graph.now arcs.now node round) }
    ensures got { IfOk result (λ s. s.got.items ≡ got_values U.answer program.now graph.now arcs.now node round) }
{
    let values = values_at(alloc, program, graph, arcs, round, updater)?;
    let got = messages_to(alloc, program, graph, arcs, values.as_slice(), node)?;
    let mut own = Vec::new(alloc);
    own.push(values.as_slice()[node as usize])?;
    Ok(State { own, got })
}

/// Nothing.
pub(crate) fn no_state(alloc: Global) -> State
    ensures own { result.own.items ≡ [] }
    ensures got { result.got.items ≡ [] }
{
    State {
        own: Vec::new(alloc),
        got: Vec::new(alloc),
    }
}

// The values after so many rounds.
fn values_at<U: Updater>(
    alloc: Global,
    program: &Program,
    graph: &Graph,
    arcs: &[Arc],
    round: u32,
    updater: &mut U,
) -> Result<List<Val>, NoMemory>
    requires checked { IsChecked program.now graph.now }
    requires arcs { All (IsArc graph.now) arcs.now }
    requires few { length arcs.now < 2 ^ 32 }
    requires limit { round ≤ 1_000_000 }
    ensures values { IfOk result (λ vs. vs ≡ lone U.answer program.now graph.now arcs.now round) }
    ensures size { IfOk result (λ vs. length vs ≡ length graph.now.ids) }
{
    if round == 0 {
        let starts = start_values(alloc, program, graph)?;
        return Ok(starts);
    }
    let run = lone_run(alloc, program, graph, arcs, Rounds::For(round), updater)?;
    Ok(run.values)
}

// The start of each node.
fn start_values(alloc: Global, program: &Program, graph: &Graph) -> Result<List<Val>, NoMemory>
    requires { IsChecked program.now graph.now }
    ensures values { IfOk result (λ vs. vs ≡ map (start_of program.now graph.now) (nodes_of graph.now)) }
    ensures size { IfOk result (λ vs. length vs ≡ length graph.now.ids) }
{
    let mut values = List::new(alloc);
    for node in 0..graph.node_count() {
        values.push(start(program, graph, NodeNo(node)))?;
    }
    Ok(values)
}

// The messages that a node gets under these values.
fn messages_to(
    alloc: Global,
    program: &Program,
    graph: &Graph,
    arcs: &[Arc],
    values: &[Val],
    node: u32,
) -> Result<Vec<Val>, NoMemory>
    requires checked { IsChecked program.now graph.now }
    requires arcs { All (IsArc graph.now) arcs.now }
    requires few { length arcs.now < 2 ^ 32 }
    requires size { length values.now ≡ length graph.now.ids }
    ensures { IfOk result (λ ms. ms.items ≡ received program.now graph.now arcs.now values.now node) }
{
    let mut messages = Vec::new(alloc);
    for arc in arcs {
        if arc.head.0 == node {
            let value = values[arc.tail.0 as usize];
            let message = send(
                program,
                graph,
                arc.tail,
                value,
                degree(arcs, arc.tail),
                arc.edge,
            );
            if message != Val::Nil {
                messages.push(message)?;
            }
        }
    }
    Ok(messages)
}

// How many arcs leave a node.
fn degree(arcs: &[Arc], node: NodeNo) -> u64
    requires { length arcs.now < 2 ^ 32 }
    ensures count { result ≡ outdeg arcs.now node.0 }
    ensures few { result < 2 ^ 32 }
{
    let mut count = 0;
    for arc in arcs {
        if arc.tail.0 == node.0 {
            count += 1;
        }
    }
    count
}
