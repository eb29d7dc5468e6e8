//! A vertex program as a dataflow, made of its parts.

ghost use Rattle.std.specs.Prelude.{◌≡◌, ◌≤◌, ◌%◌, ◌^◌};
ghost use Rattle.flow_core.specs.Runs.{IsFresh};
ghost use Rattle.vertex_lang.specs.Leaves.{IsChecked};
ghost use Rattle.reduce_theory.specs.ByKey.{reduce_apply};
ghost use Rattle.vertex_items.specs.Given.{node_gives};
ghost use Rattle.view_items.specs.Collections.{items};
ghost use Rattle.view_items.specs.Rounds.{round_of};
ghost use Rattle.flow_work.specs.Starts.{start_parts};
ghost use Rattle.flow_work.specs.Values.{flow_apply, flow_parts, start_apply};

use crate::items::{Items, items_of};
use crate::prep::{FlowPrep, StartPrep, flow_prep, start_prep};
use diff_reduce::Reduce;
use flow_core::Operator;
use graph_model::{Graph, NodeNo};
use keyed_loop::{KeyedBody, KeyedLoop, body_of, loop_of};
use lattice_time::{Pair, Round, Time};
use std::alloc::Global;
use vertex_items::NodeItem;
use vertex_lang::{Arc, Program, Updater};
use vertex_parts::Update;

/// From the nodes and arcs of a view to the values of the nodes, round by round.
pub type VertexFlow<'g, T, U> = KeyedLoop<
    FlowPrep<'g, T>,
    Items<'g, Pair<T, Round>>,
    Update<'g, U>,
    T,
    U,
>;

/// The same, from starts that are given and the arcs of a view.
pub type StartFlow<'g, T, U> = KeyedLoop<
    StartPrep<'g, T>,
    Items<'g, Pair<T, Round>>,
    Update<'g, U>,
    T,
    U,
>;

/// One round of a program: the items of each node, and what is made of it.
pub type OneRound<'g, T, U> = KeyedBody<Items<'g, T>, Update<'g, U>, T, U>;

/// One round of a program over a graph, against which it was checked. It takes no memory; its steps use `alloc`.
fn round_of<'g, T: Time, U: Updater>(
    alloc: Global,
    graph: &'g Graph,
    program: &'g Program,
) -> OneRound<'g, T, U>
    requires { IsChecked program.now graph.now }
    ensures fresh { let it = ⟦<OneRound<'g, T, U> as Operator<T, U>>⟧ in IsFresh it.stands it.due it.seal it.spent T.least result }
    ensures apply { ⟦<OneRound<'g, T, U> as Operator<T, U>>⟧.apply result ≡ round_of ⟦<NodeNo as Ord>⟧.cmp ⟦<NodeItem as Ord>⟧.cmp U.answer program.now graph.now }
    ensures kept { ⟦<OneRound<'g, T, U> as Operator<T, U>>⟧.kept result ≡ (items ⟦<NodeNo as Ord>⟧.cmp program.now graph.now, reduce_apply ⟦<NodeNo as Ord>⟧.cmp ⟦<NodeItem as Ord>⟧.cmp (node_gives U.answer program.now graph.now)) }
    ensures charge { ⟦<OneRound<'g, T, U> as Operator<T, U>>⟧.charge result ≡ 0 }
{
    let items: Items<'g, T> = items_of(alloc, graph, program);
    let update: Update<'g, U> = Update::new(alloc, graph, program);
    let reduce: Reduce<Update<'g, U>, T, U> = Reduce::new(alloc, update);
    body_of(items, reduce)
}

/// The dataflow of a program over a graph, against which it was checked, of 1 to 1,000,000 rounds. It takes no memory;
/// its steps use `alloc`.
pub fn vertex_flow<'g, T: Time, U: Updater>(
    alloc: Global,
    graph: &'g Graph,
    program: &'g Program,
    rounds: u32,
) -> VertexFlow<'g, T, U>
    requires checked { IsChecked program.now graph.now }
    requires some { 1 ≤ rounds }
    requires few { rounds ≤ 1_000_000 }
    ensures fresh { let it = ⟦<VertexFlow<'g, T, U> as Operator<T, U>>⟧ in IsFresh it.stands it.due it.seal it.spent T.least result }
    ensures apply { ⟦<VertexFlow<'g, T, U> as Operator<T, U>>⟧.apply result ≡ flow_apply ⟦<NodeNo as Ord>⟧.cmp ⟦<Arc as Ord>⟧.cmp ⟦<NodeItem as Ord>⟧.cmp U.answer program.now graph.now rounds }
    ensures kept { flow_parts ⟦<NodeNo as Ord>⟧.cmp ⟦<Arc as Ord>⟧.cmp ⟦<NodeItem as Ord>⟧.cmp U.answer program.now graph.now rounds ≡ ⟦<VertexFlow<'g, T, U> as Operator<T, U>>⟧.kept result }
    ensures charge { ⟦<VertexFlow<'g, T, U> as Operator<T, U>>⟧.charge result ≡ 0 }
{
    let prep: FlowPrep<'g, T> = flow_prep(alloc, graph, program);
    let body: OneRound<'g, Pair<T, Round>, U> = round_of(alloc, graph, program);
    loop_of(alloc, prep, body, rounds)
}

/// The dataflow of a program over a graph, from starts that are given. All else is as for [`vertex_flow`].
pub fn start_flow<'g, T: Time, U: Updater>(
    alloc: Global,
    graph: &'g Graph,
    program: &'g Program,
    rounds: u32,
) -> StartFlow<'g, T, U>
    requires checked { IsChecked program.now graph.now }
    requires some { 1 ≤ rounds }
    requires few { rounds ≤ 1_000_000 }
    ensures fresh { let it = ⟦<StartFlow<'g, T, U> as Operator<T, U>>⟧ in IsFresh it.stands it.due it.seal it.spent T.least result }
    ensures apply { ⟦<StartFlow<'g, T, U> as Operator<T, U>>⟧.apply result ≡ start_apply ⟦<NodeNo as Ord>⟧.cmp ⟦<Arc as Ord>⟧.cmp ⟦<NodeItem as Ord>⟧.cmp U.answer program.now graph.now rounds }
    ensures kept { start_parts ⟦<NodeNo as Ord>⟧.cmp ⟦<Arc as Ord>⟧.cmp ⟦<NodeItem as Ord>⟧.cmp U.answer program.now graph.now rounds ≡ ⟦<StartFlow<'g, T, U> as Operator<T, U>>⟧.kept result }
    ensures charge { ⟦<StartFlow<'g, T, U> as Operator<T, U>>⟧.charge result ≡ 0 }
{
    let prep: StartPrep<'g, T> = start_prep(alloc, graph, program);
    let body: OneRound<'g, Pair<T, Round>, U> = round_of(alloc, graph, program);
    loop_of(alloc, prep, body, rounds)
}

/// How many times a node was evaluated so far, modulo 2^64: the low bits of what is charged. It takes no memory.
pub fn evaluations<'g, T: Time, U: Updater>(flow: &VertexFlow<'g, T, U>) -> u64
    ensures { result ≡ ⟦<VertexFlow<'g, T, U> as Operator<T, U>>⟧.charge flow.now % 2 ^ 64 }
{
    flow.second().body().second().evaluations()
}

/// The same of a dataflow from starts that are given.
pub fn start_evaluations<'g, T: Time, U: Updater>(flow: &StartFlow<'g, T, U>) -> u64
    ensures { result ≡ ⟦<StartFlow<'g, T, U> as Operator<T, U>>⟧.charge flow.now % 2 ^ 64 }
{
    flow.second().body().second().evaluations()
}
