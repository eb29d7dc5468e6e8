//! The plain run of `hops`.

ghost use Rattle.std.specs.Prelude.{◌≡◌, ◌<◌, ◌≤◌, ◌+◌, ◌*◌, ◌^◌, length, All, IfOk, OnErr};
ghost use Rattle.vertex_lang.specs.Arcs.{IsArc};
ghost use Rattle.vertex_lang.specs.Expressions.{updated};
ghost use Rattle.vertex_lang.specs.Lone.{answer_of, number_of, rounds_run};
ghost use Rattle.graph_algos.specs.Hops.{hops};
ghost use Rattle.graph_meanings.specs.Meanings.{AreHops, HasRoundsForAll, IsSettled};

use crate::facts::nodes_are_few;
use graph_algos::hops;
use graph_model::Graph;
use std::alloc::Global;
use std::sync::ledger::Ledger;
use surge_outside::{NoMemory, Steps};
use vertex_lang::{Arc, Lone, Rounds, lone_run};

/// Runs `hops` alone over these arcs, as [`lone_run`] does. Where it settles, the value of each node is the least number of
/// arcs of a walk over these arcs that leads to it from the node with the id `source`, and none where there is no such walk
/// or no such node. Over the arcs of edges along [`vertex_lang::Along::Out`] a walk follows the edges in their direction. A run within as
/// many rounds as there are nodes, or more, always settles, because the shortest walk to a node enters no node twice. The
/// error is want of memory, before the first round.
pub fn hop_run<L: Ledger>(
    alloc: Global,
    graph: &Graph,
    arcs: &[Arc],
    source: i64,
    rounds: Rounds,
    steps: &mut Steps<L>,
) -> Result<Lone, NoMemory>
    requires arcs { All (IsArc graph.now) arcs.now }
    requires few { length arcs.now < 2 ^ 32 }
    requires some { 1 ≤ number_of rounds }
    requires limit { number_of rounds ≤ 1_000_000 }
    ensures answer { IfOk result (λ l. l ≡ answer_of updated (hops source) graph.now arcs.now rounds) }
    ensures meaning { IfOk result (λ l. IsSettled l.outcome → AreHops graph.now arcs.now source l.values) }
    ensures settles { IfOk result (λ l. HasRoundsForAll graph.now rounds → IsSettled l.outcome) }
    ensures steps { IfOk result (λ l. steps.new ≡ steps.old + length graph.now.ids * rounds_run (number_of rounds) l.outcome) }
    ensures refused { OnErr result (steps.new ≡ steps.old) }
{
    nodes_are_few(graph);
    let program = hops(alloc, source)?;
    lone_run(alloc, &program, graph, arcs, rounds, steps)
}
