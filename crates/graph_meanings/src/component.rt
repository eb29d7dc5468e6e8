//! The plain run of `wcc`.

ghost use Rattle.std.specs.Prelude.{◌≡◌, ◌<◌, ◌≤◌, ◌+◌, ◌*◌, ◌^◌, length, All, IfOk, OnErr};
ghost use Rattle.vertex_lang.specs.Arcs.{IsArc};
ghost use Rattle.vertex_lang.specs.Expressions.{updated};
ghost use Rattle.vertex_lang.specs.Lone.{answer_of, number_of, rounds_run};
ghost use Rattle.graph_algos.specs.Wcc.{wcc};
ghost use Rattle.graph_meanings.specs.Meanings.{AreComponents, HasRoundsForAll, IsSettled};

use crate::facts::ids_are_small;
use graph_algos::wcc;
use graph_model::Graph;
use std::alloc::Global;
use std::sync::ledger::Ledger;
use surge_outside::{NoMemory, Steps};
use vertex_lang::{Arc, Lone, Rounds, lone_run};

/// Runs `wcc` alone over these arcs, as [`lone_run`] does. Where it settles, the value of each node is the least id of the
/// nodes from which a walk over these arcs leads to it. Over the arcs of edges along [`vertex_lang::Along::Both`] that is the least id of
/// its weakly connected component. A run within as many rounds as there are nodes, or more, always settles. The error is
/// want of memory, before the first round.
pub fn wcc_run<L: Ledger>(
    alloc: Global,
    graph: &Graph,
    arcs: &[Arc],
    rounds: Rounds,
    steps: &mut Steps<L>,
) -> Result<Lone, NoMemory>
    requires arcs { All (IsArc graph.now) arcs.now }
    requires few { length arcs.now < 2 ^ 32 }
    requires some { 1 ≤ number_of rounds }
    requires limit { number_of rounds ≤ 1_000_000 }
    ensures answer { IfOk result (λ l. l ≡ answer_of updated wcc graph.now arcs.now rounds) }
    ensures meaning { IfOk result (λ l. IsSettled l.outcome → AreComponents graph.now arcs.now l.values) }
    ensures settles { IfOk result (λ l. HasRoundsForAll graph.now rounds → IsSettled l.outcome) }
    ensures steps { IfOk result (λ l. steps.new ≡ steps.old + length graph.now.ids * rounds_run (number_of rounds) l.outcome) }
    ensures refused { OnErr result (steps.new ≡ steps.old) }
{
    ids_are_small(graph);
    let program = wcc(alloc)?;
    lone_run(alloc, &program, graph, arcs, rounds, steps)
}
