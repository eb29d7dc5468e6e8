//! The plain run of `dist`.

ghost use Rattle.std.specs.Prelude.{◌≡◌, ◌<◌, ◌≤◌, ◌+◌, ◌*◌, ◌^◌, length, All, IfOk, OnErr, IsTrue};
ghost use Rattle.vertex_lang.specs.Arcs.{IsArc};
ghost use Rattle.vertex_lang.specs.Expressions.{updated};
ghost use Rattle.vertex_lang.specs.Leaves.{is_int_column};
ghost use Rattle.vertex_lang.specs.Lone.{answer_of, number_of, rounds_run};
ghost use Rattle.graph_algos.specs.Dist.{dist};
ghost use Rattle.graph_meanings.specs.Meanings.{AreDistances, HasRoundsForAll, HasWeights, IsSettled};

use graph_algos::dist;
use graph_model::Graph;
use std::alloc::Global;
use std::sync::ledger::Ledger;
use surge_outside::{NoMemory, Steps};
use vertex_lang::{Arc, Lone, Rounds, lone_run};

/// Runs `dist` alone over these arcs, as [`lone_run`] does. Where it settles, the value of each node is the least weight of a
/// walk over these arcs that leads to it from the node with the id `source`, and none where there is no such walk or no such
/// node. The weight of an arc is the number of its edge in this column, which has to be there and not negative on each arc,
/// and all of them together below 2^62 ([`crate::has_weights`] tells). Over the arcs of edges along [`vertex_lang::Along::Out`] a walk
/// follows the edges in their direction. A run within as many rounds as there are nodes, or more, always settles. The error
/// is want of memory, before the first round.
pub fn dist_run<L: Ledger>(
    alloc: Global,
    graph: &Graph,
    arcs: &[Arc],
    source: i64,
    column: usize,
    rounds: Rounds,
    steps: &mut Steps<L>,
) -> Result<Lone, NoMemory>
    requires arcs { All (IsArc graph.now) arcs.now }
    requires few { length arcs.now < 2 ^ 32 }
    requires some { 1 ≤ number_of rounds }
    requires limit { number_of rounds ≤ 1_000_000 }
    requires column { IsTrue (is_int_column graph.now.edge_columns column) }
    requires weights { HasWeights graph.now column arcs.now }
    ensures answer { IfOk result (λ l. l ≡ answer_of updated (dist source column) graph.now arcs.now rounds) }
    ensures meaning { IfOk result (λ l. IsSettled l.outcome → AreDistances graph.now arcs.now source column l.values) }
    ensures settles { IfOk result (λ l. HasRoundsForAll graph.now rounds → IsSettled l.outcome) }
    ensures steps { IfOk result (λ l. steps.new ≡ steps.old + length graph.now.ids * rounds_run (number_of rounds) l.outcome) }
    ensures refused { OnErr result (steps.new ≡ steps.old) }
{
    let _ = graph.edge_columns();
    let program = dist(alloc, source, column)?;
    lone_run(alloc, &program, graph, arcs, rounds, steps)
}
