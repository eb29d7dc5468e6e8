//! What comes into the loop, from nodes or starts and from arcs.

ghost use Rattle.std.specs.Prelude.{◌≡◌, ◌++◌};
ghost use Rattle.flow_core.specs.Runs.{IsFresh};
ghost use Rattle.vertex_lang.specs.Leaves.{IsChecked};
ghost use Rattle.flow_core.specs.Expanded.{expanded};
ghost use Rattle.view_items.specs.Prepared.{arcs_in_loop, prepared, prepared_starts};

use crate::mapped::MappedReduce;
use diff_reduce::Reduce;
use flow_core::{Bypass, Expand, Map, NoCalls, Operator};
use graph_model::{Graph, NodeNo};
use lattice_time::Time;
use std::alloc::Global;
use surge_outside::Record;
use vertex_items::{FlowInput, StartInput};
use vertex_lang::{Arc, Program, names_outdeg};
use vertex_parts::{ArcInLoop, Degrees, FlowTails, InLoop, NodeBegins, StartBegins, StartTails};

/// Arcs by their tails, each with what is told of its tail, as they stand in the loop.
pub type Told<T> = MappedReduce<Degrees, ArcInLoop, InLoop, T>;

/// What comes into the loop: what begins goes past the arcs.
pub type Prep<B, E, I, T> = Bypass<B, E, I, Told<T>>;

/// Arcs by their tails, each with what is told of its tail. It takes no memory; its steps use `alloc`.
fn told_of<T: Time>(alloc: Global, program: &Program) -> Told<T>
    ensures fresh { let it = ⟦<Told<T> as Operator<T, NoCalls>>⟧ in IsFresh it.stands it.due it.seal it.spent T.least result }
    ensures apply { ⟦<Told<T> as Operator<T, NoCalls>>⟧.apply result ≡ arcs_in_loop ⟦<NodeNo as Ord>⟧.cmp ⟦<Arc as Ord>⟧.cmp program.now }
{
    let degrees: Reduce<Degrees, T, NoCalls> = Reduce::new(
        alloc,
        Degrees::new(names_outdeg(&program.send)),
    );
    let arcs: Map<ArcInLoop, (NodeNo, (Arc, u64)), InLoop, T, NoCalls> = Map::new(alloc, ArcInLoop);
    MappedReduce::new(degrees, arcs)
}

/// What comes into the loop, from one function of what begins and one of the arcs by their tails. It takes no memory;
/// its steps use `alloc`.
fn prep_of<T: Time, I: Record, B: Expand<I, InLoop>, E: Expand<I, (NodeNo, Arc)>>(
    alloc: Global,
    program: &Program,
    begins: B,
    tails: E,
) -> Prep<B, E, I, T>
    ensures fresh { let it = ⟦<Prep<B, E, I, T> as Operator<T, NoCalls>>⟧ in IsFresh it.stands it.due it.seal it.spent T.least result }
    ensures apply { ⟦<Prep<B, E, I, T> as Operator<T, NoCalls>>⟧.apply result ≡ (λ fed. expanded (B.gives begins) fed ++ arcs_in_loop ⟦<NodeNo as Ord>⟧.cmp ⟦<Arc as Ord>⟧.cmp program.now (expanded (E.gives tails) fed)) }
{
    let told: Told<T> = told_of(alloc, program);
    Bypass::new::<T, NoCalls>(alloc, begins, tails, told)
}

/// From nodes and arcs.
pub type FlowPrep<'g, T> = Prep<NodeBegins<'g>, FlowTails<'g>, FlowInput, T>;

/// From starts and arcs.
pub type StartPrep<'g, T> = Prep<StartBegins<'g>, StartTails<'g>, StartInput, T>;

/// What comes into the loop of a program over a graph, against which it was checked, from nodes and arcs. It takes no
/// memory; its steps use `alloc`.
pub(crate) fn flow_prep<'g, T: Time>(
    alloc: Global,
    graph: &'g Graph,
    program: &'g Program,
) -> FlowPrep<'g, T>
    requires { IsChecked program.now graph.now }
    ensures fresh { let it = ⟦<FlowPrep<'g, T> as Operator<T, NoCalls>>⟧ in IsFresh it.stands it.due it.seal it.spent T.least result }
    ensures apply { ⟦<FlowPrep<'g, T> as Operator<T, NoCalls>>⟧.apply result ≡ prepared ⟦<NodeNo as Ord>⟧.cmp ⟦<Arc as Ord>⟧.cmp program.now graph.now }
{
    prep_of(
        alloc,
        program,
        NodeBegins::new(graph, program),
        FlowTails::new(graph),
    )
}

/// What comes into the loop of a program over a graph from starts and arcs. It takes no memory; its steps use `alloc`.
pub(crate) fn start_prep<'g, T: Time>(
    alloc: Global,
    graph: &'g Graph,
    program: &'g Program,
) -> StartPrep<'g, T>
    ensures fresh { let it = ⟦<StartPrep<'g, T> as Operator<T, NoCalls>>⟧ in IsFresh it.stands it.due it.seal it.spent T.least result }
    ensures apply { ⟦<StartPrep<'g, T> as Operator<T, NoCalls>>⟧.apply result ≡ prepared_starts ⟦<NodeNo as Ord>⟧.cmp ⟦<Arc as Ord>⟧.cmp program.now graph.now }
{
    prep_of(
        alloc,
        program,
        StartBegins::new(graph),
        StartTails::new(graph),
    )
}
