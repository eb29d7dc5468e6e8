//! Graphs, views and edits that are drawn.

ghost use Rattle.std.specs.Prelude.{◌≡◌, ◌<◌};
ghost use Rattle.version_rows.specs.Courses.{IsScene};

use crate::tests::counting::Counting;
use crate::tests::course::is_right;
use crate::tests::programs::{Choice, program};
use crate::tests::slow::Scene;
use crate::tests::views::{NODES, drawn_edges, four_rules};
use draws::Draws;
use graph_loader::load;
use graph_model::Graph;
use std::alloc::Global;
use std::marker::Brand;
use std::sync::ledger::{Blank, Ledger};
use std::test::Fail;
use surge_outside::NoMemory;
use vertex_lang::{Along, Gather};

/// Whether an engine over drawn views of what is run is right.
fn is_right_in<L: Ledger>(
    alloc: Global,
    scene: Scene<'_>,
    draws: &mut Draws,
    blank: Blank,
) -> Result<bool, NoMemory>
    requires scene { IsScene scene.program.now scene.graph.now scene.rounds }
    requires name { blank.name ≡ L.name }
    requires parts { blank.parts ≡ L.parts }
    requires held { 0 < L.parts }
{
    let rules = four_rules(alloc)?;
    let mut updater = Counting::<L>::new(blank);
    is_right(alloc, scene, &rules, draws, &mut updater)
}

/// The same of a program over a graph, for a drawn number of rounds.
fn is_right_over(
    alloc: Global,
    graph: &Graph,
    choice: Choice,
    draws: &mut Draws,
) -> Result<bool, NoMemory> {
    let program = program(alloc, choice)?;
    let scene = Scene {
        program: &program,
        graph,
        rounds: draws.draw(4) + 1,
        settles: draws.draw(3) > 0,
    };
    is_right_in::<Brand>(alloc, scene, draws, Blank::new(1))
}

/// The same over a graph that is drawn from a seed.
fn is_right_from(alloc: Global, choice: Choice, seed: u64) -> Result<bool, Fail> {
    let mut draws = Draws::new(seed);
    let edges = drawn_edges(alloc, &mut draws)?;
    let graph = load(alloc, NODES, edges.as_slice())?;
    let right = is_right_over(alloc, &graph, choice, &mut draws)?;
    Ok(right)
}

/// Whether engines are right with values and with degrees along this direction, gathered in each way.
fn are_right_along(alloc: Global, along: Along) -> Result<bool, Fail> {
    let gathers = [Gather::Min, Gather::Max, Gather::Sum, Gather::Count];
    let mut seed: u64 = 0;
    for gather in gathers {
        seed = seed.wrapping_add(1);
        if !is_right_from(alloc, Choice::Values(along, gather), seed)? {
            return Ok(false);
        }
        if !is_right_from(alloc, Choice::Degrees(along, gather), seed.wrapping_add(10))? {
            return Ok(false);
        }
    }
    Ok(true)
}

#[test]
fn edits_with_arcs_out(rt: HostRuntime) -> Result<(), Fail> {
    assert!(rt; are_right_along(rt.alloc(), Along::Out)?);
    Ok(())
}

#[test]
fn edits_with_arcs_in(rt: HostRuntime) -> Result<(), Fail> {
    assert!(rt; are_right_along(rt.alloc(), Along::In)?);
    Ok(())
}

#[test]
fn edits_with_arcs_both_ways(rt: HostRuntime) -> Result<(), Fail> {
    assert!(rt; are_right_along(rt.alloc(), Along::Both)?);
    Ok(())
}

#[test]
fn edits_of_built_in_programs(rt: HostRuntime) -> Result<(), Fail> {
    assert!(rt; is_right_from(rt.alloc(), Choice::Hops, 21)?);
    assert!(rt; is_right_from(rt.alloc(), Choice::Components, 22)?);
    assert!(rt; is_right_from(rt.alloc(), Choice::Ranks, 23)?);
    Ok(())
}
