//! Dataflows in phases on drawn edges, at positions and at pairs of a version and a position.

ghost use Rattle.std.specs.Prelude.{◌≡◌, ◌<◌};

use crate::tests::cases::{Case, Placed};
use crate::tests::programs::{Choice, program};
use crate::tests::runs::{Rule, graph_in};
use crate::tests::told::is_right;
use edge_predicates::Cmp;
use flow_rows::Draws;
use graph_model::Graph;
use lattice_time::{Pair, Position, Version};
use std::alloc::{AllocError, Global};
use std::marker::Brand;
use std::sync::ledger::{Blank, Ledger};
use std::test::Fail;
use surge_outside::{NoMemory, Steps};

const NODES: &[u8] = b"id\n1\n4\n7\n10\n13\n";

const VIEWS: &[Rule] = &[
    (Cmp::Lt, 2),
    (Cmp::Ge, 1),
    (Cmp::Ge, 0),
    (Cmp::Ge, 0),
    (Cmp::Eq, 3),
];

// One of the ids.
fn drawn_id(draws: &mut Draws) -> &'static str {
    match draws.draw(5) {
        0 => "1",
        1 => "4",
        2 => "7",
        3 => "10",
        _ => "13",
    }
}

// A file of up to nine edges, each with a number below 4.
fn drawn_edges(alloc: Global, draws: &mut Draws) -> Result<String, AllocError> {
    let mut text = String::new(alloc);
    text.push_str("src,dst,k:int\n")?;
    for _ in 0..draws.draw(10) {
        text.push_str(drawn_id(draws))?;
        text.push_str(",")?;
        text.push_str(drawn_id(draws))?;
        text.push_str(format!(in alloc; ",{}\n", draws.draw(4))?.as_str())?;
    }
    Ok(text)
}

fn drawn_choice(draws: &mut Draws) -> Choice {
    match draws.draw(6) {
        0 => Choice::Grow,
        1 => Choice::GrowAtFirst,
        2 => Choice::Hops,
        3 => Choice::Distances,
        4 => Choice::Components,
        _ => Choice::Ranks,
    }
}

// Whether a dataflow of what is drawn over a graph agrees with runs in phases, in this ledger.
fn over<T: Placed, L: Ledger>(
    alloc: Global,
    graph: &Graph,
    choice: Choice,
    draws: &mut Draws,
    blank: Blank,
) -> Result<bool, NoMemory>
    requires name { blank.name ≡ L.name }
    requires parts { blank.parts ≡ L.parts }
    requires some { 0 < L.parts }
{
    let Some(program) = program(alloc, graph, choice)? else {
        return Ok(false);
    };
    let case = Case {
        graph,
        program: &program,
        views: VIEWS,
        rounds: draws.draw(4) + 1,
        phases: draws.draw(3) + 1,
        seed: draws.state,
    };
    let mut steps = Steps::<L>::new(blank);
    is_right::<T, Steps<L>>(alloc, case, &mut steps)
}

// Whether dataflows in phases at such times agree with runs in phases on what is drawn from a number.
fn agree<T: Placed>(alloc: Global, seed: u64) -> Result<bool, Fail> {
    let mut draws = Draws { state: seed };
    let edges = drawn_edges(alloc, &mut draws)?;
    let graph = graph_in(alloc, NODES, edges.as_bytes())?;
    let choice = drawn_choice(&mut draws);
    let right = over::<T, Brand>(alloc, &graph, choice, &mut draws, Blank::new(1))?;
    Ok(right)
}

#[test]
fn drawn_programs_at_positions(rt: HostRuntime) -> Result<(), Fail> {
    for seed in 0..40 {
        assert!(rt; agree::<Position>(rt.alloc(), seed)?, "{seed}");
    }
    Ok(())
}

#[test]
fn drawn_programs_at_pairs(rt: HostRuntime) -> Result<(), Fail> {
    for seed in 100..112 {
        assert!(rt;
            agree::<Pair<Version, Position>>(rt.alloc(), seed)?,
            "{seed}"
        );
    }
    Ok(())
}
