//! Hop counts and distances from the node 1, and components.

ghost use Rattle.std.specs.Prelude.{◌≡◌, ◌<◌, ◌≤◌, ◌^◌, length, All, IsTrue};
ghost use Rattle.vertex_lang.specs.Leaves.{is_int, is_int_column};
ghost use Rattle.vertex_lang.specs.Lone.{number_of};

use super::views::edges_at;
use graph_loader::load;
use graph_meanings::{dist_run, has_weights, hop_run, wcc_run};
use graph_model::{EdgeNo, Graph, Kind, Val};
use std::alloc::Global;
use std::marker::Brand;
use std::sync::ledger::{Blank, Ledger};
use std::test::Fail;
use surge_outside::{NoMemory, Steps};
use vertex_lang::{Along, Lone, Outcome, Rounds, arcs_of};

/// What is run.
#[derive(Clone, Copy)]
enum Run {
    Hops,
    Distances,
    Components,
}

/// The files of a graph, the bits of the edges that are run over, and how many rounds at most.
#[derive(Clone, Copy)]
struct Place {
    nodes: &'static [u8],
    edges: &'static [u8],
    bits: u32,
    limit: u32,
}

fn is_of_numbers(kind: Kind) -> bool
    ensures { result ≡ is_int kind }
{
    match kind {
        Kind::Int => true,
        Kind::Str => false,
        Kind::Bool => false,
    }
}

// Whether the first column of the edges is one of numbers.
fn begins_with_numbers(graph: &Graph) -> bool
    ensures { IsTrue result → IsTrue (is_int_column graph.now.edge_columns 0) }
{
    match graph.edge_columns().as_slice() {
        [column, ..] => is_of_numbers(column.kind),
        [] => false,
    }
}

fn hops<L: Ledger>(
    alloc: Global,
    graph: &Graph,
    edges: &[EdgeNo],
    rounds: Rounds,
    steps: &mut Steps<L>,
) -> Result<Option<Lone>, NoMemory>
    requires edges { All (λ e. e.0 < length graph.now.ends) edges.now }
    requires few { length edges.now < 2 ^ 31 }
    requires some { 1 ≤ number_of rounds }
    requires limit { number_of rounds ≤ 1_000_000 }
{
    let arcs = arcs_of(alloc, graph, Along::Out, edges)?;
    Ok(Some(hop_run(alloc, graph, arcs.as_slice(), 1, rounds, steps)?))
}

// Distances by the first column, where it has weights.
fn distances<L: Ledger>(
    alloc: Global,
    graph: &Graph,
    edges: &[EdgeNo],
    rounds: Rounds,
    steps: &mut Steps<L>,
) -> Result<Option<Lone>, NoMemory>
    requires edges { All (λ e. e.0 < length graph.now.ends) edges.now }
    requires few { length edges.now < 2 ^ 31 }
    requires some { 1 ≤ number_of rounds }
    requires limit { number_of rounds ≤ 1_000_000 }
{
    let arcs = arcs_of(alloc, graph, Along::Out, edges)?;
    let arcs = arcs.as_slice();
    if !begins_with_numbers(graph) {
        return Ok(None);
    }
    if !has_weights(graph, 0, arcs) {
        return Ok(None);
    }
    Ok(Some(dist_run(alloc, graph, arcs, 1, 0, rounds, steps)?))
}

fn components<L: Ledger>(
    alloc: Global,
    graph: &Graph,
    edges: &[EdgeNo],
    rounds: Rounds,
    steps: &mut Steps<L>,
) -> Result<Option<Lone>, NoMemory>
    requires edges { All (λ e. e.0 < length graph.now.ends) edges.now }
    requires few { length edges.now < 2 ^ 31 }
    requires some { 1 ≤ number_of rounds }
    requires limit { number_of rounds ≤ 1_000_000 }
{
    let arcs = arcs_of(alloc, graph, Along::Both, edges)?;
    Ok(Some(wcc_run(alloc, graph, arcs.as_slice(), rounds, steps)?))
}

// A run over these edges, which counts in this ledger.
fn run_in<L: Ledger>(
    alloc: Global,
    graph: &Graph,
    edges: &[EdgeNo],
    run: Run,
    rounds: Rounds,
    blank: Blank,
) -> Result<Option<Lone>, NoMemory>
    requires edges { All (λ e. e.0 < length graph.now.ends) edges.now }
    requires few { length edges.now < 2 ^ 31 }
    requires at_least { 1 ≤ number_of rounds }
    requires limit { number_of rounds ≤ 1_000_000 }
    requires name { blank.name ≡ L.name }
    requires parts { blank.parts ≡ L.parts }
    requires some { 0 < L.parts }
{
    let mut steps = Steps::<L>::new(blank);
    match run {
        Run::Hops => hops(alloc, graph, edges, rounds, &mut steps),
        Run::Distances => distances(alloc, graph, edges, rounds, &mut steps),
        Run::Components => components(alloc, graph, edges, rounds, &mut steps),
    }
}

// A run over the edges of a graph; None where the edges have no weights for distances.
fn answer(alloc: Global, run: Run, place: Place) -> Result<Option<Lone>, Fail> {
    let graph = load(alloc, place.nodes, place.edges)?;
    let edges = edges_at(alloc, &graph, place.bits)?;
    let limit = place.limit.clamp(1, 100);
    let rounds = Rounds::Within(limit);
    let answer = run_in::<Brand>(alloc, &graph, &edges, run, rounds, Blank::new(1))?;
    Ok(answer)
}

// Whether these are the values: a digit for each node, and `-` for none.
fn are_digits(values: &[Val], digits: &[u8]) -> bool {
    if values.len() != digits.len() {
        return false;
    }
    for i in 0..values.len() {
        let digit = match values[i] {
            Val::Num(number) => number == (digits[i] as i64) - 48,
            Val::Nil => digits[i] == 45,
        };
        if !digit {
            return false;
        }
    }
    true
}

// Whether a run settles after this number of rounds with these values.
fn settles(alloc: Global, run: Run, place: Place, round: u32, digits: &[u8]) -> Result<bool, Fail> {
    match answer(alloc, run, place)? {
        Some(lone) => {
            let settled = lone.outcome == Outcome::Settled(round);
            Ok(settled && are_digits(lone.values.as_slice(), digits))
        }
        None => Ok(false),
    }
}

// Whether a run doesn't settle.
fn is_unsettled(alloc: Global, run: Run, place: Place) -> Result<bool, Fail> {
    match answer(alloc, run, place)? {
        Some(lone) => Ok(lone.outcome == Outcome::Unsettled),
        None => Ok(false),
    }
}

// Whether the edges have no weights.
fn have_no_weights(alloc: Global, place: Place) -> Result<bool, Fail> {
    Ok(answer(alloc, Run::Distances, place)?.is_none())
}

const WALKS: Place = Place {
    nodes: b"id\n1\n2\n3\n4\n",
    edges: b"src,dst,y:int\n1,2,1\n2,3,1\n1,3,2\n3,4,3\n",
    bits: 0b111,
    limit: 10,
};

#[test]
fn walks_of_one_and_of_two_arcs(rt: HostRuntime) -> Result<(), Fail> {
    assert!(rt; settles(rt.alloc(), Run::Hops, WALKS, 1, b"011-")?);
    assert!(rt; settles(rt.alloc(), Run::Distances, WALKS, 1, b"012-")?);
    assert!(rt; settles(rt.alloc(), Run::Components, WALKS, 1, b"1114")?);
    Ok(())
}

const NOTHING: Place = Place {
    nodes: b"id\n",
    edges: b"src,dst\n",
    bits: 1,
    limit: 1,
};

#[test]
fn no_nodes(rt: HostRuntime) -> Result<(), Fail> {
    assert!(rt; settles(rt.alloc(), Run::Hops, NOTHING, 0, b"")?);
    assert!(rt; have_no_weights(rt.alloc(), NOTHING)?);
    assert!(rt; settles(rt.alloc(), Run::Components, NOTHING, 0, b"")?);
    Ok(())
}

const LIGHTEST: Place = Place {
    nodes: b"id\n7\n1\n5\n9\n",
    edges: b"src,dst,y:int\n1,7,5\n1,7,6\n1,5,1\n5,7,1\n7,7,0\n",
    bits: 0b11111,
    limit: 4,
};

#[test]
fn the_lightest_walk_has_more_arcs(rt: HostRuntime) -> Result<(), Fail> {
    assert!(rt; settles(rt.alloc(), Run::Hops, LIGHTEST, 1, b"101-")?);
    assert!(rt; settles(rt.alloc(), Run::Distances, LIGHTEST, 2, b"201-")?);
    assert!(rt; settles(rt.alloc(), Run::Components, LIGHTEST, 1, b"1119")?);
    Ok(())
}

const CHAIN: Place = Place {
    nodes: b"id\n1\n2\n3\n4\n",
    edges: b"src,dst,y:int\n1,2,1\n2,3,\n3,4,1\n",
    bits: 0b111,
    limit: 4,
};

#[test]
fn as_many_rounds_as_nodes(rt: HostRuntime) -> Result<(), Fail> {
    assert!(rt; settles(rt.alloc(), Run::Hops, CHAIN, 3, b"0123")?);
    assert!(rt; have_no_weights(rt.alloc(), CHAIN)?);
    let fewer = Place { limit: 3, ..CHAIN };
    assert!(rt; is_unsettled(rt.alloc(), Run::Hops, fewer)?);
    Ok(())
}
