//! The cases.

ghost use Rattle.std.specs.Prelude.{◌≡◌, ◌<◌, ◌≤◌};
ghost use Rattle.vertex_lang.specs.Leaves.{IsChecked};

use crate::tests::feeds::{Stand, at_places, at_positions};
use crate::tests::flows::{Told, are_plain, flow_through};
use crate::tests::followed::is_followed;
use crate::tests::kernel::{moves_made, step_through};
use crate::tests::plain::Made;
use crate::tests::programs::{Choice, program};
use crate::tests::starts::{is_own_start, started};
use crate::tests::works::works;
use flow_rows::sum_to;
use graph_loader::load;
use graph_model::Val::{self, Nil, Num};
use graph_model::{Graph, NodeNo};
use lattice_time::{Position, Round};
use std::alloc::Global;
use std::marker::Brand;
use std::sync::ledger::{Blank, Ledger};
use std::test::Fail;
use surge_outside::{NoMemory, Steps};
use vertex_lang::{Program, Updater};
use weighted::Weight;

/// How many rounds each program is run.
const ROUNDS: u32 = 4;

/// Five nodes.
pub(crate) const NODES: &[u8] = b"id\n1\n4\n7\n10\n13\n";

/// Edges between them.
const EDGES: &[u8] = b"src,dst\n1,4\n7,13\n13,7\n4,1\n10,10\n1,4\n7,10\n13,1\n4,7\n";

const VIEWS: [u32; 7] = [
    0b101101101,
    0b101101111,
    0,
    0b111111111,
    0b111111111,
    0b010010010,
    0b110010011,
];

/// What a dataflow is held against.
#[derive(Clone, Copy)]
pub(crate) enum Against<'v> {
    /// The plain runs of views, one behind the other, their counted works, and the kernel of rounds.
    Views(&'v [u32]),
    /// What is made of the view of the first edge, and how many nodes are evaluated.
    Made(&'v [(Made, Weight)], u64),
    /// The plain runs of the views of a grid of versions and positions.
    Grid,
    /// What an engine over versions has of views whose edges come and go, both drawn from this seed.
    Edits(u64),
    /// The plain run of a view, where the starts of plain runs are given.
    OwnStarts(u32),
    /// What is made of the view of the first edge, where these starts are given.
    Starts(&'v [Val], &'v [(Made, Weight)]),
}

/// Whether what was made of views one behind the other is as the kernel of rounds changes the values, and as many nodes
/// were evaluated as it counts.
fn is_stepped<U: Updater>(
    alloc: Global,
    program: &Program,
    graph: &Graph,
    rounds: u32,
    views: &[u32],
    told: &Told<Position>,
    updater: &mut U,
) -> Result<bool, NoMemory>
    requires checked { IsChecked program.now graph.now }
    requires some { 1 ≤ rounds }
    requires limit { rounds ≤ 1_000_000 }
{
    let Some(changes) = moves_made(alloc, &told.made, views.len(), rounds)? else {
        return Ok(false);
    };
    let stepped = step_through(alloc, program, graph, rounds, views, updater)?;
    Ok(stepped.work == told.evaluated && changes.as_slice() == stepped.changes.as_slice())
}

/// Whether what was made of views one behind the other is all that is known of them.
fn is_known<U: Updater>(
    alloc: Global,
    program: &Program,
    graph: &Graph,
    rounds: u32,
    views: &[u32],
    stands: &[Stand<Position>],
    told: &Told<Position>,
    updater: &mut U,
) -> Result<bool, NoMemory>
    requires checked { IsChecked program.now graph.now }
    requires some { 1 ≤ rounds }
    requires limit { rounds ≤ 1_000_000 }
{
    let plain = are_plain(alloc, program, graph, rounds, stands, &told.made, updater)?;
    let counted = works(alloc, program, graph, rounds, views, updater)? == told.evaluated;
    let stepped = is_stepped(alloc, program, graph, rounds, views, told, updater)?;
    Ok(plain && counted && stepped)
}

/// Whether a dataflow agrees with all that is known of views one behind the other.
fn is_right<U: Updater>(
    alloc: Global,
    program: &Program,
    graph: &Graph,
    rounds: u32,
    views: &[u32],
    updater: &mut U,
) -> Result<bool, NoMemory>
    requires checked { IsChecked program.now graph.now }
    requires some { 1 ≤ rounds }
    requires limit { rounds ≤ 1_000_000 }
{
    let stands = at_positions(alloc, views)?;
    let stands = stands.as_slice();
    let Some(told) = flow_through(alloc, program, graph, rounds, stands, true, updater)? else {
        return Ok(false);
    };
    is_known(alloc, program, graph, rounds, views, stands, &told, updater)
}

/// Whether a dataflow makes the values of the views of a grid.
fn is_right_on_a_grid<U: Updater>(
    alloc: Global,
    program: &Program,
    graph: &Graph,
    rounds: u32,
    updater: &mut U,
) -> Result<bool, NoMemory>
    requires checked { IsChecked program.now graph.now }
    requires some { 1 ≤ rounds }
    requires limit { rounds ≤ 1_000_000 }
{
    let stands = at_places(alloc)?;
    let stands = stands.as_slice();
    let Some(told) = flow_through(alloc, program, graph, rounds, stands, false, updater)? else {
        return Ok(false);
    };
    are_plain(alloc, program, graph, rounds, stands, &told.made, updater)
}

/// Whether a dataflow makes this of the view of the first edge, and evaluates so many nodes.
fn is_made<U: Updater>(
    alloc: Global,
    program: &Program,
    graph: &Graph,
    rounds: u32,
    want: &[(Made, Weight)],
    count: u64,
    updater: &mut U,
) -> Result<bool, NoMemory>
    requires checked { IsChecked program.now graph.now }
    requires some { 1 ≤ rounds }
    requires limit { rounds ≤ 1_000_000 }
{
    let first: [Stand<Position>; 1] = [(Position(1), 1)];
    let Some(told) = flow_through(alloc, program, graph, rounds, &first, false, updater)? else {
        return Ok(false);
    };
    let made = sum_to(alloc, &told.made, Position(1))?;
    Ok(made.as_slice() == want && told.evaluated == count)
}

/// Whether a dataflow makes this of starts and the view of the first edge.
fn is_made_from<U: Updater>(
    alloc: Global,
    program: &Program,
    graph: &Graph,
    rounds: u32,
    starts: &[Val],
    want: &[(Made, Weight)],
    updater: &mut U,
) -> Result<bool, NoMemory>
    requires checked { IsChecked program.now graph.now }
    requires some { 1 ≤ rounds }
    requires limit { rounds ≤ 1_000_000 }
{
    let Some(made) = started(alloc, program, graph, rounds, starts, 1, updater)? else {
        return Ok(false);
    };
    Ok(made.as_slice() == want)
}

/// Whether a dataflow agrees with what it is held against.
fn agrees_with<U: Updater>(
    alloc: Global,
    program: &Program,
    graph: &Graph,
    rounds: u32,
    against: Against<'_>,
    updater: &mut U,
) -> Result<bool, NoMemory>
    requires checked { IsChecked program.now graph.now }
    requires some { 1 ≤ rounds }
    requires limit { rounds ≤ 1_000_000 }
{
    match against {
        Against::Views(views) => is_right(alloc, program, graph, rounds, views, updater),
        Against::Made(want, count) => {
            is_made(alloc, program, graph, rounds, want, count, updater)
        }
        Against::Grid => is_right_on_a_grid(alloc, program, graph, rounds, updater),
        Against::Edits(seed) => is_followed(alloc, program, graph, rounds, seed, updater),
        Against::OwnStarts(bits) => is_own_start(alloc, program, graph, rounds, bits, updater),
        Against::Starts(starts, want) => {
            is_made_from(alloc, program, graph, rounds, starts, want, updater)
        }
    }
}

fn agrees_in<L: Ledger>(
    alloc: Global,
    program: &Program,
    graph: &Graph,
    rounds: u32,
    against: Against<'_>,
    blank: Blank,
) -> Result<bool, Fail>
    requires checked { IsChecked program.now graph.now }
    requires rounds { 1 ≤ rounds }
    requires limit { rounds ≤ 1_000_000 }
    requires name { blank.name ≡ L.name }
    requires parts { blank.parts ≡ L.parts }
    requires some { 0 < L.parts }
{
    let mut steps = Steps::<L>::new(blank);
    let agrees = agrees_with(alloc, program, graph, rounds, against, &mut steps)?;
    Ok(agrees)
}

/// Whether the dataflow of a program over a graph agrees with what it is held against.
fn agrees_over(
    alloc: Global,
    graph: &Graph,
    choice: Choice,
    rounds: u32,
    against: Against<'_>,
) -> Result<bool, Fail>
    requires some { 1 ≤ rounds }
    requires limit { rounds ≤ 1_000_000 }
{
    let program = program(alloc, choice)?;
    agrees_in::<Brand>(alloc, &program, graph, rounds, against, Blank::new(1))
}

/// The same over the graph of two files.
pub(crate) fn agrees(
    alloc: Global,
    nodes: &[u8],
    edges: &[u8],
    choice: Choice,
    rounds: u32,
    against: Against<'_>,
) -> Result<bool, Fail>
    requires some { 1 ≤ rounds }
    requires limit { rounds ≤ 1_000_000 }
{
    let graph = load(alloc, nodes, edges)?;
    agrees_over(alloc, &graph, choice, rounds, against)
}

/// Whether a dataflow agrees with all that is known of the views, and of each number of the first of them.
fn are_right(alloc: Global, choice: Choice) -> Result<bool, Fail> {
    for count in 0..VIEWS.len() + 1 {
        let views = Against::Views(&VIEWS[..count]);
        if !agrees(alloc, NODES, EDGES, choice, ROUNDS, views)? {
            return Ok(false);
        }
    }
    Ok(true)
}

#[test]
fn hops_over_views(rt: HostRuntime) -> Result<(), Fail> {
    assert!(rt; are_right(rt.alloc(), Choice::Hops)?);
    Ok(())
}

#[test]
fn components_over_views(rt: HostRuntime) -> Result<(), Fail> {
    assert!(rt; are_right(rt.alloc(), Choice::Components)?);
    Ok(())
}

#[test]
fn ranks_over_views(rt: HostRuntime) -> Result<(), Fail> {
    assert!(rt; are_right(rt.alloc(), Choice::Ranks)?);
    Ok(())
}

/// Whether a program's dataflow over the nodes and edges agrees with what it is held against.
fn agrees_on_all(alloc: Global, choice: Choice, against: Against<'_>) -> Result<bool, Fail> {
    agrees(alloc, NODES, EDGES, choice, ROUNDS, against)
}

#[test]
fn over_versions_and_positions(rt: HostRuntime) -> Result<(), Fail> {
    assert!(rt; agrees_on_all(rt.alloc(), Choice::Hops, Against::Grid)?);
    assert!(rt; agrees_on_all(rt.alloc(), Choice::Ranks, Against::Grid)?);
    Ok(())
}

#[test]
fn starts_of_plain_runs(rt: HostRuntime) -> Result<(), Fail> {
    let few = Against::OwnStarts(0b101101101);
    assert!(rt; agrees_on_all(rt.alloc(), Choice::Hops, few)?);
    let all = Against::OwnStarts(0b111111111);
    assert!(rt; agrees_on_all(rt.alloc(), Choice::Components, all)?);
    let some = Against::OwnStarts(0b110010011);
    assert!(rt; agrees_on_all(rt.alloc(), Choice::Ranks, some)?);
    Ok(())
}

/// What is made at a round of a node, with its weight.
fn made_at(round: u32, node: u32, value: Val, weight: Weight) -> (Made, Weight) {
    ((Round(round), (NodeNo(node), value)), weight)
}

/// What is made of two nodes in two rounds, where the first one keeps the number that it starts with, and the second one
/// starts with none and ends with another number.
fn along_one_arc(start: i64, end: i64) -> [(Made, Weight); 4] {
    [
        made_at(0, 0, Num(start), Weight(1)),
        made_at(0, 1, Nil, Weight(1)),
        made_at(1, 1, Nil, Weight(1).negate()),
        made_at(1, 1, Num(end), Weight(1)),
    ]
}

/// Whether hop counts from the first of two nodes, along the edge to the second, agree with what they are held against.
fn hops_agree(alloc: Global, against: Against<'_>) -> Result<bool, Fail> {
    agrees(
        alloc,
        b"id\n1\n2\n",
        b"src,dst\n1,2\n",
        Choice::Hops,
        2,
        against,
    )
}

/// The values that are made in two rounds, and how many nodes are evaluated.
#[test]
fn hops_along_one_arc(rt: HostRuntime) -> Result<(), Fail> {
    let want = along_one_arc(0, 1);
    assert!(rt; hops_agree(rt.alloc(), Against::Made(&want, 3))?);
    Ok(())
}

/// The starts are kept, and the second node gets one more than the first starts with.
#[test]
fn hops_from_five(rt: HostRuntime) -> Result<(), Fail> {
    let want = along_one_arc(5, 6);
    assert!(rt; hops_agree(rt.alloc(), Against::Starts(&[Num(5), Nil], &want))?);
    Ok(())
}
