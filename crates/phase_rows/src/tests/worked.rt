//! What dataflows in phases make of two nodes, worked out by hand.

ghost use Rattle.std.specs.Prelude.{◌≡◌, ◌≤◌, ◌<◌};
ghost use Rattle.phase_rows.specs.Fits.{IsFitting};

use crate::tests::cases::{Case, Placed, places};
use crate::tests::feeds::feeds;
use crate::tests::flows::{Made, made_by};
use crate::tests::programs::{Choice, program};
use crate::tests::rows::{ONE_AND_TWO, SIDE_BY_SIDE, TWO};
use crate::tests::runs::{graph_in, push_value};
use flow_rows::{Fed, Timed};
use graph_model::{Graph, NodeNo, Val};
use lattice_time::{Pair, Position, Version};
use phase_flow::PhaseItem;
use std::alloc::{AllocError, Global};
use std::marker::Brand;
use std::sync::ledger::{Blank, Ledger};
use std::test::Fail;
use surge_outside::{List, NoMemory, Steps};
use vertex_items::StartInput;
use vertex_lang::Updater;
use weighted::Weight;

// ---- what was made, as text

fn push_record(
    alloc: Global,
    text: &mut String,
    kind: &str,
    node: NodeNo,
    value: Val,
) -> Result<(), AllocError> {
    text.push_str(format!(in alloc; " {kind}{}", node.0)?.as_str())?;
    push_value(alloc, text, value)
}

fn push_item(alloc: Global, text: &mut String, item: PhaseItem) -> Result<(), AllocError> {
    match item {
        PhaseItem::Value(node, value) => push_record(alloc, text, "v", node, value),
        PhaseItem::Late(node, value) => push_record(alloc, text, "l", node, value),
    }
}

fn push_weight(alloc: Global, text: &mut String, weight: Weight) -> Result<(), AllocError> {
    let less = weight.negate();
    if less.0 < weight.0 {
        text.push_str(format!(in alloc; " -{}, ", less.0)?.as_str())
    } else {
        text.push_str(format!(in alloc; " +{}, ", weight.0)?.as_str())
    }
}

// A phase, a value of a node at its end (v) or one that its last round gave (l), and the weight.
fn push_made<T: Placed>(
    alloc: Global,
    text: &mut String,
    made: &Timed<T, Made>,
) -> Result<(), AllocError> {
    let (_, ((phase, item), weight)) = *made;
    text.push_str(format!(in alloc; "{}", phase.0)?.as_str())?;
    push_item(alloc, text, item)?;
    push_weight(alloc, text, weight)
}

// ---- dataflows

// All that was made.
fn text_of<T: Placed>(alloc: Global, made: &[Timed<T, Made>]) -> Result<String, NoMemory> {
    let mut text = String::new(alloc);
    for entry in made {
        push_made(alloc, &mut text, entry)?;
    }
    Ok(text)
}

// What a new dataflow makes of the views of the first version, one behind the other, sealed behind each.
fn text_by<T: Placed, U: Updater>(
    alloc: Global,
    case: Case<'_>,
    updater: &mut U,
) -> Result<String, NoMemory>
    requires { IsFitting case.program.now case.graph.now case.rounds case.phases }
{
    let places = places(alloc, 1, case.views)?;
    let fed: List<Fed<T, StartInput>> = feeds(alloc, case, places.as_slice())?;
    let Some(made) = made_by::<T, U>(alloc, case, fed, true, updater)? else {
        return Ok(String::new(alloc));
    };
    text_of(alloc, made.as_slice())
}

// What each node adds to its start in two phases of so many rounds, over both edges, in this ledger.
fn grown<T: Placed, L: Ledger>(
    alloc: Global,
    graph: &Graph,
    rounds: u32,
    blank: Blank,
) -> Result<String, NoMemory>
    requires least { 1 ≤ rounds }
    requires limit { rounds ≤ 1_000_000 }
    requires name { blank.name ≡ L.name }
    requires parts { blank.parts ≡ L.parts }
    requires some { 0 < L.parts }
{
    let Some(program) = program(alloc, graph, Choice::Grow)? else {
        return Ok(String::new(alloc));
    };
    let case = Case {
        graph,
        program: &program,
        views: ONE_AND_TWO,
        rounds,
        phases: 2,
        seed: 0,
    };
    let mut steps = Steps::<L>::new(blank);
    text_by::<T, Steps<L>>(alloc, case, &mut steps)
}

// Whether that is this text.
fn makes<T: Placed>(alloc: Global, rounds: u32, want: &str) -> Result<bool, Fail>
    requires least { 1 ≤ rounds }
    requires limit { rounds ≤ 1_000_000 }
{
    let graph = graph_in(alloc, TWO, SIDE_BY_SIDE)?;
    let text = grown::<T, Brand>(alloc, &graph, rounds, Blank::new(1))?;
    Ok(text.as_str() == want)
}

// The last round of each phase changes nothing. Over the first edge the second node comes to 2 and 3, over both to 3 and 5.
const QUIET: &str = "0 v0 1 +1, 0 v1 1 +1, 1 v1 1 -1, 1 v1 2 +1, 2 v1 2 -1, 2 v1 3 +1, \
    1 v1 2 -1, 1 v1 3 +1, 2 v1 2 +1, 2 v1 3 -2, 2 v1 5 +1, ";

// The one round of a phase gives the second node another value.
const LATE: &str = "0 v0 1 +1, 0 v1 1 +1, \
    1 v1 1 -1, 1 v1 2 +1, 1 l1 1 -1, 1 l1 2 +1, 2 v1 2 -1, 2 v1 3 +1, 2 l1 1 +1, 2 l1 2 -2, 2 l1 3 +1, \
    1 v1 2 -1, 1 v1 3 +1, 1 l1 2 -1, 1 l1 3 +1, 2 v1 2 +1, 2 v1 3 -2, 2 v1 5 +1, 2 l1 2 +2, 2 l1 3 -3, 2 l1 5 +1, ";

#[test]
fn phases_of_two_rounds(rt: HostRuntime) -> Result<(), Fail> {
    assert!(rt; makes::<Position>(rt.alloc(), 2, QUIET)?);
    assert!(rt; makes::<Pair<Version, Position>>(rt.alloc(), 2, QUIET)?);
    Ok(())
}

#[test]
fn phases_of_one_round(rt: HostRuntime) -> Result<(), Fail> {
    assert!(rt; makes::<Position>(rt.alloc(), 1, LATE)?);
    assert!(rt; makes::<Pair<Version, Position>>(rt.alloc(), 1, LATE)?);
    Ok(())
}
