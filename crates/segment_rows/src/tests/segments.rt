//! Segments of hop counts, stepped to their end, as text.

ghost use Rattle.std.specs.Prelude.{◌≡◌, ◌<◌, ◌≤◌, [], length, All, IfOk, None};
ghost use Rattle.vertex_lang.specs.Lone.{number_of};
ghost use Rattle.round_kernel.specs.Plans.{MayRun};
ghost use Rattle.arc_rows.specs.RowLists.{AreOfAll};
ghost use Rattle.view_matrix.specs.Matrices.{IsView};
ghost use Rattle.view_segment.specs.Segments.{SegmentStands};
ghost use Rattle.view_segment.specs.Tasks.{task_over};

use change_lists::Change;
use edge_predicates::ViewRule;
use graph_algos::hops;
use graph_loader::load;
use graph_model::{Graph, Val, ViewNo};
use round_kernel::{Kernel, Plan};
use std::alloc::{AllocError, Global};
use std::marker::Brand;
use std::sync::ledger::{Blank, Ledger};
use std::test::Fail;
use surge_outside::{List, NoMemory, Steps};
use vertex_lang::{Outcome, Rounds, Updater};
use view_matrix::Matrix;
use view_segment::{Given, Segment};

// The graph in these files. Nothing is said of it, so that no proof reads its files.
fn graph_in(alloc: Global, nodes: &[u8], edges: &[u8]) -> Result<Graph, Fail> {
    let graph = load(alloc, nodes, edges)?;
    Ok(graph)
}

fn all_live(alloc: Global, graph: &Graph) -> Result<List<bool>, NoMemory>
    ensures { IfOk result (λ live. length live ≡ length graph.now.ends) }
{
    let live = vec![in alloc; true; graph.edge_count() as usize]?;
    Ok(List::from_vec(live))
}

// A segment of all views of a matrix, in declared order.
fn whole(alloc: Global, matrix: &Matrix) -> Result<Segment, NoMemory>
    ensures views { IfOk result (λ segment. All (IsView matrix.now) segment.views) }
    ensures works { IfOk result (λ segment. segment.works ≡ []) }
    ensures history { IfOk result (λ segment. segment.history ≡ None) }
    ensures flags { IfOk result (λ segment. segment.flags ≡ None) }
{
    let mut segment = Segment::new(alloc);
    for view in 0..matrix.views() {
        segment.add(ViewNo(view))?;
    }
    Ok(segment)
}

// ---- as text

fn outcome_text(alloc: Global, outcome: Outcome) -> Result<String, AllocError> {
    match outcome {
        Outcome::Settled(round) => format!(in alloc; "settled {round}"),
        Outcome::After(round) => format!(in alloc; "after {round}"),
        Outcome::Phases(phase) => format!(in alloc; "phases {phase}"),
        Outcome::Unsettled => format!(in alloc; "unsettled"),
    }
}

fn change_text(alloc: Global, change: Change) -> Result<String, AllocError> {
    match change.value {
        Val::Nil => format!(in alloc; " {}:-", change.node.0),
        Val::Num(number) => format!(in alloc; " {}:{number}", change.node.0),
    }
}

// The number of the view and of the one before it, the outcome, and the nodes whose value differs, each with its value.
fn given_text(alloc: Global, given: &Given) -> Result<String, AllocError> {
    let mut text = match given.before {
        None => format!(in alloc; "{}: ", given.view.0)?,
        Some(before) => format!(in alloc; "{} behind {}: ", given.view.0, before.0)?,
    };
    text.push_str(outcome_text(alloc, given.outcome)?.as_str())?;
    for change in given.change.as_slice() {
        text.push_str(change_text(alloc, *change)?.as_str())?;
    }
    text.push_str("\n")?;
    Ok(text)
}

// Steps each view of a segment that was not stepped yet.
fn step_all<U: Updater>(
    alloc: Global,
    plan: Plan<'_>,
    matrix: &Matrix,
    kernel: &mut Kernel,
    segment: &mut Segment,
    updater: &mut U,
) -> Result<String, NoMemory>
    requires plan { MayRun plan kernel.old }
    requires along { AreOfAll plan.program.now.along plan.graph.now kernel.old.rows }
    requires matrix { length matrix.now.live ≡ length plan.graph.now.ends }
    requires views { All (IsView matrix.now) segment.old.views }
    requires stands { SegmentStands (task_over U.answer plan.program.now plan.graph.now plan.rounds matrix.now) segment.old }
{
    let mut text = String::new(alloc);
    while segment.works().len() < segment.views().len() {
        let given = segment.step(alloc, plan, matrix, kernel, false, updater)?;
        text.push_str(given_text(alloc, &given)?.as_str())?;
    }
    Ok(text)
}

fn works_text(alloc: Global, segment: &Segment) -> Result<String, AllocError> {
    let mut text = String::new(alloc);
    text.push_str("works")?;
    for work in segment.works() {
        text.push_str(format!(in alloc; " {work}")?.as_str())?;
    }
    Ok(text)
}

fn hops_in<L: Ledger>(
    alloc: Global,
    graph: &Graph,
    rules: &[ViewRule],
    rounds: Rounds,
    blank: Blank,
) -> Result<String, NoMemory>
    requires few { length rules.now ≤ 1_024 }
    requires at_least { 1 ≤ number_of rounds }
    requires limit { number_of rounds ≤ 1_000_000 }
    requires name { blank.name ≡ L.name }
    requires parts { blank.parts ≡ L.parts }
    requires some { 0 < L.parts }
{
    let mut steps = Steps::<L>::new(blank);
    let program = hops(alloc, 1)?;
    let live = all_live(alloc, graph)?;
    let matrix = Matrix::build(alloc, graph, &live, rules)?;
    let mut kernel = Kernel::new(alloc, graph, program.along)?;
    let mut segment = whole(alloc, &matrix)?;
    let plan = Plan {
        program: &program,
        graph,
        rounds,
    };
    let mut text = step_all(alloc, plan, &matrix, &mut kernel, &mut segment, &mut steps)?;
    text.push_str(works_text(alloc, &segment)?.as_str())?;
    Ok(text)
}

/// The steps of hop counts from the node 1 over the graph in these files, on the views of these rules, and their works.
pub(crate) fn hop_steps(
    alloc: Global,
    nodes: &[u8],
    edges: &[u8],
    rules: &[ViewRule],
    rounds: Rounds,
) -> Result<String, Fail>
    requires few { length rules.now ≤ 1_024 }
    requires some { 1 ≤ number_of rounds }
    requires limit { number_of rounds ≤ 1_000_000 }
{
    let graph = graph_in(alloc, nodes, edges)?;
    let text = hops_in::<Brand>(alloc, &graph, rules, rounds, Blank::new(1))?;
    Ok(text)
}
