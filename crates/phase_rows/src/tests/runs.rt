//! Runs in phases on views of a graph, as text.

ghost use Rattle.std.specs.Prelude.{◌≡◌, ◌≤◌, ◌<◌, length, All, IfOk};
ghost use Rattle.graph_model.specs.GraphData.{AreDistinct};
ghost use Rattle.vertex_lang.specs.Leaves.{IsChecked};
ghost use Rattle.view_matrix.specs.Matrices.{IsView};

use crate::tests::programs::{Choice, program};
use edge_predicates::{Cmp, Place, Pred, ViewRule};
use graph_loader::load;
use graph_model::{Graph, Val};
use phase_runs::phased;
use result_tables::{Results, Table};
use std::alloc::{AllocError, Global};
use std::marker::Brand;
use std::sync::ledger::{Blank, Ledger};
use std::test::Fail;
use surge_outside::{Counted, List, NoMemory, Steps};
use vertex_lang::{Program, Updater, eval};
use view_matrix::Matrix;
use view_order::views_from;

/// Computes updates, and tells how many they were.
#[derive(Drop)]
pub(crate) struct Teller<L: Ledger> {
    pub(crate) steps: Steps<L>,
    pub(crate) calls: u64,
}

impl<L: Ledger> Counted for Teller<L> {
    ghost calls = { λ teller. teller.steps };
}

impl<L: Ledger> Updater for Teller<L> {
    ghost use Rattle.vertex_lang.specs.Expressions.{updated};
    ghost use Rattle.vertex_lang.specs.LowestGiven.{lowest_given};

    ghost answer = { updated };

    fn update(
        &mut self,
        program: &Program,
        id: u64,
        start: Val,
        value: Val,
        gathered: Val,
        count: u64,
    ) -> Val {
        self.calls = self.calls.saturating_add(1);
        eval(program, id, start, value, gathered, count, &mut self.steps)
    }

    ghost lowest_was_given = { lowest_given };
}

/// A program in so many phases of so many rounds.
#[derive(Clone, Copy)]
pub(crate) struct Course {
    pub(crate) choice: Choice,
    pub(crate) rounds: u32,
    pub(crate) phases: u32,
}

// ---- views

/// A view: the edges whose first property compares like this with a number.
pub(crate) type Rule = (Cmp, i64);

fn rule(alloc: Global, sign: Cmp, number: i64) -> Result<ViewRule, AllocError> {
    let pred = Pred::Compare(Place::Edge(0), sign, Place::Number(number));
    let rules = List::from_vec(vec![in alloc; pred]?);
    Ok(ViewRule { rules })
}

fn rules(alloc: Global, views: &[Rule]) -> Result<Vec<ViewRule>, AllocError> {
    let mut rules = Vec::new(alloc);
    for (sign, number) in views {
        rules.push(rule(alloc, *sign, *number)?)?;
    }
    Ok(rules)
}

fn all_live(alloc: Global, graph: &Graph) -> Result<List<bool>, NoMemory>
    ensures { IfOk result (λ live. length live ≡ length graph.now.ends) }
{
    let live = vec![in alloc; true; graph.edge_count() as usize]?;
    Ok(List::from_vec(live))
}

/// The matrix of these views, where these edges are live.
pub(crate) fn matrix_over(
    alloc: Global,
    graph: &Graph,
    live: &List<bool>,
    views: &[Rule],
) -> Result<Matrix, NoMemory>
    requires { length live.now ≡ length graph.now.ends }
    ensures { IfOk result (λ matrix. length matrix.live ≡ length graph.now.ends) }
{
    let rules = rules(alloc, views)?;
    if rules.len() > 1_024 {
        return Err(NoMemory);
    }
    Matrix::build(alloc, graph, live, rules.as_slice())
}

/// The graph in these files. Nothing is said of it, so that no proof reads its files.
pub(crate) fn graph_in(alloc: Global, nodes: &[u8], edges: &[u8]) -> Result<Graph, Fail> {
    let graph = load(alloc, nodes, edges)?;
    Ok(graph)
}

// ---- answers, as text

pub(crate) fn push_value(alloc: Global, text: &mut String, value: Val) -> Result<(), AllocError> {
    match value {
        Val::Nil => text.push_str(" -"),
        Val::Num(number) => text.push_str(format!(in alloc; " {number}")?.as_str()),
    }
}

fn push_table(alloc: Global, text: &mut String, table: &Table) -> Result<(), AllocError> {
    text.push_str(format!(in alloc; "{:?}", table.outcome)?.as_str())?;
    for value in table.values.as_slice() {
        push_value(alloc, text, *value)?;
    }
    text.push_str("; ")
}

// The answer on each view.
fn push_answers(
    alloc: Global,
    text: &mut String,
    matrix: &Matrix,
    results: &Results,
) -> Result<(), NoMemory> {
    for view in views_from(alloc, matrix, 0)?.as_slice() {
        if results.has(*view) {
            push_table(alloc, text, &results.table(*view)?)?;
        }
    }
    Ok(())
}

// ---- runs

// A run on the views of a matrix, in their order, which counts in this ledger: the answer on each of them, and how many updates
// were computed.
fn counted<L: Ledger>(
    alloc: Global,
    graph: &Graph,
    matrix: &Matrix,
    program: &Program,
    course: Course,
    blank: Blank,
) -> Result<String, NoMemory>
    requires checked { IsChecked program.now graph.now }
    requires matrix { length matrix.now.live ≡ length graph.now.ends }
    requires rounds { 1 ≤ course.rounds }
    requires limit { course.rounds ≤ 1_000_000 }
    requires phases { 1 ≤ course.phases }
    requires few { course.phases ≤ 1_000 }
    requires name { blank.name ≡ L.name }
    requires parts { blank.parts ≡ L.parts }
    requires some { 0 < L.parts }
{
    let mut teller = Teller {
        steps: Steps::<L>::new(blank),
        calls: 0,
    };
    let order = views_from(alloc, matrix, 0)?;
    let results = phased(
        alloc,
        graph,
        matrix,
        program,
        order.as_slice(),
        course.rounds,
        course.phases,
        &mut teller,
    )?;
    let mut text = String::new(alloc);
    push_answers(alloc, &mut text, matrix, &results)?;
    text.push_str(format!(in alloc; "{}", teller.calls)?.as_str())?;
    Ok(text)
}

// The same over a graph, where the program fits it.
fn over(
    alloc: Global,
    graph: &Graph,
    views: &[Rule],
    course: Course,
) -> Result<Option<String>, NoMemory>
    requires rounds { 1 ≤ course.rounds }
    requires limit { course.rounds ≤ 1_000_000 }
    requires phases { 1 ≤ course.phases }
    requires few { course.phases ≤ 1_000 }
{
    let live = all_live(alloc, graph)?;
    let matrix = matrix_over(alloc, graph, &live, views)?;
    let Some(program) = program(alloc, graph, course.choice)? else {
        return Ok(None);
    };
    let text = counted::<Brand>(alloc, graph, &matrix, &program, course, Blank::new(1))?;
    Ok(Some(text))
}

/// The same over the graph in these files.
pub(crate) fn run(
    alloc: Global,
    nodes: &[u8],
    edges: &[u8],
    views: &[Rule],
    course: Course,
) -> Result<Option<String>, Fail>
    requires rounds { 1 ≤ course.rounds }
    requires limit { course.rounds ≤ 1_000_000 }
    requires phases { 1 ≤ course.phases }
    requires few { course.phases ≤ 1_000 }
{
    let graph = graph_in(alloc, nodes, edges)?;
    Ok(over(alloc, &graph, views, course)?)
}
