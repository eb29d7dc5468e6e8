//! Matrices of small graphs, and orders of their views.

ghost use Rattle.std.specs.Prelude.{◌≡◌, ◌<◌, length};

use crate::tests::small_graphs::{FOUR_EDGES, FOUR_NODES, graph_of};
use crate::tests::views::{Part, distance, matrix_of_rows};
use edge_predicates::Cmp;
use graph_model::{EdgeNo, Graph, ViewNo};
use std::alloc::{AllocError, Global};
use std::fmt::Write;
use std::test::Fail;
use view_matrix::Matrix;
use view_order::{greedy, views_from};

// ---- what a matrix answers, as text

// How many edges stand in each view, and in how many it differs from the empty column and from the first view.
fn figures(alloc: Global, matrix: &Matrix) -> Result<String, AllocError> {
    let mut text = String::new(alloc);
    for view in 0..matrix.views() {
        let size = matrix.size(ViewNo(view));
        let start = distance(matrix, None, view);
        let first = distance(matrix, Some(0), view);
        write!(text, "{size} {start} {first};")?;
    }
    Ok(text)
}

// The edges of a view, and in which edges it differs from the first view.
fn lists(alloc: Global, matrix: &Matrix, view: u32) -> Result<String, Fail> {
    if view >= matrix.views() {
        return Err(Fail::new("there is no such view"));
    }
    let mut text = format!(in alloc; "{:?} ", matrix.edges(alloc, ViewNo(view))?.as_slice())?;
    let changes = matrix.differences(alloc, Some(ViewNo(0)), ViewNo(view))?;
    write!(text, "{:?};", changes.as_slice())?;
    Ok(text)
}

// The greedy order of all views from a view on, which may be none.
fn order(alloc: Global, matrix: &Matrix, before: Option<u32>) -> Result<String, Fail> {
    let views = views_from(alloc, matrix, 0)?;
    let order = match before {
        Some(view) if view < matrix.views() => {
            greedy(alloc, matrix, Some(ViewNo(view)), views.as_slice())?
        }
        _ => greedy(alloc, matrix, None, views.as_slice())?,
    };
    Ok(format!(in alloc; "{:?}", order.as_slice())?)
}

// The figures of all views, the lists of the first view and of the third, and the orders from the empty column and from the
// second view.
fn answers(alloc: Global, matrix: &Matrix) -> Result<String, Fail> {
    let mut text = figures(alloc, matrix)?;
    text.push_str(lists(alloc, matrix, 0)?.as_str())?;
    text.push_str(lists(alloc, matrix, 2)?.as_str())?;
    text.push_str(order(alloc, matrix, None)?.as_str())?;
    text.push_str(order(alloc, matrix, Some(1))?.as_str())?;
    Ok(text)
}

fn answers_over(
    alloc: Global,
    graph: &Graph,
    first: &[&[Part]],
    second: &[&[Part]],
) -> Result<String, Fail> {
    let matrix = matrix_of_rows(alloc, graph, first, second)?;
    answers(alloc, &matrix)
}

// What the matrix of the first rows over these edges answers, to which the second are added.
fn answered(
    alloc: Global,
    edges: &str,
    first: &[&[Part]],
    second: &[&[Part]],
) -> Result<String, Fail> {
    let graph = graph_of(alloc, FOUR_NODES, edges)?;
    answers_over(alloc, &graph, first, second)
}

// ---- four views

// All edges, those of 3, those of at least 2, and none.
const FOUR_VIEWS: [&[Part]; 4] = [
    &[Part::Always(true)],
    &[Part::Cell(0, Cmp::Eq, 3)],
    &[Part::Cell(0, Cmp::Ge, 2)],
    &[Part::Always(false)],
];

#[test]
fn four_views_of_four_edges(rt: HostRuntime) -> Result<(), Fail> {
    let found = answered(rt.alloc(), FOUR_EDGES, &FOUR_VIEWS, &[])?;
    assert_eq!(rt;
        found.as_str(),
        concat!(
            "4 4 0;1 1 3;2 2 2;0 0 4;",
            "[EdgeNo(0), EdgeNo(1), EdgeNo(2), EdgeNo(3)] [];",
            "[EdgeNo(2), EdgeNo(3)] [(EdgeNo(0), false), (EdgeNo(1), false)];",
            "[ViewNo(3), ViewNo(1), ViewNo(2), ViewNo(0)]",
            "[ViewNo(1), ViewNo(2), ViewNo(0), ViewNo(3)]",
        )
    );
    Ok(())
}

// Makes the last of four edges no longer live.
fn drop_last(matrix: &mut Matrix, graph: &Graph)
    requires { length matrix.old.live ≡ length graph.now.ends }
    ensures { length matrix.new.live ≡ length graph.now.ends }
{
    if graph.edge_count() == 4 {
        matrix.edit(&[(EdgeNo(3), false)]);
    }
}

// Of each edge whether it is live, whether it stands in the first view, and whether the rule of that holds of it.
fn bits(alloc: Global, matrix: &Matrix, graph: &Graph) -> Result<String, AllocError>
    requires { length matrix.now.live ≡ length graph.now.ends }
{
    let mut text = String::new(alloc);
    if matrix.views() == 0 {
        return Ok(text);
    }
    for number in 0..graph.edge_count() {
        let edge = EdgeNo(number);
        let live = matrix.live(edge);
        let bit = matrix.bit(edge, ViewNo(0));
        let holds = matrix.rule_bit(edge, ViewNo(0));
        write!(text, "{live} {bit} {holds};")?;
    }
    Ok(text)
}

fn bits_and_figures(alloc: Global, matrix: &Matrix, graph: &Graph) -> Result<String, Fail>
    requires { length matrix.now.live ≡ length graph.now.ends }
{
    let mut text = bits(alloc, matrix, graph)?;
    text.push_str(figures(alloc, matrix)?.as_str())?;
    Ok(text)
}

fn edited_over(alloc: Global, graph: &Graph) -> Result<String, Fail> {
    let mut matrix = matrix_of_rows(alloc, graph, &FOUR_VIEWS, &[])?;
    drop_last(&mut matrix, graph);
    bits_and_figures(alloc, &matrix, graph)
}

// What the four views answer behind an edit.
fn edited(alloc: Global) -> Result<String, Fail> {
    let graph = graph_of(alloc, FOUR_NODES, FOUR_EDGES)?;
    edited_over(alloc, &graph)
}

#[test]
fn an_edge_that_is_no_longer_live(rt: HostRuntime) -> Result<(), Fail> {
    let found = edited(rt.alloc())?;
    assert_eq!(rt;
        found.as_str(),
        "true true true;true true true;true true true;false false true;3 3 0;0 0 3;1 1 2;0 0 3;"
    );
    Ok(())
}

// ---- the end of a word

// So many edges, numbered in their column.
fn edges_file(alloc: Global, count: u32) -> Result<String, AllocError> {
    let mut text = String::from_str(alloc, "src,dst,y:int\n")?;
    for number in 0..count {
        write!(text, "1,2,{number}\n")?;
    }
    Ok(text)
}

// What the views of so many edges answer, which begin around the end of the first word: the edges from 62 on, and added to
// these all edges, and those from 64 on.
fn around_a_word(alloc: Global, count: u32) -> Result<String, Fail> {
    let edges = edges_file(alloc, count)?;
    answered(
        alloc,
        edges.as_str(),
        &[&[Part::Cell(0, Cmp::Ge, 62)]],
        &[&[Part::Always(true)], &[Part::Cell(0, Cmp::Ge, 64)]],
    )
}

// Numbers of edges, and what is answered.
const AROUND_A_WORD: [(u32, &str); 3] = [
    (
        63,
        concat!(
            "1 1 0;63 63 62;0 0 1;",
            "[EdgeNo(62)] [];[] [(EdgeNo(62), false)];",
            "[ViewNo(2), ViewNo(0), ViewNo(1)][ViewNo(1), ViewNo(0), ViewNo(2)]",
        ),
    ),
    (
        64,
        concat!(
            "2 2 0;64 64 62;0 0 2;",
            "[EdgeNo(62), EdgeNo(63)] [];[] [(EdgeNo(62), false), (EdgeNo(63), false)];",
            "[ViewNo(2), ViewNo(0), ViewNo(1)][ViewNo(1), ViewNo(0), ViewNo(2)]",
        ),
    ),
    (
        65,
        concat!(
            "3 3 0;65 65 62;1 1 2;",
            "[EdgeNo(62), EdgeNo(63), EdgeNo(64)] [];[EdgeNo(64)] [(EdgeNo(62), false), (EdgeNo(63), false)];",
            "[ViewNo(2), ViewNo(0), ViewNo(1)][ViewNo(1), ViewNo(0), ViewNo(2)]",
        ),
    ),
];

// The place of the first row that isn't so.
fn first_wrong(alloc: Global, rows: &[(u32, &str)]) -> Result<Option<usize>, Fail> {
    for (place, (count, wanted)) in rows.iter().enumerate() {
        if around_a_word(alloc, *count)?.as_str() != *wanted {
            return Ok(Some(place));
        }
    }
    Ok(None)
}

#[test]
fn the_end_of_a_word(rt: HostRuntime) -> Result<(), Fail> {
    assert_eq!(rt; first_wrong(rt.alloc(), &AROUND_A_WORD)?, None);
    Ok(())
}

// ---- a tie

// The edges of 1, those of at least 2, and those below 2, which are the first again.
const THREE_VIEWS: [&[Part]; 3] = [
    &[Part::Cell(0, Cmp::Eq, 1)],
    &[Part::Cell(0, Cmp::Ge, 2)],
    &[Part::Cell(0, Cmp::Lt, 2)],
];

#[test]
fn ties_go_to_the_view_declared_first(rt: HostRuntime) -> Result<(), Fail> {
    let found = answered(rt.alloc(), FOUR_EDGES, &THREE_VIEWS, &[])?;
    assert_eq!(rt;
        found.as_str(),
        concat!(
            "2 2 0;2 2 4;2 2 0;",
            "[EdgeNo(0), EdgeNo(1)] [];[EdgeNo(0), EdgeNo(1)] [];",
            "[ViewNo(0), ViewNo(2), ViewNo(1)][ViewNo(1), ViewNo(0), ViewNo(2)]",
        )
    );
    Ok(())
}
