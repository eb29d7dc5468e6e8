//! Rules that are told from the columns of the edges alone, and the same rules evaluated edge by edge, have the same
//! edges. (A chain in a chain stands in tests/files.)

use crate::tests::small_graphs::graph_of;
use crate::tests::views::{Form, Part, distance, matrix_of, rule, rules};
use edge_predicates::{Cmp, ViewRule};
use graph_model::{Graph, ViewNo};
use std::alloc::{AllocError, Global};
use std::fmt::Write;
use std::test::Fail;
use view_matrix::Matrix;

const NODES: &str = "id\n1\n2\n";

/// Two columns of numbers, in each of which one is absent, one of texts, and one of truth values.
const EDGES: &str =
    "src,dst,y:int,z:int,w:str,t:bool\n1,2,1,0,a,true\n1,2,,1,3,\n1,2,3,2,,false\n1,2,-2,,3,true\n1,2,5,4,c,\n1,2,3,5,d,true\n";

// How many edges each view of the first half has, or 99 where its edges are not those of the same view of the second half.
fn sizes_in_both(alloc: Global, matrix: &Matrix) -> Result<String, Fail> {
    let mut text = String::new(alloc);
    let half = matrix.views() / 2;
    for view in 0..half {
        let size = matrix.size(ViewNo(view));
        let is_same = distance(matrix, Some(view), half + view) == 0;
        let shown = if is_same { size } else { 99 };
        write!(text, "{shown} ")?;
    }
    Ok(text)
}

fn sizes_over(
    alloc: Global,
    graph: &Graph,
    told: &[ViewRule],
    evaluated: &[ViewRule],
) -> Result<String, Fail> {
    let matrix = matrix_of(alloc, graph, told, evaluated)?;
    sizes_in_both(alloc, &matrix)
}

// How many edges rules have, and the same rules in their other form.
fn sizes(alloc: Global, told: &[ViewRule], evaluated: &[ViewRule]) -> Result<String, Fail> {
    let graph = graph_of(alloc, NODES, EDGES)?;
    sizes_over(alloc, &graph, told, evaluated)
}

// ---- a comparison

const SIGNS: [Cmp; 6] = [Cmp::Eq, Cmp::Ne, Cmp::Lt, Cmp::Le, Cmp::Gt, Cmp::Ge];

// A comparison with this sign in place of its own.
fn with_sign(part: Part, sign: Cmp) -> Part {
    match part {
        Part::Cell(column, _, number) => Part::Cell(column, sign, number),
        Part::Number(number, _, column) => Part::Number(number, sign, column),
        other => other,
    }
}

// A comparison by each sign.
fn by_each_sign(alloc: Global, part: Part, form: Form) -> Result<Vec<ViewRule>, AllocError> {
    let mut rules = Vec::new(alloc);
    for sign in SIGNS {
        rules.push(rule(alloc, &[with_sign(part, sign)], form)?)?;
    }
    Ok(rules)
}

fn sizes_beside(alloc: Global, told: &[ViewRule], part: Part) -> Result<String, Fail> {
    let evaluated = by_each_sign(alloc, part, Form::Choice)?;
    sizes(alloc, told, evaluated.as_slice())
}

fn sizes_by_sign(alloc: Global, part: Part) -> Result<String, Fail> {
    let told = by_each_sign(alloc, part, Form::Chain)?;
    sizes_beside(alloc, told.as_slice(), part)
}

// Comparisons, and how many edges each has by =, !=, <, <=, > and >=.
const COMPARISONS: [(Part, &str); 10] = [
    (Part::Cell(0, Cmp::Eq, 3), "2 3 2 4 1 3 "),
    (Part::Number(3, Cmp::Eq, 0), "2 3 1 3 2 4 "),
    (Part::Cell(1, Cmp::Eq, 5), "1 4 4 5 0 1 "),
    (Part::Cell(0, Cmp::Eq, i64::MAX), "0 5 5 5 0 0 "),
    (Part::Cell(0, Cmp::Eq, i64::MIN), "0 5 0 0 5 5 "),
    (Part::Number(i64::MIN, Cmp::Eq, 0), "0 5 5 5 0 0 "),
    (Part::Cell(0, Cmp::Eq, i64::MIN + 1), "0 5 0 0 5 5 "),
    // Columns of texts and of truth values, and one that isn't there.
    (Part::Cell(2, Cmp::Eq, 3), "0 0 0 0 0 0 "),
    (Part::Number(3, Cmp::Eq, 3), "0 0 0 0 0 0 "),
    (Part::Cell(4, Cmp::Eq, 3), "0 0 0 0 0 0 "),
];

// The place of the first row that isn't so.
fn first_wrong(alloc: Global, rows: &[(Part, &str)]) -> Result<Option<usize>, Fail> {
    for (place, (part, wanted)) in rows.iter().enumerate() {
        if sizes_by_sign(alloc, *part)?.as_str() != *wanted {
            return Ok(Some(place));
        }
    }
    Ok(None)
}

#[test]
fn each_sign_on_both_sides(rt: HostRuntime) -> Result<(), Fail> {
    assert_eq!(rt; first_wrong(rt.alloc(), &COMPARISONS)?, None);
    Ok(())
}

// ---- several parts

// Nothing, a window, two columns, one that is no number, one that isn't there, and others.
const ROWS: [&[Part]; 6] = [
    &[],
    &[Part::Cell(0, Cmp::Ge, 1), Part::Cell(0, Cmp::Lt, 5)],
    &[
        Part::Cell(0, Cmp::Ge, 1),
        Part::Cell(1, Cmp::Lt, 5),
        Part::Cell(0, Cmp::Le, 3),
    ],
    &[Part::Cell(0, Cmp::Ge, 1), Part::Cell(2, Cmp::Ne, 3)],
    &[Part::Cell(0, Cmp::Ge, 1), Part::Cell(4, Cmp::Ne, 3)],
    &[Part::Cell(0, Cmp::Ge, 1), Part::Absent(3)],
];

fn sizes_of_rows(alloc: Global, form: Form) -> Result<String, Fail> {
    let told = rules(alloc, &ROWS, form)?;
    let evaluated = rules(alloc, &ROWS, Form::Choice)?;
    sizes(alloc, told.as_slice(), evaluated.as_slice())
}

#[test]
fn conjunctions_in_two_ways(rt: HostRuntime) -> Result<(), Fail> {
    assert_eq!(rt;
        sizes_of_rows(rt.alloc(), Form::Chain)?.as_str(),
        "6 3 2 0 0 1 "
    );
    assert_eq!(rt;
        sizes_of_rows(rt.alloc(), Form::List)?.as_str(),
        "6 3 2 0 0 1 "
    );
    Ok(())
}
