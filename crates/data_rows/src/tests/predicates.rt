//! Predicates at the edges of a small graph that no script says, and the edges of a rule. The others stand in tests/files.

use crate::tests::small_graphs::graph_of;
use crate::tests::views::{Form, Part, rules};
use edge_predicates::{Cmp, Place, Pred, ViewRule, holds, view_edges};
use graph_model::{EdgeNo, Graph};
use std::alloc::{AllocError, Global};
use std::fmt::Write;
use std::test::Fail;
use surge_outside::List;

/// A number and a text of each node; the second node has no number.
const NODES: &str = "id,a:int,s:str\n1,5,x\n2,,y\n";

/// A number, a truth value and a text of each edge; the second edge has none of the first two, and an empty text.
const EDGES: &str = "src,dst,y:int,t:bool,w:str\n1,2,3,true,abc\n2,1,,,\n";

// Values of two kinds, an order of truth values, columns that are not there, and chains of nothing.
fn said_by_no_script(alloc: Global) -> Result<Vec<Pred>, AllocError> {
    let preds = vec![in alloc;
        Pred::Compare(Place::Edge(2), Cmp::Ne, Place::Number(1)),
        Pred::Compare(Place::Bool(false), Cmp::Lt, Place::Bool(true)),
        Pred::Missing(Place::Edge(3)),
        Pred::Missing(Place::Src(2)),
        Pred::Or(List::new(alloc)),
        Pred::And(List::new(alloc)),
    ]?;
    Ok(preds)
}

// Whether it holds of each edge, as a digit for each.
fn digits(alloc: Global, pred: &Pred, graph: &Graph) -> Result<String, Fail> {
    let mut text = String::new(alloc);
    for e in 0..graph.edge_count() {
        let digit = u8::from(holds(pred, graph, EdgeNo(e)));
        write!(text, "{digit}")?;
    }
    text.push_str(" ")?;
    Ok(text)
}

// The digits of each of these predicates.
fn digits_of_each(alloc: Global, preds: &[Pred], graph: &Graph) -> Result<String, Fail> {
    let mut text = String::new(alloc);
    for pred in preds {
        text.push_str(digits(alloc, pred, graph)?.as_str())?;
    }
    Ok(text)
}

fn digits_of_all(alloc: Global, preds: &[Pred]) -> Result<String, Fail> {
    let graph = graph_of(alloc, NODES, EDGES)?;
    digits_of_each(alloc, preds, &graph)
}

#[test]
fn predicates_that_no_script_says(rt: HostRuntime) -> Result<(), Fail> {
    let preds = said_by_no_script(rt.alloc())?;
    let found = digits_of_all(rt.alloc(), preds.as_slice())?;
    assert_eq!(rt; found.as_str(), "00 00 11 11 00 11 ");
    Ok(())
}

// One part that holds of the first edge and one that holds of the second, no part, and the second alone.
const RULES: [&[Part]; 3] = [
    &[Part::Cell(0, Cmp::Eq, 3), Part::Absent(0)],
    &[],
    &[Part::Absent(0)],
];

// The edges of each of these rules.
fn edges_of_each(alloc: Global, rules: &[ViewRule], graph: &Graph) -> Result<String, Fail> {
    let mut text = String::new(alloc);
    for rule in rules {
        let edges = view_edges(alloc, rule, graph)?;
        write!(text, "{:?}", edges.as_slice())?;
    }
    Ok(text)
}

fn edges_of_all(alloc: Global, rules: &[ViewRule]) -> Result<String, Fail> {
    let graph = graph_of(alloc, NODES, EDGES)?;
    edges_of_each(alloc, rules, &graph)
}

#[test]
fn a_view_keeps_the_edges_of_which_each_predicate_holds(rt: HostRuntime) -> Result<(), Fail> {
    let rules = rules(rt.alloc(), &RULES, Form::List)?;
    let found = edges_of_all(rt.alloc(), rules.as_slice())?;
    assert_eq!(rt; found.as_str(), "[][EdgeNo(0), EdgeNo(1)][EdgeNo(1)]");
    Ok(())
}
