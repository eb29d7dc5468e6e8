//! Orders, worked out by hand.

ghost use Rattle.std.specs.Prelude.{◌≡◌, ◌≤◌, length, IfOk};

use edge_predicates::{Cmp, Place, Pred, ViewRule};
use graph_loader::load;
use graph_model::Graph;
use std::alloc::{AllocError, Global};
use std::test::Fail;
use surge_outside::{List, NoMemory};
use tree_order::{TreeOrder, tree_order};
use view_matrix::Matrix;
use view_order::views_from;

const NODES: &[u8] = b"id\n1\n2\n3\n4\n";

const EDGES: &[u8] = b"src,dst,y:int\n1,2,1\n2,3,1\n1,3,2\n3,4,3\n";

// The graph of the four edges. Nothing is said of it, so that no proof reads its files.
fn four_edges(alloc: Global) -> Result<Graph, Fail> {
    let graph = load(alloc, NODES, EDGES)?;
    Ok(graph)
}

// The edges whose number is one of those from the first to the last.
fn between(alloc: Global, first: i64, last: i64) -> Result<ViewRule, AllocError> {
    let mut rules = Vec::new(alloc);
    rules.push(Pred::Compare(Place::Edge(0), Cmp::Ge, Place::Number(first)))?;
    rules.push(Pred::Compare(Place::Edge(0), Cmp::Le, Place::Number(last)))?;
    Ok(ViewRule {
        rules: List::from_vec(rules),
    })
}

// A view for each of these pairs of numbers.
fn views(alloc: Global, bounds: &[(i64, i64)]) -> Result<Vec<ViewRule>, AllocError>
    ensures { IfOk result (λ views. length views.items ≡ length bounds.now) }
{
    let mut views = Vec::new(alloc);
    for (first, last) in bounds {
        views.push(between(alloc, *first, *last)?)?;
    }
    Ok(views)
}

fn all_live(alloc: Global, graph: &Graph) -> Result<List<bool>, NoMemory>
    ensures { IfOk result (λ live. length live ≡ length graph.now.ends) }
{
    let live = vec![in alloc; true; graph.edge_count() as usize]?;
    Ok(List::from_vec(live))
}

// The matrix of these views of the four edges.
fn matrix_of(alloc: Global, bounds: &[(i64, i64)]) -> Result<Matrix, Fail>
    requires { length bounds.now ≤ 1_024 }
{
    let graph = four_edges(alloc)?;
    let live = all_live(alloc, &graph)?;
    let views = views(alloc, bounds)?;
    Ok(Matrix::build(alloc, &graph, &live, views.as_slice())?)
}

// The tree order of all views of a matrix.
fn ordered(alloc: Global, matrix: &Matrix) -> Result<TreeOrder, NoMemory> {
    let views = views_from(alloc, matrix, 0)?;
    tree_order(alloc, matrix, views.as_slice())
}

// The weight of its tree and its length, and each view with its parent.
fn described(alloc: Global, found: &TreeOrder) -> Result<String, AllocError> {
    let mut text = format!(in alloc; "{} {}", found.tree, found.length)?;
    for (view, parent) in found.order.as_slice().iter().zip(found.parents.as_slice()) {
        text.push_str(format!(in alloc; ", {}", view.0)?.as_str())?;
        if let Some(parent) = parent {
            text.push_str(format!(in alloc; " from {}", parent.0)?.as_str())?;
        }
    }
    Ok(text)
}

// What comes of views between these pairs of numbers.
fn order_of(alloc: Global, bounds: &[(i64, i64)]) -> Result<String, Fail>
    requires { length bounds.now ≤ 1_024 }
{
    let matrix = matrix_of(alloc, bounds)?;
    let found = ordered(alloc, &matrix)?;
    Ok(described(alloc, &found)?)
}

#[test]
fn walks_back_to_a_second_child(rt: HostRuntime) -> Result<(), Fail> {
    assert_eq!(rt;
        order_of(rt.alloc(), &[(1, 1), (1, 2), (2, 3)])?.as_str(),
        "5 6, 0, 1 from 0, 2"
    );
    Ok(())
}

#[test]
fn starts_at_the_nearest_view(rt: HostRuntime) -> Result<(), Fail> {
    assert_eq!(rt;
        order_of(rt.alloc(), &[(1, 3), (3, 3), (2, 3), (9, 9)])?.as_str(),
        "4 4, 3, 1, 2 from 1, 0 from 2"
    );
    Ok(())
}

#[test]
fn equal_views_hang_below_the_first(rt: HostRuntime) -> Result<(), Fail> {
    assert_eq!(rt;
        order_of(rt.alloc(), &[(1, 3), (1, 3), (1, 3)])?.as_str(),
        "4 4, 0, 1 from 0, 2 from 0"
    );
    Ok(())
}

#[test]
fn one_view_or_none(rt: HostRuntime) -> Result<(), Fail> {
    assert_eq!(rt; order_of(rt.alloc(), &[(1, 1)])?.as_str(), "2 2, 0");
    assert_eq!(rt; order_of(rt.alloc(), &[])?.as_str(), "0 0");
    Ok(())
}
