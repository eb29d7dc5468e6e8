//! The order.

ghost use Rattle.std.specs.Prelude.{◌≡◌, ◌≤◌, ◌*◌, length, map, All, IfOk, List, None, IsPermutation};
ghost use Rattle.graph_model.specs.GraphData.{AreDistinct};
ghost use Rattle.graph_model.specs.declared.number.ViewNo.{ViewNo};
ghost use Rattle.view_matrix.specs.Matrices.{distance_of, place_of, IsView};
ghost use Rattle.view_order.specs.Greedy.{numbers};
ghost use Rattle.tree_order.specs.Links.{branches_of, numbers_of};
ghost use Rattle.tree_order.specs.Trees.{parents_of, tree, tree_walk, views_of, walked, weight};

use crate::grow::grow;
use crate::link::Link;
use crate::walk::walk;
use graph_model::ViewNo;
use std::alloc::Global;
use surge_outside::{List, NoMemory};
use view_matrix::Matrix;

/// An order of views, at most twice as long as the best one.
#[derive(Debug, Drop)]
pub struct TreeOrder {
    /// The views in the order of the walk through the tree.
    pub order: List<ViewNo>,
    /// Of the view at each place of the order its parent in the tree: a view that stands before it, or `None` for the empty
    /// column.
    pub parents: List<Option<ViewNo>>,
    /// The sum of the distances to the parents. No order of the views is shorter.
    pub tree: u64,
    /// The length of the order: the distance of its first view from the empty column, and of each later one from the one
    /// before it. It is at most twice the sum above.
    pub length: u64,
}

/// How many views there are: they are distinct, so no more than the matrix has.
fn count(matrix: &Matrix, views: &[ViewNo]) -> usize
    requires views { All (IsView matrix.now) views.now }
    requires distinct { AreDistinct views.now }
    ensures count { result ≡ length views.now }
    ensures limit { result ≤ 1_024 }
{
    let _all = matrix.views();
    views.len()
}

/// The order of these links, and its length.
fn measured(
    alloc: Global,
    matrix: &Matrix,
    tree: u64,
    links: &[Link],
) -> Result<TreeOrder, NoMemory>
    requires views { All (λ link. IsView matrix.now link.view) links.now }
    requires few { length links.now ≤ 1_024 }
    ensures order { IfOk result (λ found. numbers found.order ≡ numbers_of links.now) }
    ensures parents { IfOk result (λ found. map place_of found.parents ≡ parents_of (branches_of links.now)) }
    ensures tree { IfOk result (λ found. found.tree ≡ tree) }
    ensures length { IfOk result (λ found. found.length ≡ walked (distance_of matrix.now) None (numbers_of links.now)) }
{
    let mut order = List::new(alloc);
    let mut parents = List::new(alloc);
    let mut length = 0;
    let mut last = None;
    for link in links {
        order.push(link.view)?;
        parents.push(link.parent)?;
        length += matrix.distance(last, link.view);
        last = Some(link.view);
    }
    Ok(TreeOrder {
        order,
        parents,
        tree,
        length,
    })
}

/// The walk through the least tree over the empty column and these views, which are distinct: its length is at most twice
/// that of the best order of them, since no order is shorter than the tree weighs. For v views it makes v passes over the
/// columns of the views that are left, and one more over the columns of the order. The one error is want of memory.
pub fn tree_order(alloc: Global, matrix: &Matrix, views: &[ViewNo]) -> Result<TreeOrder, NoMemory>
    requires views { All (IsView matrix.now) views.now }
    requires distinct { AreDistinct views.now }
    ensures order { IfOk result (λ found. numbers found.order ≡ views_of (tree_walk (distance_of matrix.now) (numbers views.now))) }
    ensures parents { IfOk result (λ found. map place_of found.parents ≡ parents_of (tree_walk (distance_of matrix.now) (numbers views.now))) }
    ensures tree { IfOk result (λ found. found.tree ≡ weight (distance_of matrix.now) (tree (distance_of matrix.now) (numbers views.now))) }
    ensures length { IfOk result (λ found. found.length ≡ walked (distance_of matrix.now) None (numbers found.order)) }
    ensures each { IfOk result (λ found. IsPermutation views.now found.order) }
    ensures least { IfOk result (λ found. (other : List ViewNo) → IsPermutation views.now other → found.tree ≤ walked (distance_of matrix.now) None (numbers other)) }
    ensures near { IfOk result (λ found. found.length ≤ 2 * found.tree) }
{
    let _few = count(matrix, views);
    let grown = grow(alloc, matrix, views)?;
    let mut links = List::new(alloc);
    walk(grown.links.as_slice(), None, &mut links)?;
    let found = measured(alloc, matrix, grown.weight, links.as_slice())?;
    Ok(found)
}
