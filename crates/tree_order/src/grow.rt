//! The tree as it grows.

ghost use Rattle.std.specs.Prelude.{◌≡◌, ◌≤◌, [], length, map, All, IfOk};
ghost use Rattle.view_matrix.specs.Matrices.{distance_of, IsView};
ghost use Rattle.graph_model.specs.GraphData.{AreDistinct};
ghost use Rattle.view_order.specs.Greedy.{numbers};
ghost use Rattle.tree_order.specs.Links.{branches_of, brought, reached};
ghost use Rattle.tree_order.specs.Trees.{tree, weight};

use crate::link::{Link, brought, distance, nearest};
use graph_model::ViewNo;
use std::alloc::Global;
use surge_outside::{List, NoMemory};
use view_matrix::Matrix;

/// The views in the order of joining, and the sum of their distances to their parents.
#[derive(Drop)]
pub(crate) struct Tree {
    pub(crate) links: List<Link>,
    pub(crate) weight: u64,
}

/// The views outside at first, each with its distance from the empty column.
fn outside(alloc: Global, matrix: &Matrix, views: &[ViewNo]) -> Result<Vec<Link>, NoMemory>
    requires { All (IsView matrix.now) views.now }
    ensures { IfOk result (λ links. links.items ≡ map (λ v. reached (distance_of matrix.now) [] v.0) views.now) }
{
    let start = None;
    let mut links = Vec::new(alloc);
    for view in views {
        links.push(Link {
            view: *view,
            parent: start,
            distance: distance(matrix, start, *view),
        })?;
    }
    Ok(links)
}

/// Brings the links of the views outside up to date when one more view has joined.
fn bring_nearer(matrix: &Matrix, joined: ViewNo, links: &mut [Link])
    requires joined { IsView matrix.now joined }
    requires links { All (λ link. IsView matrix.now link.view) links.old }
    ensures { links.new ≡ map (brought (distance_of matrix.now) joined) links.old }
{
    for link in links.iter_mut() {
        *link = brought(matrix, joined, *link);
    }
}

/// The tree over these views, which are distinct. For v views it makes v passes over the columns of the views that are
/// left. The one error is want of memory.
pub(crate) fn grow(alloc: Global, matrix: &Matrix, views: &[ViewNo]) -> Result<Tree, NoMemory>
    requires views { All (IsView matrix.now) views.now }
    requires few { length views.now ≤ 1_024 }
    requires distinct { AreDistinct views.now }
    ensures links { IfOk result (λ grown. branches_of grown.links ≡ tree (distance_of matrix.now) (numbers views.now)) }
    ensures weight { IfOk result (λ grown. grown.weight ≡ weight (distance_of matrix.now) (tree (distance_of matrix.now) (numbers views.now))) }
{
    let mut outside = outside(alloc, matrix, views)?;
    let mut links = List::new(alloc);
    let mut weight = 0;
    while !outside.is_empty() {
        let next = outside.remove(nearest(outside.as_slice()));
        links.push(next)?;
        weight += u64::from(next.distance);
        bring_nearer(matrix, next.view, outside.as_mut_slice());
    }
    Ok(Tree { links, weight })
}
