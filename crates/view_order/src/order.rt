//! The greedy order.

ghost use Rattle.std.specs.Prelude.{◌≡◌, ◌≤◌, ◌-◌, length, map, All, IfOk, IsPermutation};
ghost use Rattle.std.specs.List.{range_with_len};
ghost use Rattle.graph_model.specs.GraphData.{AreDistinct};
ghost use Rattle.view_matrix.specs.Matrices.{distance_of, place_of, IsColumn, IsView};
ghost use Rattle.view_order.specs.Greedy.{greedy, numbers};
ghost use Rattle.view_order.specs.Places.{view};

use crate::nearest::nearest;
use graph_model::ViewNo;
use std::alloc::Global;
use surge_outside::{List, NoMemory};
use view_matrix::Matrix;

/// The greedy order of these views, which are distinct: from the view before, or from the empty column, each time to the
/// view of least distance from the last one that is left, and of several to the one declared first. For v views it makes v
/// passes over the columns of the views that are left. The one error is want of memory.
pub fn greedy(
    alloc: Global,
    matrix: &Matrix,
    before: Option<ViewNo>,
    views: &[ViewNo],
) -> Result<List<ViewNo>, NoMemory>
    requires before { IsColumn matrix.now before }
    requires views { All (IsView matrix.now) views.now }
    requires distinct { AreDistinct views.now }
    ensures order { IfOk result (λ order. numbers order ≡ greedy (distance_of matrix.now) (place_of before) (numbers views.now)) }
    ensures each { IfOk result (IsPermutation views.now) }
{
    let mut rest = Vec::from_slice(alloc, views)?;
    let mut order = List::new(alloc);
    let mut last = before;
    while !rest.is_empty() {
        let next = rest.remove(nearest(matrix, last, rest.as_slice()));
        order.push(next)?;
        last = Some(next);
    }
    Ok(order)
}

/// The views of a matrix from this one on, in declared order. The one error is want of memory.
pub fn views_from(alloc: Global, matrix: &Matrix, first: u32) -> Result<List<ViewNo>, NoMemory>
    requires { first ≤ length matrix.now.columns }
    ensures views { IfOk result (λ views. views ≡ map view (range_with_len first (length matrix.now.columns - first))) }
    ensures within { IfOk result (All (IsView matrix.now)) }
    ensures distinct { IfOk result AreDistinct }
{
    let mut views = List::new(alloc);
    for number in first..matrix.views() {
        views.push(ViewNo(number))?;
    }
    Ok(views)
}
