//! The nearest of several views.

ghost use Rattle.std.specs.Prelude.{◌≡◌, ◌<◌, ◌==◌, ◌&&◌, ◌||◌, nat_lt, length, drop, get_or, All};
ghost use Rattle.view_matrix.specs.Matrices.{distance_of, place_of, IsColumn, IsView};
ghost use Rattle.view_order.specs.Greedy.{nearest, numbers};

use graph_model::ViewNo;
use view_matrix::Matrix;

/// A view, and its distance from the last one.
#[derive(Clone, Copy)]
struct Reached {
    view: ViewNo,
    distance: u64,
}

// Whether a view is nearer than the best so far, or as near and declared before it.
fn is_nearer(other: Reached, best: Reached) -> bool
    ensures { result ≡ (nat_lt other.distance best.distance || (other.distance == best.distance && nat_lt other.view.0 best.view.0)) }
{
    let is_less = other.distance < best.distance;
    is_less || other.distance == best.distance && other.view.0 < best.view.0
}

/// The place of the nearest of these views, of which there is one. It makes one pass over the columns of each of them.
pub(crate) fn nearest(matrix: &Matrix, before: Option<ViewNo>, views: &[ViewNo]) -> usize
    requires before { IsColumn matrix.now before }
    requires views { All (IsView matrix.now) views.now }
    requires some { 0 < length views.now }
    ensures within { result < length views.now }
    ensures nearest { get_or (numbers views.now) result 0 ≡ nearest (distance_of matrix.now (place_of before)) (get_or (numbers views.now) 0 0) (drop 1 (numbers views.now)) }
{
    let mut at = 0;
    let mut best = Reached {
        view: views[0],
        distance: matrix.distance(before, views[0]),
    };
    for place in 1..views.len() {
        let other = Reached {
            view: views[place],
            distance: matrix.distance(before, views[place]),
        };
        if is_nearer(other, best) {
            best = other;
            at = place;
        }
    }
    at
}
