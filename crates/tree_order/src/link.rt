//! A view and its nearest point inside the tree.

ghost use Rattle.std.specs.Prelude.{◌≡◌, ◌<◌, ◌==◌, ◌&&◌, ◌||◌, nat_lt, length, drop, get_or, All};
ghost use Rattle.view_matrix.specs.Matrices.{distance_of, place_of, IsColumn, IsView};
ghost use Rattle.tree_order.specs.Links.{brought, nearest_link};
ghost use Rattle.tree_order.specs.Trees.{is_same};

use graph_model::ViewNo;
use view_matrix::Matrix;

/// A view, the point inside the tree that is nearest to it, and the distance between them: the point is the empty column
/// (`None`) or a view. Of a view that has joined the point is its parent.
#[derive(Clone, Copy)]
pub(crate) struct Link {
    pub(crate) view: ViewNo,
    pub(crate) parent: Option<ViewNo>,
    pub(crate) distance: u32,
}

/// Whether two points are the same.
pub(crate) fn is_same(one: Option<ViewNo>, other: Option<ViewNo>) -> bool
    ensures { result ≡ is_same (place_of one) (place_of other) }
{
    match (one, other) {
        (None, None) => true,
        (Some(v), Some(w)) => v.0 == w.0,
        _ => false,
    }
}

/// In how many edges a view differs from a point.
pub(crate) fn distance(matrix: &Matrix, point: Option<ViewNo>, view: ViewNo) -> u32
    requires point { IsColumn matrix.now point }
    requires view { IsView matrix.now view }
    ensures { result ≡ distance_of matrix.now (place_of point) view.0 }
{
    matrix.distance(point, view) as u32
}

/// The link of a view outside after another view has joined: to that view where it is nearer than the point of the link.
pub(crate) fn brought(matrix: &Matrix, joined: ViewNo, link: Link) -> Link
    requires joined { IsView matrix.now joined }
    requires link { IsView matrix.now link.view }
    ensures { result ≡ brought (distance_of matrix.now) joined link }
{
    let distance = distance(matrix, Some(joined), link.view);
    if distance < link.distance {
        Link {
            view: link.view,
            parent: Some(joined),
            distance,
        }
    } else {
        link
    }
}

// Whether a view is nearer than the best so far, or as near and declared before it.
fn is_nearer(other: Link, best: Link) -> bool
    ensures { result ≡ (nat_lt other.distance best.distance || (other.distance == best.distance && nat_lt other.view.0 best.view.0)) }
{
    let is_less = other.distance < best.distance;
    is_less || other.distance == best.distance && other.view.0 < best.view.0
}

/// The place of the link to the nearest view, of which there is one, and of several to the one declared first.
pub(crate) fn nearest(links: &[Link]) -> usize
    requires { 0 < length links.now }
    ensures within { result < length links.now }
    ensures nearest { (d : Link) → get_or links.now result d ≡ nearest_link (get_or links.now 0 d) (drop 1 links.now) }
{
    let mut at = 0;
    let mut best = links[0];
    for place in 1..links.len() {
        let other = links[place];
        if is_nearer(other, best) {
            best = other;
            at = place;
        }
    }
    at
}
