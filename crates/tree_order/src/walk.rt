//! The walk through the tree.

ghost use Rattle.std.specs.Prelude.{◌≡◌, ◌++◌, OnOk};
ghost use Rattle.view_matrix.specs.Matrices.{place_of};
ghost use Rattle.tree_order.specs.Links.{branches_of};
ghost use Rattle.tree_order.specs.Trees.{walk};

use crate::link::{Link, is_same};
use graph_model::ViewNo;
use surge_outside::{List, NoMemory};

/// Adds what hangs below a point, of the views that joined behind it: its children in the order of joining, and behind each
/// of them what hangs below it. The one error is want of memory.
pub(crate) fn walk(
    links: &[Link],
    point: Option<ViewNo>,
    order: &mut List<Link>,
) -> Result<(), NoMemory>
    ensures { OnOk result (branches_of order.new ≡ branches_of order.old ++ walk (place_of point) (branches_of links.now)) }
{
    for place in 0..links.len() {
        let link = links[place];
        if is_same(link.parent, point) {
            order.push(link)?;
            walk(&links[place + 1..], Some(link.view), order)?;
        }
    }
    Ok(())
}
