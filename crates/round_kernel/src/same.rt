//! Whether a round of the new view is that of the view before, at the touched nodes.

ghost use Rattle.std.specs.Prelude.{◌≡◌, ◌<◌, true, false, length, get_or, All, Contains, IsTrue};
ghost use Rattle.change_lists.specs.ChangeLists.{is_changed, is_listed};

use change_lists::{Change, differs};
use graph_model::NodeNo;

/// Each node of a short list is looked for in another one, so both have at most so many. Where more are touched, hardly a round is
/// that of the view before.
pub(crate) const FEW: usize = 32;

/// Whether few nodes are shown and found, those that are shown and touched are among those that were found, and all that were found
/// are flagged.
pub(crate) fn are_same_marks(
    shown: &[NodeNo],
    touched: &[bool],
    marked: &[bool],
    found: &[NodeNo],
) -> bool
    requires touched { All (λ n. n.0 < length touched.now) shown.now }
    requires marked { All (λ n. n.0 < length marked.now) found.now }
    ensures shown { IsTrue result → All (λ n. get_or touched.now n.0 false ≡ true → is_listed n.0 found.now ≡ true) shown.now }
    ensures found { IsTrue result → All (λ n. get_or marked.now n.0 false ≡ true) found.now }
{
    if shown.len() > FEW || found.len() > FEW {
        return false;
    }
    are_found(shown, touched, found) && are_flagged(found, marked)
}

// Whether all these nodes that are touched are among those that were found.
fn are_found(shown: &[NodeNo], touched: &[bool], found: &[NodeNo]) -> bool
    requires { All (λ n. n.0 < length touched.now) shown.now }
    ensures { IsTrue result → All (λ n. get_or touched.now n.0 false ≡ true → is_listed n.0 found.now ≡ true) shown.now }
{
    for node in shown {
        if touched[node.0 as usize] && !lists_node(found, *node) {
            return false;
        }
    }
    true
}

// Whether a node is in the list.
fn lists_node(nodes: &[NodeNo], node: NodeNo) -> bool
    ensures { IsTrue result → is_listed node.0 nodes.now ≡ true }
{
    for other in nodes {
        if other.0 == node.0 {
            return true;
        }
    }
    false
}

// Whether all these nodes are flagged.
fn are_flagged(nodes: &[NodeNo], flags: &[bool]) -> bool
    requires { All (λ n. n.0 < length flags.now) nodes.now }
    ensures { IsTrue result → All (λ n. get_or flags.now n.0 false ≡ true) nodes.now }
{
    for node in nodes {
        if !flags[node.0 as usize] {
            return false;
        }
    }
    true
}

/// Whether few changes are listed, those of touched nodes are among those that were found, and the nodes of these are listed.
pub(crate) fn are_same_changes(listed: &[Change], touched: &[bool], found: &[Change]) -> bool
    requires { All (λ c. c.node.0 < length touched.now) listed.now }
    ensures listed { IsTrue result → All (λ c. get_or touched.now c.node.0 false ≡ true → Contains found.now c) listed.now }
    ensures found { IsTrue result → All (λ c. is_changed c.node.0 listed.now ≡ true) found.now }
{
    if listed.len() > 2 * FEW {
        return false;
    }
    are_made(listed, touched, found) && are_changed(found, listed)
}

// Whether all these changes of touched nodes are among those that were found.
fn are_made(listed: &[Change], touched: &[bool], found: &[Change]) -> bool
    requires { All (λ c. c.node.0 < length touched.now) listed.now }
    ensures { IsTrue result → All (λ c. get_or touched.now c.node.0 false ≡ true → Contains found.now c) listed.now }
{
    for change in listed {
        if touched[change.node.0 as usize] && !has_change(found, *change) {
            return false;
        }
    }
    true
}

// Whether a change is in the list.
fn has_change(changes: &[Change], change: Change) -> bool
    ensures { IsTrue result → Contains changes.now change }
{
    for other in changes {
        if is_same(*other, change) {
            return true;
        }
    }
    false
}

// Whether two changes are the same.
fn is_same(left: Change, right: Change) -> bool
    ensures { IsTrue result → left ≡ right }
{
    left.node.0 == right.node.0 && !differs(left.value, right.value)
}

// Whether the nodes of all these changes are among those of others.
fn are_changed(found: &[Change], listed: &[Change]) -> bool
    ensures { IsTrue result → All (λ c. is_changed c.node.0 listed.now ≡ true) found.now }
{
    for change in found {
        if !changes_node(listed, change.node) {
            return false;
        }
    }
    true
}

// Whether a change of the node is in the list.
fn changes_node(changes: &[Change], node: NodeNo) -> bool
    ensures { IsTrue result → is_changed node.0 changes.now ≡ true }
{
    for other in changes {
        if other.node.0 == node.0 {
            return true;
        }
    }
    false
}
