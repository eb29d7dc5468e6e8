//! How values differ from those of the view before.

ghost use Rattle.std.specs.Prelude.{◌≡◌, ◌≢◌, ◌<◌, ◌^◌, length, IfOk, IsTrue, MatchBool};
ghost use Rattle.result_tables.specs.Changes.{all_from, changes_from};

use graph_model::{NodeNo, Val};
use std::alloc::Global;
use surge_outside::NoMemory;

/// All nodes, each with its value.
pub(crate) fn all_nodes(alloc: Global, values: &[Val]) -> Result<Vec<(NodeNo, Val)>, NoMemory>
    requires { length values.now < 2 ^ 32 }
    ensures { IfOk result (λ changes. changes.items ≡ all_from 0 values.now) }
{
    let mut changes = Vec::with_capacity(alloc, values.len())?;
    for node in 0..values.len() {
        changes.push((NodeNo(node as u32), values[node]))?;
    }
    Ok(changes)
}

/// The nodes whose values differ from the earlier ones, each with its value, by rising number.
pub(crate) fn changed_nodes(
    alloc: Global,
    earlier: &[Val],
    values: &[Val],
) -> Result<Vec<(NodeNo, Val)>, NoMemory>
    requires size { length earlier.now ≡ length values.now }
    requires few { length values.now < 2 ^ 32 }
    ensures { IfOk result (λ changes. changes.items ≡ changes_from 0 earlier.now values.now) }
{
    let mut changes = Vec::new(alloc);
    for node in 0..values.len() {
        if differ(earlier[node], values[node]) {
            changes.push((NodeNo(node as u32), values[node]))?;
        }
    }
    Ok(changes)
}

/// Whether the nodes have the same values.
pub(crate) fn are_same(left: &[Val], right: &[Val]) -> bool
    requires { length left.now ≡ length right.now }
    ensures { IsTrue result → left.now ≡ right.now }
{
    for node in 0..left.len() {
        if differ(left[node], right[node]) {
            return false;
        }
    }
    true
}

// Whether two values differ.
fn differ(left: Val, right: Val) -> bool
    ensures { MatchBool result (left ≢ right) (left ≡ right) }
{
    left != right
}
