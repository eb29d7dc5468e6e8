//! A row of a table.

ghost use Rattle.std.specs.Prelude.{◌≡◌, ◌≢◌, MatchBool};

use graph_model::Val;

/// A row of a table: the id of a node, below 2^63, and the node's value.
#[derive(Clone, Copy, Debug, PartialEq, Eq)]
pub struct Row {
    pub id: u64,
    pub value: Val,
}

/// Whether two values differ.
pub(crate) fn differ(left: Val, right: Val) -> bool
    ensures { MatchBool result (left ≢ right) (left ≡ right) }
{
    left != right
}
