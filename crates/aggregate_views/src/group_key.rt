//! The cells of groups in their order.

ghost use Rattle.std.specs.Prelude.{◌≡◌, IfOk};
ghost use Rattle.graph_model.specs.GraphData.{cell_of};
ghost use Rattle.aggregate_views.specs.Rows.{group_cell};
ghost use Rattle.aggregate_views.specs.Coding.{key_cell};

use crate::cell::Cell;
use graph_model::CellRef;
use std::alloc::Global;
use surge_outside::{NoMemory, Text};

/// The cell of a group, lent by the graph. Its order is that of groups.
#[derive(Clone, Copy, Debug, Drop, PartialEq, Eq, PartialOrd, Ord)]
pub(crate) enum GroupKey<'g> {
    Absent,
    Int(i64),
    Bool(bool),
    Str(&'g str),
}

/// The cell as a key.
pub(crate) fn key_of<'g>(cell: CellRef<'g>) -> GroupKey<'g>
    ensures { key_cell result ≡ cell_of cell.entry }
{
    match cell {
        CellRef::Absent => GroupKey::Absent,
        CellRef::Int(number) => GroupKey::Int(number),
        CellRef::Str(text) => GroupKey::Str(text),
        CellRef::Bool(truth) => GroupKey::Bool(truth),
    }
}

/// The cell of a key, with a text of its own. The one error is want of memory.
pub(crate) fn owned_cell(alloc: Global, key: GroupKey<'_>) -> Result<Cell, NoMemory>
    ensures { IfOk result (λ cell. cell ≡ group_cell (key_cell key.entry)) }
{
    Ok(match key {
        GroupKey::Absent => Cell::Absent,
        GroupKey::Int(number) => Cell::Int(number),
        GroupKey::Bool(truth) => Cell::Bool(truth),
        GroupKey::Str(text) => Cell::Str(Text::from_string(String::from_str(alloc, text)?)),
    })
}
