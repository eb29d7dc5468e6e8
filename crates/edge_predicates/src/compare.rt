//! Comparisons of cells.

ghost use Rattle.std.specs.Prelude.{◌≡◌};
ghost use Rattle.std.specs.declared.cmp.Ordering.{Ordering};
ghost use Rattle.graph_model.specs.GraphData.{cell_of};
ghost use Rattle.edge_predicates.specs.Truth.{agrees, truths_compare, cells_compare, is_absent};

use crate::pred::Cmp;
use graph_model::CellRef;
use std::cmp::Ordering;

fn agrees(sign: Cmp, order: Ordering) -> bool
    ensures { result ≡ agrees sign order }
{
    match sign {
        Cmp::Eq => order.is_eq(),
        Cmp::Ne => order.is_ne(),
        Cmp::Lt => order.is_lt(),
        Cmp::Le => order.is_le(),
        Cmp::Gt => order.is_gt(),
        Cmp::Ge => order.is_ge(),
    }
}

fn compare_truths(first: bool, sign: Cmp, second: bool) -> bool
    ensures { result ≡ truths_compare sign first second }
{
    match sign {
        Cmp::Eq => first == second,
        Cmp::Ne => first != second,
        Cmp::Lt => false,
        Cmp::Le => false,
        Cmp::Gt => false,
        Cmp::Ge => false,
    }
}

/// Whether two cells compare so.
pub(crate) fn compare_cells(first: CellRef<'_>, sign: Cmp, second: CellRef<'_>) -> bool
    ensures { result ≡ cells_compare sign (cell_of first.entry) (cell_of second.entry) }
{
    match (first, second) {
        (CellRef::Int(first), CellRef::Int(second)) => agrees(sign, first.cmp(&second)),
        (CellRef::Str(first), CellRef::Str(second)) => agrees(sign, first.cmp(second)),
        (CellRef::Bool(first), CellRef::Bool(second)) => compare_truths(first, sign, second),
        _ => false,
    }
}

/// Whether a cell is absent.
pub(crate) fn is_absent(cell: CellRef<'_>) -> bool
    ensures { result ≡ is_absent (cell_of cell.entry) }
{
    match cell {
        CellRef::Absent => true,
        _ => false,
    }
}
