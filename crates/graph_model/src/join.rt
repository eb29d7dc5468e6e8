//! Edges added after those that are there.

ghost use Rattle.std.specs.Prelude.{◌≡◌, ◌++◌, ℕ, length, map, All, OnOk, OnErr};
ghost use Rattle.graph_model.specs.GraphData.{cell_count, all_joined};
ghost use Rattle.graph_model.specs.Joining.{cells_before};

use crate::cell::Cells;
use crate::number::NodeNo;
use surge_outside::{List, NoMemory};

/// Adds these edges, by their ends and by their cells in each column, in time of their number. A refusal leaves both as
/// they were.
pub(crate) fn append_edges(
    ends: &mut List<(NodeNo, NodeNo)>,
    columns: &mut Vec<Cells>,
    more: List<(NodeNo, NodeNo)>,
    cells: List<Cells>,
) -> Result<(), NoMemory>
    requires lists { length cells ≡ length columns.old.items }
    requires counts { All (λ c. cell_count c ≡ length ends.old) columns.old.items }
    ensures ends { OnOk result (ends.new ≡ ends.old ++ more) }
    ensures columns { OnOk result (columns.new.items ≡ all_joined columns.old.items cells) }
    ensures same_ends { OnErr result (ends.new ≡ ends.old) }
    ensures same_columns { OnErr result (columns.new.items ≡ columns.old.items) }
{
    let count = ends.len();
    ends.append(more)?;
    match join_all(columns, cells.into_vec()) {
        Ok(()) => Ok(()),
        Err(NoMemory) => {
            truncate_all(columns, count);
            ends.truncate(count);
            Err(NoMemory)
        }
    }
}

// Adds these cells, column by column from the last. After a refusal each column has its own cells, and maybe others
// after them.
fn join_all(columns: &mut [Cells], more: Vec<Cells>) -> Result<(), NoMemory>
    requires { length more.items ≡ length columns.old }
    ensures ok { OnOk result (columns.new ≡ all_joined columns.old more.items) }
    ensures err { OnErr result ((n : ℕ) → All (λ c. cell_count c ≡ n) columns.old → map (cells_before n) columns.new ≡ columns.old) }
{
    let mut left = more;
    while let Some(cells) = left.pop() {
        columns[left.len()].append(cells)?;
    }
    Ok(())
}

// Keeps the first `n` cells of each column.
fn truncate_all(columns: &mut [Cells], n: usize)
    ensures { columns.new ≡ map (cells_before n) columns.old }
{
    for column in columns.iter_mut() {
        column.truncate(n);
    }
}
