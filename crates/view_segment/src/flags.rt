//! The edges that two views don't share, and the flags of a view, also by those of another one.

ghost use Rattle.std.specs.Prelude.{◌≡◌, ◌<◌, length, fold, All, Some, IfOk};
ghost use Rattle.view_matrix.specs.Matrices.{IsView, apart};
ghost use Rattle.view_segment.specs.Steps.{with_turned};

use graph_model::{EdgeNo, ViewNo};
use std::alloc::Global;
use surge_outside::{List, NoMemory};
use view_matrix::Matrix;

/// The edges that stand in one of the two views alone. The error is want of memory.
pub(crate) fn turned_edges(
    alloc: Global,
    matrix: &Matrix,
    before: ViewNo,
    view: ViewNo,
) -> Result<List<EdgeNo>, NoMemory>
    requires before { IsView matrix.now before }
    requires view { IsView matrix.now view }
    ensures { IfOk result (λ edges. edges ≡ apart matrix.now (Some before.0) view.0) }
{
    let differences = matrix.differences(alloc, Some(before), view)?;
    let mut edges = List::new(alloc);
    for difference in differences.as_slice() {
        edges.push(difference.0)?;
    }
    Ok(edges)
}

/// These flags with those of these edges turned. The error is want of memory.
pub(crate) fn turned_flags(
    alloc: Global,
    flags: &[bool],
    turned: &[EdgeNo],
) -> Result<Vec<bool>, NoMemory>
    requires { All (λ e. e.0 < length flags.now) turned.now }
    ensures { IfOk result (λ new. new.items ≡ fold with_turned flags.now turned.now) }
{
    let mut new = Vec::with_capacity(alloc, flags.len())?;
    new.extend_from_slice(flags)?;
    for edge in turned {
        let place = edge.0 as usize;
        new[place] = !new[place];
    }
    Ok(new)
}
