//! Which edges stand in a view, in two matrices or in two views.

ghost use Rattle.std.specs.Prelude.{◌≡◌, ◌<◌, [], length, fold, All, Some, IfOk, IfSome, IsFalse};
ghost use Rattle.view_matrix.specs.Matrices.{IsView, apart};
ghost use Rattle.view_versions.specs.Edits.{AreEdits, taken_back, turned_in};
ghost use Rattle.view_versions.specs.Flags.{AreKept, AreTwo, flags_of, with_bit, with_flag, with_former};

use graph_model::{EdgeNo, ViewNo};
use std::alloc::Global;
use surge_outside::{List, NoMemory};
use view_matrix::Matrix;

/// Of each edge whether it is in the view before, and in the new one; and the edges that are in one of the two alone. There may be
/// more edges among these.
#[derive(Drop)]
pub(crate) struct TwoFlags {
    pub(crate) old: Vec<bool>,
    pub(crate) new: Vec<bool>,
    pub(crate) turned: List<EdgeNo>,
}

/// Those of a view that was stepped.
#[derive(Drop)]
pub(crate) struct Kept {
    pub(crate) view: ViewNo,
    pub(crate) two: TwoFlags,
}

/// Those of two views of a matrix. The error is want of memory.
pub(crate) fn flags_between(
    alloc: Global,
    matrix: &Matrix,
    before: ViewNo,
    view: ViewNo,
) -> Result<TwoFlags, NoMemory>
    requires before { IsView matrix.now before }
    requires view { IsView matrix.now view }
    ensures two { IfOk result (AreTwo (length matrix.now.live)) }
    ensures old { IfOk result (λ two. two.old.items ≡ flags_of matrix.now before.0) }
    ensures new { IfOk result (λ two. two.new.items ≡ flags_of matrix.now view.0) }
{
    let old = matrix.flags(alloc, before)?;
    let new = matrix.flags(alloc, view)?;
    let turned = apart_edges(alloc, matrix, before, view)?;
    Ok(TwoFlags { old, new, turned })
}

// The edges that stand in one of the two views alone.
fn apart_edges(
    alloc: Global,
    matrix: &Matrix,
    before: ViewNo,
    view: ViewNo,
) -> Result<List<EdgeNo>, NoMemory>
    requires before { IsView matrix.now before }
    requires view { IsView matrix.now view }
    ensures { IfOk result (λ edges. edges ≡ apart matrix.now (Some before.0) view.0) }
{
    let differences = matrix.differences(alloc, Some(before), view)?;
    let mut edges = List::new(alloc);
    for difference in differences.as_slice() {
        edges.push(difference.0)?;
    }
    Ok(edges)
}

/// Whether a view turned one of the edges that came or went on or off: its rule holds of it.
#[tactic(auto, using(crate::proofs::Listing::turned_more))]
pub(crate) fn is_turned(matrix: &Matrix, changes: &[(EdgeNo, bool)], view: ViewNo) -> bool
    requires view { IsView matrix.now view }
    requires within { All (λ c. c.0.0 < length matrix.now.live) changes.now }
    ensures { IsFalse result → turned_in matrix.now changes.now view.0 ≡ [] }
{
    for change in changes {
        if matrix.rule_bit(change.0, view) {
            return true;
        }
    }
    false
}

/// Those of a view in the matrix with these changes taken back, and in the matrix, made of those of the view that was stepped last,
/// if there is one: a view that differs little from it is then told without a pass over all edges. The error is want of memory.
pub(crate) fn flags_edited(
    alloc: Global,
    matrix: &Matrix,
    changes: &[(EdgeNo, bool)],
    view: ViewNo,
    kept: Option<Kept>,
) -> Result<TwoFlags, NoMemory>
    requires edits { AreEdits matrix.now changes.now }
    requires view { IsView matrix.now view }
    requires kept { IfSome kept (AreKept matrix.now) }
    ensures two { IfOk result (AreTwo (length matrix.now.live)) }
    ensures old { IfOk result (λ two. two.old.items ≡ flags_of (taken_back matrix.now changes.now) view.0) }
    ensures new { IfOk result (λ two. two.new.items ≡ flags_of matrix.now view.0) }
{
    let turned = turned_edges(alloc, matrix, changes, view)?;
    let (flags, new) = flags_twice(alloc, matrix, view, kept)?;
    let old = former_flags(matrix, flags, turned.as_slice());
    Ok(TwoFlags { old, new, turned })
}

// The flags of a view, twice.
fn flags_twice(
    alloc: Global,
    matrix: &Matrix,
    view: ViewNo,
    kept: Option<Kept>,
) -> Result<(Vec<bool>, Vec<bool>), NoMemory>
    requires view { IsView matrix.now view }
    requires kept { IfSome kept (AreKept matrix.now) }
    ensures first { IfOk result (λ flags. flags.0.items ≡ flags_of matrix.now view.0) }
    ensures second { IfOk result (λ flags. flags.1.items ≡ flags_of matrix.now view.0) }
{
    match kept {
        Some(last) => moved_flags(alloc, matrix, view, last),
        None => {
            let flags = matrix.flags(alloc, view)?;
            let copy = Vec::from_slice(alloc, &flags)?;
            Ok((copy, flags))
        }
    }
}

// The same, made of those of another view.
fn moved_flags(
    alloc: Global,
    matrix: &Matrix,
    view: ViewNo,
    kept: Kept,
) -> Result<(Vec<bool>, Vec<bool>), NoMemory>
    requires view { IsView matrix.now view }
    requires kept { AreKept matrix.now kept }
    ensures first { IfOk result (λ flags. flags.0.items ≡ flags_of matrix.now view.0) }
    ensures second { IfOk result (λ flags. flags.1.items ≡ flags_of matrix.now view.0) }
{
    let Kept { view: before, two } = kept;
    let apart = matrix.differences(alloc, Some(before), view)?;
    let same = moved(matrix, before, two.old, two.turned.as_slice());
    let first = told(same, apart.as_slice());
    let second = told(two.new, apart.as_slice());
    Ok((first, second))
}

// These flags with those of these edges as each of them is told.
fn told(flags: Vec<bool>, edges: &[(EdgeNo, bool)]) -> Vec<bool>
    requires { All (λ c. c.0.0 < length flags.items) edges.now }
    ensures { result.items ≡ fold with_flag flags.items edges.now }
{
    let mut told = flags;
    for (edge, stands) in edges {
        told[edge.0 as usize] = *stands;
    }
    told
}

// These flags with those of these edges as they are in a view.
fn moved(matrix: &Matrix, view: ViewNo, flags: Vec<bool>, edges: &[EdgeNo]) -> Vec<bool>
    requires view { IsView matrix.now view }
    requires size { length flags.items ≡ length matrix.now.live }
    requires within { All (λ e. e.0 < length matrix.now.live) edges.now }
    ensures { result.items ≡ fold (with_bit matrix.now view.0) flags.items edges.now }
{
    let mut moved = flags;
    for edge in edges {
        moved[edge.0 as usize] = matrix.bit(*edge, view);
    }
    moved
}

// Of edges that came or went those that a view turned on or off.
#[tactic(auto, using(crate::proofs::Listing::turned_more))]
fn turned_edges(
    alloc: Global,
    matrix: &Matrix,
    changes: &[(EdgeNo, bool)],
    view: ViewNo,
) -> Result<List<EdgeNo>, NoMemory>
    requires view { IsView matrix.now view }
    requires within { All (λ c. c.0.0 < length matrix.now.live) changes.now }
    ensures { IfOk result (λ edges. edges ≡ turned_in matrix.now changes.now view.0) }
{
    let mut edges = List::new(alloc);
    for change in changes {
        if matrix.rule_bit(change.0, view) {
            edges.push(change.0)?;
        }
    }
    Ok(edges)
}

// These flags with those of these edges as they were before each of them was made live, or not.
fn former_flags(matrix: &Matrix, flags: Vec<bool>, turned: &[EdgeNo]) -> Vec<bool>
    requires size { length flags.items ≡ length matrix.now.live }
    requires within { All (λ e. e.0 < length matrix.now.live) turned.now }
    ensures { result.items ≡ fold (with_former matrix.now) flags.items turned.now }
{
    let mut old = flags;
    for edge in turned {
        old[edge.0 as usize] = !matrix.live(*edge);
    }
    old
}
