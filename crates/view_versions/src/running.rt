//! Views that are run one behind the other, and runs that are brought to a matrix in which edges came or went.

ghost use Rattle.std.specs.Prelude.{◌≡◌, ◌+◌, ◌++◌, ◌∷◌, [], map, sum, All, IfOk, IfSome, OnOk};
ghost use Rattle.round_kernel.specs.Kernels.{IsKernel};
ghost use Rattle.view_matrix.specs.Matrices.{IsView};
ghost use Rattle.view_order.specs.Greedy.{numbers};
ghost use Rattle.view_segment.specs.Segments.{last_of};
ghost use Rattle.view_segment.specs.Tasks.{arcs_before, view_arcs, work_of, works_from};
ghost use Rattle.view_versions.specs.Edits.{AreEdits};
ghost use Rattle.view_versions.specs.Flags.{AreKept};
ghost use Rattle.view_versions.specs.Runs.{HoldsRun, IsSetting, StepIn, task_before, task_in};
ghost use Rattle.view_versions.specs.Touched.{edit_work, edit_works};

use crate::flags::{Kept, flags_edited, is_turned};
use crate::run::ViewRun;
use crate::step::{Setting, step_behind, step_edited, step_first};
use graph_model::{EdgeNo, ViewNo};
use round_kernel::{Kernel, Stepped};
use std::alloc::Global;
use surge_outside::NoMemory;
use vertex_lang::Updater;

// Steps a view behind the last of these runs, if there is one.
fn step_next<U: Updater>(
    alloc: Global,
    setting: Setting<'_>,
    kernel: &mut Kernel,
    runs: &[ViewRun],
    view: ViewNo,
    updater: &mut U,
) -> Result<Stepped, NoMemory>
    requires setting { IsSetting setting kernel.old }
    requires views { All (λ run. IsView setting.matrix.now run.view) runs.now }
    requires view { IsView setting.matrix.now view }
    requires holds { All (HoldsRun (task_in U.answer setting)) runs.now }
    ensures step { IfOk result (StepIn U.answer setting.entry (arcs_before (task_in U.answer setting.entry) (last_of (numbers (map (λ run. run.view) runs.now)))) (view_arcs (task_in U.answer setting.entry) view.0)) }
    ensures kernel { OnOk result (IsKernel setting.entry.graph.now kernel.new) }
    ensures rows { kernel.new.rows ≡ kernel.old.rows }
    ensures calls { IfOk result (λ s. U.calls updater.new ≡ U.calls updater.old + s.work) }
{
    if runs.is_empty() {
        return step_first(alloc, setting, kernel, view, updater);
    }
    let last = &runs[runs.len() - 1];
    step_behind(
        alloc,
        setting,
        kernel,
        last.view,
        &last.history,
        view,
        updater,
    )
}

// Runs a view behind the last of these runs, and adds its run.
fn run_next<U: Updater>(
    alloc: Global,
    setting: Setting<'_>,
    kernel: &mut Kernel,
    runs: &mut Vec<ViewRun>,
    view: ViewNo,
    updater: &mut U,
) -> Result<(), NoMemory>
    requires setting { IsSetting setting kernel.old }
    requires views { All (λ run. IsView setting.matrix.now run.view) runs.old.items }
    requires view { IsView setting.matrix.now view }
    requires holds { All (HoldsRun (task_in U.answer setting)) runs.old.items }
    ensures views { OnOk result (map (λ run. run.view) runs.new.items ≡ map (λ run. run.view) runs.old.items ++ view ∷ []) }
    ensures holds { OnOk result (All (HoldsRun (task_in U.answer setting.entry)) runs.new.items) }
    ensures within { OnOk result (All (λ run. IsView setting.entry.matrix.now run.view) runs.new.items) }
    ensures kernel { OnOk result (IsKernel setting.entry.graph.now kernel.new) }
    ensures rows { kernel.new.rows ≡ kernel.old.rows }
    ensures calls { OnOk result (U.calls updater.new ≡ U.calls updater.old + work_of (task_in U.answer setting.entry) (last_of (numbers (map (λ run. run.view) runs.old.items))) view.0) }
{
    let stepped = step_next(alloc, setting, kernel, runs, view, updater)?;
    runs.push(ViewRun {
        view,
        history: stepped.history,
        outcome: stepped.outcome,
    })?;
    Ok(())
}

/// Runs these views behind the last of these runs, one behind the other, and adds their runs. The error is want of memory; then
/// the runs may be any.
pub(crate) fn run_views<U: Updater>(
    alloc: Global,
    setting: Setting<'_>,
    kernel: &mut Kernel,
    runs: &mut Vec<ViewRun>,
    views: &[ViewNo],
    updater: &mut U,
) -> Result<(), NoMemory>
    requires setting { IsSetting setting kernel.old }
    requires views { All (λ run. IsView setting.matrix.now run.view) runs.old.items }
    requires new { All (IsView setting.matrix.now) views.now }
    requires holds { All (HoldsRun (task_in U.answer setting)) runs.old.items }
    ensures views { OnOk result (map (λ run. run.view) runs.new.items ≡ map (λ run. run.view) runs.old.items ++ views.now) }
    ensures holds { OnOk result (All (HoldsRun (task_in U.answer setting.entry)) runs.new.items) }
    ensures kernel { OnOk result (IsKernel setting.entry.graph.now kernel.new) }
    ensures rows { kernel.new.rows ≡ kernel.old.rows }
    ensures calls { OnOk result (U.calls updater.new ≡ U.calls updater.old + sum (works_from (task_in U.answer setting.entry) (last_of (numbers (map (λ run. run.view) runs.old.items))) (numbers views.now))) }
{
    for view in views {
        run_next(alloc, setting, kernel, runs, *view, updater)?;
    }
    Ok(())
}

// Brings a run to the matrix, from the one with these changes taken back, and keeps the flags of its view for the next one. Where the
// view turned no edge on or off, it only looks.
fn renew<U: Updater>(
    alloc: Global,
    setting: Setting<'_>,
    kernel: &mut Kernel,
    run: &mut ViewRun,
    changes: &[(EdgeNo, bool)],
    kept: &mut Option<Kept>,
    updater: &mut U,
) -> Result<(), NoMemory>
    requires setting { IsSetting setting kernel.old }
    requires edits { AreEdits setting.matrix.now changes.now }
    requires view { IsView setting.matrix.now run.old.view }
    requires holds { HoldsRun (task_before U.answer setting changes.now) run.old }
    requires kept { IfSome kept.old (AreKept setting.matrix.now) }
    ensures view { run.new.view ≡ run.old.view }
    ensures holds { OnOk result (HoldsRun (task_in U.answer setting.entry) run.new) }
    ensures kept { OnOk result (IfSome kept.new (AreKept setting.entry.matrix.now)) }
    ensures kernel { OnOk result (IsKernel setting.entry.graph.now kernel.new) }
    ensures rows { kernel.new.rows ≡ kernel.old.rows }
    ensures calls { OnOk result (U.calls updater.new ≡ U.calls updater.old + edit_work (task_before U.answer setting.entry changes.now) (task_in U.answer setting.entry) run.old.view.0) }
{
    if !is_turned(setting.matrix, changes, run.view) {
        return Ok(());
    }
    let two = flags_edited(alloc, setting.matrix, changes, run.view, kept.take())?;
    let stepped = step_edited(alloc, setting, kernel, run, changes, &two, updater)?;
    run.history = stepped.history;
    run.outcome = stepped.outcome;
    *kept = Some(Kept {
        view: run.view,
        two,
    });
    Ok(())
}

/// Brings each of these runs to the matrix, from the one with these changes taken back. The error is want of memory; then the runs
/// may be any.
pub(crate) fn renew_all<U: Updater>(
    alloc: Global,
    setting: Setting<'_>,
    kernel: &mut Kernel,
    runs: &mut Vec<ViewRun>,
    changes: &[(EdgeNo, bool)],
    updater: &mut U,
) -> Result<(), NoMemory>
    requires setting { IsSetting setting kernel.old }
    requires edits { AreEdits setting.matrix.now changes.now }
    requires views { All (λ run. IsView setting.matrix.now run.view) runs.old.items }
    requires holds { All (HoldsRun (task_before U.answer setting changes.now)) runs.old.items }
    ensures views { OnOk result (map (λ run. run.view) runs.new.items ≡ map (λ run. run.view) runs.old.items) }
    ensures holds { OnOk result (All (HoldsRun (task_in U.answer setting.entry)) runs.new.items) }
    ensures kernel { OnOk result (IsKernel setting.entry.graph.now kernel.new) }
    ensures rows { kernel.new.rows ≡ kernel.old.rows }
    ensures calls { OnOk result (U.calls updater.new ≡ U.calls updater.old + edit_works (task_before U.answer setting.entry changes.now) (task_in U.answer setting.entry) (numbers (map (λ run. run.view) runs.old.items))) }
{
    let mut kept = None;
    for place in 0..runs.len() {
        renew(
            alloc,
            setting,
            kernel,
            &mut runs[place],
            changes,
            &mut kept,
            updater,
        )?;
    }
    Ok(())
}
