//! The step of one view.

ghost use Rattle.std.specs.Prelude.{◌≡◌, ◌+◌, true, false, Some, None, IfOk, IfSome, OnOk};
ghost use Rattle.vertex_lang.specs.Lone.{number_of};
ghost use Rattle.round_kernel.specs.Histories.{IsHistory};
ghost use Rattle.round_kernel.specs.Kernels.{IsKernel};
ghost use Rattle.view_matrix.specs.Matrices.{IsView};
ghost use Rattle.view_segment.specs.Segments.{HistoryOf};
ghost use Rattle.view_segment.specs.Tasks.{view_arcs};
ghost use Rattle.view_segment.specs.Steps.{IsSetting, IsStep, flags_of, task_in};

use crate::flags::{turned_edges, turned_flags};
use change_lists::History;
use graph_model::ViewNo;
use round_kernel::{Behind, Ended, Kernel, Plan, Stepped};
use std::alloc::Global;
use surge_outside::NoMemory;
use vertex_lang::Updater;
use view_matrix::Matrix;

/// What is the same for all views of a segment, and whether the history of the view that is stepped is kept.
#[derive(Clone, Copy)]
pub(crate) struct Setting<'a> {
    pub(crate) plan: Plan<'a>,
    pub(crate) matrix: &'a Matrix,
    pub(crate) keeps: bool,
}

/// The view that was stepped last: its history, and its flags where they are kept.
#[derive(Clone, Copy)]
pub(crate) struct Before<'a> {
    pub(crate) view: ViewNo,
    pub(crate) history: &'a History,
    pub(crate) flags: &'a Option<Vec<bool>>,
}

/// What the step of a view gives, with its flags, and with its history where that is kept.
#[derive(Drop)]
pub(crate) struct Made {
    pub(crate) history: Option<History>,
    pub(crate) flags: Vec<bool>,
    pub(crate) ended: Ended,
}

// The same, with the history that the kernel gave.
fn kept(stepped: Stepped, flags: Vec<bool>) -> Made
    ensures history { result.history ≡ Some stepped.history }
    ensures flags { result.flags ≡ flags }
    ensures outcome { result.ended.outcome ≡ stepped.outcome }
    ensures change { result.ended.change ≡ stepped.change }
    ensures work { result.ended.work ≡ stepped.work }
{
    let Stepped {
        history,
        outcome,
        change,
        work,
    } = stepped;
    let ended = Ended {
        outcome,
        change,
        work,
    };
    Made {
        history: Some(history),
        flags,
        ended,
    }
}

// And without one.
fn passed(ended: Ended, flags: Vec<bool>) -> Made
    ensures history { result.history ≡ None }
    ensures flags { result.flags ≡ flags }
    ensures ended { result.ended ≡ ended }
{
    Made {
        history: None,
        flags,
        ended,
    }
}

/// Steps a view that none stands before. The error is want of memory.
pub(crate) fn step_first<U: Updater>(
    alloc: Global,
    setting: Setting<'_>,
    kernel: &mut Kernel,
    view: ViewNo,
    updater: &mut U,
) -> Result<Made, NoMemory>
    requires setting { IsSetting setting kernel.old }
    requires view { IsView setting.matrix.now view }
    ensures step { IfOk result (λ made. IsStep (task_in U.answer setting.entry) None view.0 made.ended) }
    ensures kept { IfOk result (λ made. setting.entry.keeps ≡ true → HistoryOf (task_in U.answer setting.entry) (Some view.0) made.history) }
    ensures passed { IfOk result (λ made. setting.entry.keeps ≡ false → made.history ≡ None) }
    ensures flags { IfOk result (λ made. made.flags.items ≡ flags_of setting.entry.matrix.now view.0) }
    ensures kernel { OnOk result (IsKernel setting.entry.plan.graph.now kernel.new) }
    ensures rows { kernel.new.rows ≡ kernel.old.rows }
    ensures calls { IfOk result (λ made. U.calls updater.new ≡ U.calls updater.old + made.ended.work) }
{
    let count = setting.matrix.size(view);
    let edges = setting.matrix.flags(alloc, view)?;
    if setting.keeps {
        let stepped = kernel.first_step(alloc, setting.plan, &edges, count, updater)?;
        return Ok(kept(stepped, edges));
    }
    let ended = kernel.only_step(alloc, setting.plan, &edges, count, updater)?;
    Ok(passed(ended, edges))
}

/// Steps a view behind another one. The error is want of memory.
pub(crate) fn step_later<U: Updater>(
    alloc: Global,
    setting: Setting<'_>,
    kernel: &mut Kernel,
    before: Before<'_>,
    view: ViewNo,
    updater: &mut U,
) -> Result<Made, NoMemory>
    requires setting { IsSetting setting kernel.old }
    requires before { IsView setting.matrix.now before.view }
    requires view { IsView setting.matrix.now view }
    requires history { IsHistory U.answer setting.plan.program.now setting.plan.graph.now (Some (view_arcs (task_in U.answer setting) before.view.0)) (number_of setting.plan.rounds) before.history.now }
    requires kept { IfSome before.flags.now (λ flags. flags.items ≡ flags_of setting.matrix.now before.view.0) }
    ensures step { IfOk result (λ made. IsStep (task_in U.answer setting.entry) (Some before.entry.view.0) view.0 made.ended) }
    ensures kept { IfOk result (λ made. setting.entry.keeps ≡ true → HistoryOf (task_in U.answer setting.entry) (Some view.0) made.history) }
    ensures passed { IfOk result (λ made. setting.entry.keeps ≡ false → made.history ≡ None) }
    ensures flags { IfOk result (λ made. made.flags.items ≡ flags_of setting.entry.matrix.now view.0) }
    ensures kernel { OnOk result (IsKernel setting.entry.plan.graph.now kernel.new) }
    ensures rows { kernel.new.rows ≡ kernel.old.rows }
    ensures calls { IfOk result (λ made. U.calls updater.new ≡ U.calls updater.old + made.ended.work) }
{
    match before.flags {
        Some(flags) => step_behind(alloc, setting, kernel, before, flags, view, updater),
        None => {
            let flags = setting.matrix.flags(alloc, before.view)?;
            step_behind(alloc, setting, kernel, before, &flags, view, updater)
        }
    }
}

// Steps a view behind another one, given the flags of that one.
fn step_behind<U: Updater>(
    alloc: Global,
    setting: Setting<'_>,
    kernel: &mut Kernel,
    before: Before<'_>,
    old: &[bool],
    view: ViewNo,
    updater: &mut U,
) -> Result<Made, NoMemory>
    requires setting { IsSetting setting kernel.old }
    requires before { IsView setting.matrix.now before.view }
    requires view { IsView setting.matrix.now view }
    requires history { IsHistory U.answer setting.plan.program.now setting.plan.graph.now (Some (view_arcs (task_in U.answer setting) before.view.0)) (number_of setting.plan.rounds) before.history.now }
    requires old { old.now ≡ flags_of setting.matrix.now before.view.0 }
    ensures step { IfOk result (λ made. IsStep (task_in U.answer setting.entry) (Some before.entry.view.0) view.0 made.ended) }
    ensures kept { IfOk result (λ made. setting.entry.keeps ≡ true → HistoryOf (task_in U.answer setting.entry) (Some view.0) made.history) }
    ensures passed { IfOk result (λ made. setting.entry.keeps ≡ false → made.history ≡ None) }
    ensures flags { IfOk result (λ made. made.flags.items ≡ flags_of setting.entry.matrix.now view.0) }
    ensures kernel { OnOk result (IsKernel setting.entry.plan.graph.now kernel.new) }
    ensures rows { kernel.new.rows ≡ kernel.old.rows }
    ensures calls { IfOk result (λ made. U.calls updater.new ≡ U.calls updater.old + made.ended.work) }
{
    let matrix = setting.matrix;
    let turned = turned_edges(alloc, matrix, before.view, view)?;
    let twice = matrix.size(before.view) + matrix.size(view) + turned.len() as u64;
    let new = turned_flags(alloc, old, turned.as_slice())?;
    let behind = Behind {
        history: before.history,
        old,
        new: &new,
        turned: turned.as_slice(),
    };
    if setting.keeps {
        let stepped = kernel.next_step(alloc, setting.plan, behind, twice / 2, updater)?;
        return Ok(kept(stepped, new));
    }
    let ended = kernel.last_step(alloc, setting.plan, behind, twice / 2, updater)?;
    Ok(passed(ended, new))
}
