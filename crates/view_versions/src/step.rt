//! The step of one view.

ghost use Rattle.std.specs.Prelude.{◌≡◌, ◌+◌, length, Some, None, IfOk, OnOk};
ghost use Rattle.vertex_lang.specs.Lone.{number_of};
ghost use Rattle.arc_rows.specs.Views.{arcs_in};
ghost use Rattle.round_kernel.specs.Histories.{IsHistory};
ghost use Rattle.round_kernel.specs.Kernels.{IsKernel};
ghost use Rattle.view_matrix.specs.Matrices.{IsView};
ghost use Rattle.view_segment.specs.Tasks.{view_arcs};
ghost use Rattle.view_versions.specs.Edits.{AreEdits, taken_back};
ghost use Rattle.view_versions.specs.Flags.{AreTwo, flags_of};
ghost use Rattle.view_versions.specs.Runs.{IsSetting, StepIn, task_in, task_before};

use crate::flags::{TwoFlags, flags_between};
use crate::run::ViewRun;
use change_lists::History;
use graph_model::{EdgeNo, Graph, ViewNo};
use round_kernel::{Behind, Kernel, Plan, Stepped};
use std::alloc::Global;
use surge_outside::NoMemory;
use vertex_lang::{Program, Rounds, Updater};
use view_matrix::Matrix;

/// What is the same for all views of a run.
#[derive(Clone, Copy)]
pub(crate) struct Setting<'a> {
    pub(crate) program: &'a Program,
    pub(crate) graph: &'a Graph,
    pub(crate) rounds: Rounds,
    pub(crate) matrix: &'a Matrix,
}

/// Steps a view that none stands before. The error is want of memory.
pub(crate) fn step_first<U: Updater>(
    alloc: Global,
    setting: Setting<'_>,
    kernel: &mut Kernel,
    view: ViewNo,
    updater: &mut U,
) -> Result<Stepped, NoMemory>
    requires setting { IsSetting setting kernel.old }
    requires view { IsView setting.matrix.now view }
    ensures step { IfOk result (StepIn U.answer setting.entry None (view_arcs (task_in U.answer setting.entry) view.0)) }
    ensures kernel { OnOk result (IsKernel setting.entry.graph.now kernel.new) }
    ensures rows { kernel.new.rows ≡ kernel.old.rows }
    ensures calls { IfOk result (λ s. U.calls updater.new ≡ U.calls updater.old + s.work) }
{
    let plan = Plan {
        program: setting.program,
        graph: setting.graph,
        rounds: setting.rounds,
    };
    let edges = setting.matrix.flags(alloc, view)?;
    let count = u64::from(setting.graph.edge_count());
    kernel.first_step(alloc, plan, &edges, count, updater)
}

/// Steps a view behind another one, given the history of that one. The error is want of memory.
pub(crate) fn step_behind<U: Updater>(
    alloc: Global,
    setting: Setting<'_>,
    kernel: &mut Kernel,
    before: ViewNo,
    history: &History,
    view: ViewNo,
    updater: &mut U,
) -> Result<Stepped, NoMemory>
    requires setting { IsSetting setting kernel.old }
    requires before { IsView setting.matrix.now before }
    requires view { IsView setting.matrix.now view }
    requires history { IsHistory U.answer setting.program.now setting.graph.now (Some (view_arcs (task_in U.answer setting) before.0)) (number_of setting.rounds) history.now }
    ensures step { IfOk result (StepIn U.answer setting.entry (Some (view_arcs (task_in U.answer setting.entry) before.0)) (view_arcs (task_in U.answer setting.entry) view.0)) }
    ensures kernel { OnOk result (IsKernel setting.entry.graph.now kernel.new) }
    ensures rows { kernel.new.rows ≡ kernel.old.rows }
    ensures calls { IfOk result (λ s. U.calls updater.new ≡ U.calls updater.old + s.work) }
{
    let two = flags_between(alloc, setting.matrix, before, view)?;
    step_over(alloc, setting, kernel, history, &two, updater)
}

/// Steps a view from its own version in the matrix with these changes taken back, given what is kept of it there and the flags of
/// both. The error is want of memory.
pub(crate) fn step_edited<U: Updater>(
    alloc: Global,
    setting: Setting<'_>,
    kernel: &mut Kernel,
    run: &ViewRun,
    changes: &[(EdgeNo, bool)],
    two: &TwoFlags,
    updater: &mut U,
) -> Result<Stepped, NoMemory>
    requires setting { IsSetting setting kernel.old }
    requires edits { AreEdits setting.matrix.now changes.now }
    requires two { AreTwo (length setting.matrix.now.live) two.now }
    requires old { two.now.old.items ≡ flags_of (taken_back setting.matrix.now changes.now) run.now.view.0 }
    requires new { two.now.new.items ≡ flags_of setting.matrix.now run.now.view.0 }
    requires history { IsHistory U.answer setting.program.now setting.graph.now (Some (view_arcs (task_before U.answer setting changes.now) run.now.view.0)) (number_of setting.rounds) run.now.history }
    ensures step { IfOk result (StepIn U.answer setting.entry (Some (view_arcs (task_before U.answer setting.entry changes.now) run.now.view.0)) (view_arcs (task_in U.answer setting.entry) run.now.view.0)) }
    ensures kernel { OnOk result (IsKernel setting.entry.graph.now kernel.new) }
    ensures rows { kernel.new.rows ≡ kernel.old.rows }
    ensures calls { IfOk result (λ s. U.calls updater.new ≡ U.calls updater.old + s.work) }
{
    step_over(alloc, setting, kernel, &run.history, two, updater)
}

// The step from a view to another, both told by flags.
fn step_over<U: Updater>(
    alloc: Global,
    setting: Setting<'_>,
    kernel: &mut Kernel,
    history: &History,
    two: &TwoFlags,
    updater: &mut U,
) -> Result<Stepped, NoMemory>
    requires setting { IsSetting setting kernel.old }
    requires two { AreTwo (length setting.graph.now.ends) two.now }
    requires history { IsHistory U.answer setting.program.now setting.graph.now (Some (arcs_in kernel.old.rows.by_head two.now.old.items)) (number_of setting.rounds) history.now }
    ensures step { IfOk result (StepIn U.answer setting.entry (Some (arcs_in kernel.old.rows.by_head two.now.old.items)) (arcs_in kernel.old.rows.by_head two.now.new.items)) }
    ensures kernel { OnOk result (IsKernel setting.entry.graph.now kernel.new) }
    ensures rows { kernel.new.rows ≡ kernel.old.rows }
    ensures calls { IfOk result (λ s. U.calls updater.new ≡ U.calls updater.old + s.work) }
{
    let plan = Plan {
        program: setting.program,
        graph: setting.graph,
        rounds: setting.rounds,
    };
    let behind = Behind {
        history,
        old: &two.old,
        new: &two.new,
        turned: two.turned.as_slice(),
    };
    let count = u64::from(setting.graph.edge_count());
    kernel.next_step(alloc, plan, behind, count, updater)
}
