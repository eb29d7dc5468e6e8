//! The step of a view behind which none comes.

ghost use Rattle.std.specs.Prelude.{◌≡◌, ◌+◌, length, IfOk, OnOk};
ghost use Rattle.arc_rows.specs.RowLists.{AreAlong};
ghost use Rattle.arc_rows.specs.Views.{arcs_in};
ghost use Rattle.round_kernel.specs.Kernels.{IsKernel};
ghost use Rattle.round_kernel.specs.Plans.{IsBehind, IsLast, IsOnly, MayRun};

use crate::kernel::Kernel;
use crate::plan::{Behind, Plan};
use change_lists::Change;
use std::alloc::Global;
use surge_outside::{List, NoMemory};
use vertex_lang::{Outcome, Updater};

/// What a step gives of a view behind which none comes: all that [`Stepped`](crate::Stepped) has, but the history, which nobody reads.
#[derive(Debug, Drop)]
pub struct Ended {
    /// The outcome of the plain run of the view.
    pub outcome: Outcome,
    /// How its values after all rounds differ from those of the view before; of a first view all of them.
    pub change: List<Change>,
    /// Its work, which is the number of calls of the updater in the step.
    pub work: u64,
}

impl Kernel {
    /// Steps a view that none stands before and none comes behind, as [`Kernel::first_step`] does, but keeps no history: of its rounds
    /// only the changes of the last one are there at any time. The error is want of memory.
    pub fn only_step<U: Updater>(
        &mut self,
        alloc: Global,
        plan: Plan<'_>,
        edges: &[bool],
        count: u64,
        updater: &mut U,
    ) -> Result<Ended, NoMemory>
        requires plan { MayRun plan self.old }
        requires edges { length edges.now ≡ length plan.graph.now.ends }
        ensures kernel { OnOk result (IsKernel plan.entry.graph.now self.new) }
        ensures rows { self.new.rows ≡ self.old.rows }
        ensures step { IfOk result (IsOnly U.answer plan.entry (arcs_in self.old.rows.by_head edges.now)) }
        ensures calls { IfOk result (λ s. U.calls updater.new ≡ U.calls updater.old + s.work) }
    {
        let logged = self.first_logged(alloc, plan, edges, count, false, updater)?;
        Ok(logged.ended)
    }

    /// Steps a view behind another one where none comes behind it, as [`Kernel::next_step`] does, but keeps no history. The error is
    /// want of memory.
    pub fn last_step<U: Updater>(
        &mut self,
        alloc: Global,
        plan: Plan<'_>,
        behind: Behind<'_>,
        count: u64,
        updater: &mut U,
    ) -> Result<Ended, NoMemory>
        requires plan { MayRun plan self.old }
        requires along { AreAlong plan.program.now.along plan.graph.now self.old.rows }
        requires behind { IsBehind U.answer plan self.old behind }
        ensures kernel { OnOk result (IsKernel plan.entry.graph.now self.new) }
        ensures rows { self.new.rows ≡ self.old.rows }
        ensures step { IfOk result (IsLast U.answer plan.entry (arcs_in self.old.rows.by_head behind.entry.old.now) (arcs_in self.old.rows.by_head behind.entry.new.now)) }
        ensures calls { IfOk result (λ s. U.calls updater.new ≡ U.calls updater.old + s.work) }
    {
        let logged = self.next_logged(alloc, plan, behind, count, false, updater)?;
        Ok(logged.ended)
    }
}
