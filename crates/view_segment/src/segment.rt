//! A segment.

ghost use Rattle.std.specs.Prelude.{◌≡◌, ◌<◌, ◌≤◌, ◌+◌, ◌++◌, ◌∷◌, [], true, false, length, take, All, IfOk, OnOk, OnErr, Some, None};
ghost use Rattle.std.specs.Prelude.{◌==◌};
ghost use Rattle.round_kernel.specs.Kernels.{IsKernel};
ghost use Rattle.round_kernel.specs.Plans.{MayRun};
ghost use Rattle.arc_rows.specs.RowLists.{AreOfAll};
ghost use Rattle.view_matrix.specs.Matrices.{IsView};
ghost use Rattle.view_segment.specs.Tasks.{work_of};
ghost use Rattle.view_segment.specs.Segments.{last_stepped, place_of, taken_back, HistoryOf, IsFinished, IsGiven, KeepsHistory, SegmentStands};
ghost use Rattle.view_segment.specs.Steps.{IsSetting, IsStep, flags_of, task_in, task_of};

use crate::step::{Before, Made, Setting, step_first, step_later};
use change_lists::{Change, History};
use graph_model::ViewNo;
use round_kernel::{Ended, Kernel, Plan};
use std::alloc::Global;
use std::mem;
use surge_outside::{List, NoMemory};
use vertex_lang::{Outcome, Updater};
use view_matrix::Matrix;

/// Views that are run one after the other. Of the last one that was stepped its history is kept while a view may come behind
/// it, and of each its work. While there is a view that was not stepped yet, `flags` may tell of each edge whether it is in the
/// view that was stepped last; else there is nothing.
#[derive(Debug, Drop)]
pub struct Segment {
    views: List<ViewNo>,
    works: List<u64>,
    history: Option<History>,
    flags: Option<Vec<bool>>,
}

/// What a segment keeps of the view that was stepped last.
#[derive(Debug, Drop)]
pub struct Kept {
    history: Option<History>,
    flags: Option<Vec<bool>>,
}

/// What the step of a view gives.
#[derive(Debug, Drop)]
pub struct Given {
    /// The view.
    pub view: ViewNo,
    /// The one before it in its segment, if there is one.
    pub before: Option<ViewNo>,
    /// The outcome of its plain run.
    pub outcome: Outcome,
    /// How its values after all rounds differ from those of the view before, by rising node; of a first view all of them.
    pub change: List<Change>,
    /// What the segment kept before the step, with which [`Segment::take_back`] makes it what it was.
    pub kept: Kept,
}

impl Segment {
    /// A segment without views.
    pub fn new(alloc: Global) -> Segment
        ensures views { result.views ≡ [] }
        ensures works { result.works ≡ [] }
        ensures history { result.history ≡ None }
        ensures flags { result.flags ≡ None }
    {
        Segment {
            views: List::new(alloc),
            works: List::new(alloc),
            history: None,
            flags: None,
        }
    }

    /// Adds a view at the end. The error is want of memory, and it leaves the segment as it was.
    pub fn add(&mut self, view: ViewNo) -> Result<(), NoMemory>
        ensures views { OnOk result (self.new.views ≡ self.old.views ++ (view ∷ [])) }
        ensures works { self.new.works ≡ self.old.works }
        ensures history { self.new.history ≡ self.old.history }
        ensures flags { self.new.flags ≡ self.old.flags }
        ensures err { OnErr result (self.new ≡ self.old) }
    {
        self.views.push(view)
    }

    /// Its views, in their order.
    pub fn views(&self) -> &[ViewNo]
        ensures { result.now ≡ self.now.views }
    {
        self.views.as_slice()
    }

    /// The works of those that were stepped.
    pub fn works(&self) -> &[u64]
        ensures { result.now ≡ self.now.works }
    {
        self.works.as_slice()
    }

    /// Only the first views stay, so many. It is for views that were added and are not stepped yet.
    pub fn keep_first(&mut self, count: usize)
        ensures { self.new ≡ record self.old { views = take count self.old.views } }
    {
        self.views.truncate(count);
    }

    /// Takes the last step back, given what the segment kept before it: then it is what it was.
    pub fn take_back(&mut self, kept: Kept)
        requires { 1 ≤ length self.old.works }
        ensures { self.new ≡ taken_back self.old kept }
    {
        self.works.truncate(self.works.len() - 1);
        let Kept { history, flags } = kept;
        self.history = history;
        self.flags = flags;
    }

    /// Steps the next view, and is told whether views may be added behind the last one: where none may, no history is kept of the
    /// last one, since nobody would read it. The kernel holds the arcs of all edges of the graph in the direction of the program.
    /// The error is want of memory, and it leaves the segment as it was.
    pub fn step<U: Updater>(
        &mut self,
        alloc: Global,
        plan: Plan<'_>,
        matrix: &Matrix,
        kernel: &mut Kernel,
        grows: bool,
        updater: &mut U,
    ) -> Result<Given, NoMemory>
        requires plan { MayRun plan kernel.old }
        requires along { AreOfAll plan.program.now.along plan.graph.now kernel.old.rows }
        requires matrix { length matrix.now.live ≡ length plan.graph.now.ends }
        requires views { All (IsView matrix.now) self.old.views }
        requires unfinished { length self.old.works < length self.old.views }
        requires stands { SegmentStands (task_of U.answer plan matrix.now) self.old }
        ensures kernel { OnOk result (IsKernel plan.entry.graph.now kernel.new) }
        ensures rows { kernel.new.rows ≡ kernel.old.rows }
        ensures stands { OnOk result (SegmentStands (task_of U.answer plan.entry matrix.now) self.new) }
        ensures history { OnOk result (grows ≡ true → KeepsHistory (task_of U.answer plan.entry matrix.now) self.new) }
        ensures unread { OnOk result (grows ≡ false → IsFinished self.new → self.new.history ≡ None) }
        ensures views { OnOk result (self.new.views ≡ self.old.views) }
        ensures work { IfOk result (λ given. self.new.works ≡ self.old.works ++ (work_of (task_of U.answer plan.entry matrix.now) (last_stepped self.old) given.view.0 ∷ [])) }
        ensures given { IfOk result (IsGiven (task_of U.answer plan.entry matrix.now) self.old) }
        ensures err { OnErr result (self.new ≡ self.old) }
        ensures calls { IfOk result (λ given. U.calls updater.new ≡ U.calls updater.old + work_of (task_of U.answer plan.entry matrix.now) (last_stepped self.old) given.view.0) }
    {
        let last = self.views.len() - 1;
        let unfinished = self.works.len() < last;
        let keeps = is_read(grows, unfinished);
        let setting = Setting {
            plan,
            matrix,
            keeps,
        };
        let view = self.views.as_slice()[self.works.len()];
        let (before, made) = self.step_view(alloc, setting, kernel, view, updater)?;
        let Made {
            history,
            flags,
            ended,
        } = made;
        let Ended {
            outcome,
            change,
            work,
        } = ended;
        self.works.push(work)?;
        let kept = Kept {
            history: mem::replace(&mut self.history, history),
            flags: mem::replace(&mut self.flags, unfinished.then_some(flags)),
        };
        Ok(Given {
            view,
            before,
            outcome,
            change,
            kept,
        })
    }

    // Steps a view behind the last one that was stepped. The answer tells which one that is, if there is one.
    fn step_view<U: Updater>(
        &self,
        alloc: Global,
        setting: Setting<'_>,
        kernel: &mut Kernel,
        view: ViewNo,
        updater: &mut U,
    ) -> Result<(Option<ViewNo>, Made), NoMemory>
        requires setting { IsSetting setting kernel.old }
        requires views { All (IsView setting.matrix.now) self.now.views }
        requires view { IsView setting.matrix.now view }
        requires stands { SegmentStands (task_in U.answer setting) self.now }
        requires history { KeepsHistory (task_in U.answer setting) self.now }
        ensures kernel { OnOk result (IsKernel setting.entry.plan.graph.now kernel.new) }
        ensures rows { kernel.new.rows ≡ kernel.old.rows }
        ensures before { IfOk result (λ made. place_of made.0 ≡ last_stepped self.now) }
        ensures step { IfOk result (λ made. IsStep (task_in U.answer setting.entry) (last_stepped self.now) view.0 made.1.ended) }
        ensures kept { IfOk result (λ made. setting.entry.keeps ≡ true → HistoryOf (task_in U.answer setting.entry) (Some view.0) made.1.history) }
        ensures passed { IfOk result (λ made. setting.entry.keeps ≡ false → made.1.history ≡ None) }
        ensures flags { IfOk result (λ made. made.1.flags.items ≡ flags_of setting.entry.matrix.now view.0) }
        ensures calls { IfOk result (λ made. U.calls updater.new ≡ U.calls updater.old + made.1.ended.work) }
    {
        match &self.history {
            None => {
                let made = step_first(alloc, setting, kernel, view, updater)?;
                Ok((None, made))
            }
            Some(history) => {
                let before = self.views.as_slice()[self.works.len() - 1];
                let last = Before {
                    view: before,
                    history,
                    flags: &self.flags,
                };
                let made = step_later(alloc, setting, kernel, last, view, updater)?;
                Ok((Some(before), made))
            }
        }
    }
}

// Whether the history of a view will be read: views may come behind it, or do.
fn is_read(grows: bool, unfinished: bool) -> bool
    ensures grows { grows ≡ true → result ≡ true }
    ensures unfinished { unfinished ≡ true → result ≡ true }
    ensures unread { grows ≡ false → unfinished ≡ false → result ≡ false }
{
    grows || unfinished
}
