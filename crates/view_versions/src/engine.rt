//! The engine over versions.

ghost use Rattle.std.specs.List.{position};
ghost use Rattle.std.specs.Prelude.{◌≡◌, ◌≤◌, ◌+◌, ◌*◌, ◌++◌, ◌==◌, [], false, true, length, sum, All, Contains, IfOk, OnOk, OnErr, Some, None};
ghost use Rattle.vertex_lang.specs.Expressions.{Answer};
ghost use Rattle.vertex_lang.specs.Leaves.{IsChecked};
ghost use Rattle.vertex_lang.specs.Lone.{number_of};
ghost use Rattle.result_tables.specs.TableText.{table_of};
ghost use Rattle.view_matrix.specs.Matrices.{MatrixData, IsView};
ghost use Rattle.view_order.specs.Greedy.{numbers};
ghost use Rattle.view_segment.specs.Segments.{last_of};
ghost use Rattle.view_segment.specs.Tasks.{lone_of, works_from, works_of};
ghost use Rattle.view_versions.specs.Edits.{AreEdits, taken_back};
ghost use Rattle.view_versions.specs.Engines.{IsEngine, IsKernelOf, IsSameRun, Stands, most_works, task_of, views_run};
ghost use Rattle.view_versions.specs.Runs.{HoldsRun};
ghost use Rattle.view_versions.specs.Touched.{edit_works, touched};

use crate::run::ViewRun;
use crate::running::{renew_all, run_views};
use crate::step::Setting;
use crate::values::table_of;
use graph_model::{EdgeNo, Graph, ViewNo};
use result_tables::Table;
use round_kernel::Kernel;
use std::alloc::Global;
use surge_outside::{List, NoMemory};
use vertex_lang::{Along, Program, Rounds, Updater};
use view_matrix::Matrix;

/// The run of a program on views in an order, each kept round by round, so that it follows edges that come and go. After want of
/// memory in a call that writes it is spent.
#[derive(Drop)]
pub struct VersionEngine<'g> {
    alloc: Global,
    graph: &'g Graph,
    program: &'g Program,
    rounds: Rounds,
    order: List<ViewNo>,
    runs: Vec<ViewRun>,
    kernel: Option<Kernel>,
    spent: bool,
}

impl<'g> VersionEngine<'g> {
    /// A run on these views, in this order, none of which is run yet: [`VersionEngine::first`] does. The rounds are 1 to 1,000,000.
    /// The error is want of memory.
    pub fn new(
        alloc: Global,
        graph: &'g Graph,
        program: &'g Program,
        order: &[ViewNo],
        rounds: Rounds,
    ) -> Result<VersionEngine<'g>, NoMemory>
        requires checked { IsChecked program.now graph.now }
        requires some { 1 ≤ number_of rounds }
        requires limit { number_of rounds ≤ 1_000_000 }
        ensures engine { IfOk result IsEngine }
        ensures graph { IfOk result (λ e. e.graph.now ≡ graph.now) }
        ensures program { IfOk result (λ e. e.program.now ≡ program.now) }
        ensures rounds { IfOk result (λ e. e.rounds ≡ rounds) }
        ensures order { IfOk result (λ e. e.order ≡ order.now) }
        ensures none { IfOk result (λ e. views_run e ≡ []) }
        ensures fresh { IfOk result (λ e. e.spent ≡ false) }
    {
        Ok(VersionEngine {
            alloc,
            graph,
            program,
            rounds,
            order: copied(alloc, order)?,
            runs: Vec::new(alloc),
            kernel: None,
            spent: false,
        })
    }

    /// Whether a call that writes wanted memory and found none.
    pub fn is_spent(&self) -> bool
        ensures { result ≡ self.now.spent }
    {
        self.spent
    }

    /// The views, in the order in which they are run.
    pub fn order(&self) -> &List<ViewNo>
        ensures { result.now ≡ self.now.order }
    {
        &self.order
    }

    /// Runs the views over a matrix, one behind the other. It is called once, before an edit. The error is want of memory; then the
    /// engine is spent.
    pub fn first<U: Updater>(&mut self, matrix: &Matrix, updater: &mut U) -> Result<(), NoMemory>
        requires fresh { self.old.spent ≡ false }
        requires engine { IsEngine self.old }
        requires none { views_run self.old ≡ [] }
        requires matrix { length matrix.now.live ≡ length self.old.graph.now.ends }
        requires views { All (IsView matrix.now) self.old.order }
        ensures engine { OnOk result (IsEngine self.new) }
        ensures fresh { OnOk result (self.new.spent ≡ false) }
        ensures spent { OnErr result (self.new.spent ≡ true) }
        ensures run { IsSameRun self.old self.new }
        ensures order { self.new.order ≡ self.old.order }
        ensures stands { OnOk result (Stands U.answer matrix.now self.new) }
        ensures calls { OnOk result (U.calls updater.new ≡ U.calls updater.old + sum (works_of (task_of U.answer matrix.now self.old) (numbers self.old.order))) }
        ensures most { OnOk result (U.calls updater.new ≤ U.calls updater.old + most_works self.old (length self.old.order)) }
    {
        match self.run_first(matrix, updater) {
            Ok(()) => Ok(()),
            Err(NoMemory) => {
                self.spent = true;
                Err(NoMemory)
            }
        }
    }

    /// Brings each view to a matrix, from the one with these changes taken back: each change names an edge and whether it is live in
    /// the matrix now. A view in which none of these edges came or went is looked at and costs nothing else. The error is want of
    /// memory; then the engine is spent.
    pub fn advance<U: Updater>(
        &mut self,
        matrix: &Matrix,
        changes: &[(EdgeNo, bool)],
        updater: &mut U,
    ) -> Result<(), NoMemory>
        requires fresh { self.old.spent ≡ false }
        requires engine { IsEngine self.old }
        requires edits { AreEdits matrix.now changes.now }
        requires stands { Stands U.answer (taken_back matrix.now changes.now) self.old }
        ensures engine { OnOk result (IsEngine self.new) }
        ensures fresh { OnOk result (self.new.spent ≡ false) }
        ensures spent { OnErr result (self.new.spent ≡ true) }
        ensures run { IsSameRun self.old self.new }
        ensures order { self.new.order ≡ self.old.order }
        ensures stands { OnOk result (Stands U.answer matrix.now self.new) }
        ensures calls { OnOk result (U.calls updater.new ≡ U.calls updater.old + edit_works (task_of U.answer (taken_back matrix.now changes.now) self.old) (task_of U.answer matrix.now self.old) (numbers self.old.order)) }
        ensures most { OnOk result (U.calls updater.new ≤ U.calls updater.old + touched (task_of U.answer (taken_back matrix.now changes.now) self.old) (task_of U.answer matrix.now self.old) (numbers self.old.order) * (length self.old.order * number_of self.old.rounds)) }
    {
        match self.renew(matrix, changes, updater) {
            Ok(()) => Ok(()),
            Err(NoMemory) => {
                self.spent = true;
                Err(NoMemory)
            }
        }
    }

    /// Runs more views of a matrix behind the last one of its own, which stay as they are. The error is want of memory; then the
    /// engine is spent.
    pub fn more<U: Updater>(
        &mut self,
        matrix: &Matrix,
        views: &[ViewNo],
        updater: &mut U,
    ) -> Result<(), NoMemory>
        requires fresh { self.old.spent ≡ false }
        requires engine { IsEngine self.old }
        requires stands { Stands U.answer matrix.now self.old }
        requires views { All (IsView matrix.now) views.now }
        ensures engine { OnOk result (IsEngine self.new) }
        ensures fresh { OnOk result (self.new.spent ≡ false) }
        ensures spent { OnErr result (self.new.spent ≡ true) }
        ensures run { IsSameRun self.old self.new }
        ensures order { OnOk result (self.new.order ≡ self.old.order ++ views.now) }
        ensures stands { OnOk result (Stands U.answer matrix.now self.new) }
        ensures calls { OnOk result (U.calls updater.new ≡ U.calls updater.old + sum (works_from (task_of U.answer matrix.now self.old) (last_of (numbers self.old.order)) (numbers views.now))) }
        ensures most { OnOk result (U.calls updater.new ≤ U.calls updater.old + most_works self.old (length views.now)) }
    {
        match self.run_more(matrix, views, updater) {
            Ok(()) => Ok(()),
            Err(NoMemory) => {
                self.spent = true;
                Err(NoMemory)
            }
        }
    }

    /// Gives back the working lists that only calls that write use. The next such call makes them again.
    pub fn rest(&mut self)
        ensures engine { IsEngine self.old → IsEngine self.new }
        ensures run { IsSameRun self.old self.new }
        ensures order { self.new.order ≡ self.old.order }
        ensures views { views_run self.new ≡ views_run self.old }
        ensures spent { self.new.spent ≡ self.old.spent }
        ensures stands { (answer : Answer) (m : MatrixData) → Stands answer m self.old → Stands answer m self.new }
    {
        self.kernel = None;
    }

    /// The answer of the plain run alone on a view that was run. The error is want of memory.
    pub fn result(&self, view: ViewNo) -> Result<Table, NoMemory>
        requires engine { IsEngine self.now }
        requires run { Contains (views_run self.now) view }
        ensures { (answer : Answer) (m : MatrixData) → Stands answer m self.now → IfOk result (λ table. table ≡ table_of (lone_of (task_of answer m self.now) view.0)) }
    {
        match place_of(&self.runs, view) {
            Some(place) => table_of(
                self.alloc,
                self.program,
                self.graph,
                self.rounds,
                &self.runs[place],
            ),
            None => unreachable!(),
        }
    }

    // Runs the views of the order.
    fn run_first<U: Updater>(&mut self, matrix: &Matrix, updater: &mut U) -> Result<(), NoMemory>
        requires engine { IsEngine self.old }
        requires none { views_run self.old ≡ [] }
        requires matrix { length matrix.now.live ≡ length self.old.graph.now.ends }
        requires views { All (IsView matrix.now) self.old.order }
        ensures engine { OnOk result (IsEngine self.new) }
        ensures run { IsSameRun self.old self.new }
        ensures order { self.new.order ≡ self.old.order }
        ensures spent { self.new.spent ≡ self.old.spent }
        ensures stands { OnOk result (Stands U.answer matrix.now self.new) }
        ensures calls { OnOk result (U.calls updater.new ≡ U.calls updater.old + sum (works_of (task_of U.answer matrix.now self.old) (numbers self.old.order))) }
    {
        let views = copied(self.alloc, self.order.as_slice())?;
        self.run_behind(matrix, views.as_slice(), updater)
    }

    // Runs views behind the last one, and adds them to the order.
    fn run_more<U: Updater>(
        &mut self,
        matrix: &Matrix,
        views: &[ViewNo],
        updater: &mut U,
    ) -> Result<(), NoMemory>
        requires engine { IsEngine self.old }
        requires stands { Stands U.answer matrix.now self.old }
        requires views { All (IsView matrix.now) views.now }
        ensures engine { OnOk result (IsEngine self.new) }
        ensures run { IsSameRun self.old self.new }
        ensures order { OnOk result (self.new.order ≡ self.old.order ++ views.now) }
        ensures spent { self.new.spent ≡ self.old.spent }
        ensures stands { OnOk result (Stands U.answer matrix.now self.new) }
        ensures calls { OnOk result (U.calls updater.new ≡ U.calls updater.old + sum (works_from (task_of U.answer matrix.now self.old) (last_of (numbers self.old.order)) (numbers views.now))) }
    {
        self.run_behind(matrix, views, updater)?;
        let added = copied(self.alloc, views)?;
        self.order.append(added)
    }

    // Runs views behind the last one that was run.
    fn run_behind<U: Updater>(
        &mut self,
        matrix: &Matrix,
        views: &[ViewNo],
        updater: &mut U,
    ) -> Result<(), NoMemory>
        requires engine { IsEngine self.old }
        requires matrix { length matrix.now.live ≡ length self.old.graph.now.ends }
        requires run { All (λ run. IsView matrix.now run.view) self.old.runs.items }
        requires views { All (IsView matrix.now) views.now }
        requires holds { All (HoldsRun (task_of U.answer matrix.now self.old)) self.old.runs.items }
        ensures engine { OnOk result (IsEngine self.new) }
        ensures run { IsSameRun self.old self.new }
        ensures order { self.new.order ≡ self.old.order }
        ensures spent { self.new.spent ≡ self.old.spent }
        ensures views { OnOk result (views_run self.new ≡ views_run self.old ++ views.now) }
        ensures holds { OnOk result (All (HoldsRun (task_of U.answer matrix.now self.new)) self.new.runs.items) }
        ensures matrix { length matrix.now.live ≡ length self.new.graph.now.ends }
        ensures calls { OnOk result (U.calls updater.new ≡ U.calls updater.old + sum (works_from (task_of U.answer matrix.now self.old) (last_of (numbers (views_run self.old))) (numbers views.now))) }
    {
        let mut kernel = take_kernel(self.alloc, &mut self.kernel, self.graph, self.program.along)?;
        let setting = Setting {
            program: self.program,
            graph: self.graph,
            rounds: self.rounds,
            matrix,
        };
        run_views(
            self.alloc,
            setting,
            &mut kernel,
            &mut self.runs,
            views,
            updater,
        )?;
        self.kernel = Some(kernel);
        Ok(())
    }

    // Brings each run to a matrix.
    fn renew<U: Updater>(
        &mut self,
        matrix: &Matrix,
        changes: &[(EdgeNo, bool)],
        updater: &mut U,
    ) -> Result<(), NoMemory>
        requires engine { IsEngine self.old }
        requires edits { AreEdits matrix.now changes.now }
        requires stands { Stands U.answer (taken_back matrix.now changes.now) self.old }
        ensures engine { OnOk result (IsEngine self.new) }
        ensures run { IsSameRun self.old self.new }
        ensures order { self.new.order ≡ self.old.order }
        ensures spent { self.new.spent ≡ self.old.spent }
        ensures stands { OnOk result (Stands U.answer matrix.now self.new) }
        ensures calls { OnOk result (U.calls updater.new ≡ U.calls updater.old + edit_works (task_of U.answer (taken_back matrix.now changes.now) self.old) (task_of U.answer matrix.now self.old) (numbers self.old.order)) }
    {
        let mut kernel = take_kernel(self.alloc, &mut self.kernel, self.graph, self.program.along)?;
        let setting = Setting {
            program: self.program,
            graph: self.graph,
            rounds: self.rounds,
            matrix,
        };
        renew_all(
            self.alloc,
            setting,
            &mut kernel,
            &mut self.runs,
            changes,
            updater,
        )?;
        self.kernel = Some(kernel);
        Ok(())
    }
}

// The kernel, which is made where there is none.
fn take_kernel(
    alloc: Global,
    kernel: &mut Option<Kernel>,
    graph: &Graph,
    along: Along,
) -> Result<Kernel, NoMemory>
    requires { IsKernelOf graph.now along kernel.old }
    ensures { IfOk result (λ kernel. IsKernelOf graph.now along (Some kernel)) }
{
    match kernel.take() {
        Some(kernel) => Ok(kernel),
        None => Kernel::new(alloc, graph, along),
    }
}

// These views, as a list.
fn copied(alloc: Global, views: &[ViewNo]) -> Result<List<ViewNo>, NoMemory>
    ensures { IfOk result (λ list. list ≡ views.now) }
{
    Ok(List::from_vec(Vec::from_slice(alloc, views)?))
}

// The place of the first of these runs that is of this view.
fn place_of(runs: &[ViewRun], view: ViewNo) -> Option<usize>
    ensures { result ≡ position (λ run. run.view.0 == view.0) runs.now }
{
    runs.iter().position(|run| run.view == view)
}
