//! What has run the views of a run, and a run that is kept.

ghost use Rattle.std.specs.Prelude.{◌≡◌, ◌+◌, ◌<◌, ◌≤◌, true, None, length, IfOk, OnOk, IsTrue, Contains};
ghost use Rattle.view_matrix.specs.Matrices.{MatrixData, edges_in};
ghost use Rattle.result_tables.specs.TableText.{table_of};
ghost use Rattle.surge_session.specs.Output.{view_answer};
ghost use Rattle.surge_session.specs.Live.{live_edges};
ghost use Rattle.view_order.specs.Greedy.{numbers};
ghost use Rattle.surge_session.specs.State.{HasFollowed, HasRunIn, order_in, shown_graph};
ghost use Rattle.surge_session.specs.Changes.{IsEdited};
ghost use Rattle.surge_session.specs.RunWorks.{advance_calls};

use edge_predicates::ViewRule;
use graph_model::{EdgeNo, Graph, ViewNo};
use gvdl_check::RunPlan;
use result_tables::{Results, Table};
use surge_outside::NoMemory;
use vertex_lang::Updater;
use view_engine::Engine;
use view_matrix::Matrix;
use view_versions::{VersionEngine, edits_are_taken_back};

/// What has run the views of a run.
#[derive(Drop)]
pub enum RunEngine<'g> {
    /// Segments of views, which share work.
    Plain(Engine<'g>),
    /// Views that are kept round by round, so that they follow edges that come and go.
    Versions(VersionEngine<'g>),
    /// The answers of a run in phases. No run in phases is kept.
    Phased(Results),
}

// Whether a view is one of these.
fn stands_among(views: &[ViewNo], view: ViewNo) -> bool
    ensures { IsTrue result → Contains views.now view }
{
    for other in views {
        if other.0 == view.0 {
            return true;
        }
    }
    false
}

impl<'g> RunEngine<'g> {
    /// The table of a view that was run. The one error is want of memory, which is told too of a view that was not run.
    pub(crate) fn result<U: Updater>(
        &self,
        graph: &Graph,
        run: &RunPlan,
        matrix: &Matrix,
        rule: &ViewRule,
        view: ViewNo,
    ) -> Result<Table, NoMemory>
        requires within { view.0 < length matrix.now.columns }
        requires shown { edges_in matrix.now view.0 ≡ live_edges (shown_graph graph.now matrix.now) rule.now }
        requires has { HasRunIn U.answer graph.now run.now matrix.now self.now }
        ensures { IfOk result (λ table. table ≡ table_of (view_answer U.answer (shown_graph graph.now matrix.now) run.now rule.now)) }
    {
        match self {
            RunEngine::Plain(engine) => match engine.result(view)? {
                Some(table) => Ok(table),
                None => Err(NoMemory),
            },
            RunEngine::Versions(engine) => {
                if !stands_among(engine.order().as_slice(), view) {
                    return Err(NoMemory);
                }
                engine.result(view)
            }
            RunEngine::Phased(results) => {
                if !results.has(view) {
                    return Err(NoMemory);
                }
                results.table(view)
            }
        }
    }
}

impl<'g> RunEngine<'g> {
    /// Brings the views of a run that follows edges from a matrix to the one that these changes make of it, each of which turns an
    /// edge. The error is want of memory.
    pub(crate) fn advance<U: Updater>(
        &mut self,
        graph: &Graph,
        run: &RunPlan,
        matrix: &Matrix,
        changes: &[(EdgeNo, bool)],
        updater: &mut U,
    ) -> Result<(), NoMemory>
        requires edited { run.now.edited ≡ true }
        requires unphased { run.now.phases ≡ None }
        requires turns { (before : MatrixData) × IsEdited before matrix.now changes.now × HasRunIn U.answer graph.now run.now before self.old }
        ensures has { OnOk result (HasRunIn U.answer graph.now run.now matrix.now self.new) }
        ensures order { order_in self.new ≡ order_in self.old }
        ensures calls { OnOk result (U.calls updater.new ≤ U.calls updater.old + advance_calls U.answer graph.now run.now matrix.now changes.now (order_in self.old)) }
    {
        match self {
            RunEngine::Versions(engine) => advance_followed(run, engine, matrix, changes, updater),
            RunEngine::Plain(_) => Ok(()),
            RunEngine::Phased(_) => Ok(()),
        }
    }
}

// Brings the views of an engine that follows edges to a matrix. It keeps its working lists for the edits that may come.
fn advance_followed<U: Updater>(
    run: &RunPlan,
    engine: &mut VersionEngine,
    matrix: &Matrix,
    changes: &[(EdgeNo, bool)],
    updater: &mut U,
) -> Result<(), NoMemory>
    requires turns { (before : MatrixData) × IsEdited before matrix.now changes.now × HasFollowed U.answer engine.old.graph.now run.now before (numbers engine.old.order) engine.old }
    ensures has { OnOk result (HasFollowed U.answer engine.old.graph.now run.now matrix.now (numbers engine.new.order) engine.new) }
    ensures order { engine.new.order ≡ engine.old.order }
    ensures calls { OnOk result (U.calls updater.new ≤ U.calls updater.old + advance_calls U.answer engine.old.graph.now run.now matrix.now changes.now engine.old.order) }
{
    edits_are_taken_back();
    engine.advance(matrix, changes, updater)
}

/// A run that is kept, by its place, with what has run its views.
#[derive(Drop)]
pub struct Kept<'g> {
    pub(crate) place: u32,
    pub(crate) engine: RunEngine<'g>,
}
