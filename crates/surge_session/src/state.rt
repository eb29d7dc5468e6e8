//! What is kept from statement to statement.

ghost use Rattle.std.specs.Prelude.{◌≡◌, ◌≢◌, ℕ, ◌+◌, ◌<◌, ◌≤◌, None, Some, [], min, length, slice_get, slice_range, All, IfOk, IfSome, IsTrue, is_some, OnOk, if◌then◌else◌, ◌==◌};
ghost use Rattle.vertex_lang.specs.Expressions.{Answer};
ghost use Rattle.gvdl_check.specs.Fits.{PlanFits};
ghost use Rattle.view_matrix.specs.Matrices.{MatrixData, matrix_of, with_views};
ghost use Rattle.view_order.specs.Greedy.{numbers};
ghost use Rattle.gvdl_check.specs.Steps.{runs_at, views_at};
ghost use Rattle.surge_session.specs.Live.{live_loaded, graph_at};
ghost use Rattle.surge_session.specs.Output.{made_at, order_at};
ghost use Rattle.surge_session.specs.State.{IsAt, IsKept, HasRunIn, MatricesAt, order_in, rules_of};

use crate::kept::{Kept, RunEngine};
use graph_model::Graph;
use gvdl_check::{CollectionPlan, Plan, RunPlan, Step, ViewPlan};
use std::alloc::Global;
use surge_outside::{List, NoMemory};
use vertex_lang::Updater;
use view_matrix::Matrix;
use view_versions::stands_with_more;

/// What is kept from statement to statement.
#[derive(Drop)]
pub(crate) struct State<'g> {
    /// Whether each edge of the graph is live.
    pub(crate) live: Vec<bool>,
    /// The matrix of each collection, with the views that it has so far.
    pub(crate) made: Vec<Matrix>,
    /// The runs that are kept, in the order of keeping.
    pub(crate) kept: Vec<Kept<'g>>,
}

// Whether each edge of a graph is live after the load of so many.
fn live_first(alloc: Global, graph: &Graph, plan: &Plan) -> Result<List<bool>, NoMemory>
    ensures { IfOk result (λ live. live ≡ live_loaded graph.now plan.now) }
{
    let mut live = Vec::with_capacity(alloc, graph.edge_count() as usize)?;
    for edge in 0..graph.edge_count() {
        live.push(edge < plan.loaded)?;
    }
    Ok(List::from_vec(live))
}

// For each collection a matrix without views.
fn empty_matrices(
    alloc: Global,
    graph: &Graph,
    live: &List<bool>,
    count: usize,
) -> Result<Vec<Matrix>, NoMemory>
    requires { length live.now ≡ length graph.now.ends }
    ensures count { IfOk result (λ made. length made.items ≡ count) }
    ensures empty { IfOk result (λ made. All (λ m. m ≡ matrix_of graph.now live.now []) made.items) }
{
    let mut made = Vec::new(alloc);
    for _place in 0..count {
        made.push(Matrix::build(alloc, graph, live, &[])?)?;
    }
    Ok(made)
}

// Adds these views to a matrix. No predicate is evaluated again.
fn add_views(
    alloc: Global,
    matrix: &mut Matrix,
    graph: &Graph,
    views: &[ViewPlan],
) -> Result<(), NoMemory>
    requires graph { length graph.now.ends ≡ length matrix.old.live }
    requires few { length matrix.old.columns + length views.now ≤ 1_024 }
    ensures { OnOk result (matrix.new ≡ with_views matrix.old graph.now (rules_of views.now)) }
{
    let mut rules = Vec::with_capacity(alloc, views.len())?;
    for view in views {
        rules.push(&view.rule)?;
    }
    matrix.add_rules(graph, rules.as_slice())
}

// Adds the next views of a collection to its matrix.
fn grow_matrix(
    alloc: Global,
    matrix: &mut Matrix,
    graph: &Graph,
    collection: &CollectionPlan,
    count: u32,
) -> Result<(), NoMemory>
    requires graph { length graph.now.ends ≡ length matrix.old.live }
    requires some { length matrix.old.columns ≤ length collection.now.views }
    requires few { length collection.now.views ≤ 1_024 }
    ensures { OnOk result (matrix.new ≡ with_views matrix.old graph.now (rules_of (slice_range collection.now.views (length matrix.old.columns) (min (length collection.now.views) (length matrix.old.columns + count))))) }
{
    let views = collection.views.as_slice();
    let before = matrix.views() as usize;
    let more = (views.len() - before).min(count as usize);
    add_views(alloc, matrix, graph, &views[before..before + more])
}

impl<'g> State<'g> {
    /// Before the first statement no collection has a view, and no run is kept.
    pub(crate) fn new(alloc: Global, graph: &Graph, plan: &Plan) -> Result<State<'g>, NoMemory>
        ensures { IfOk result (λ state. (answer : Answer) → IsAt answer graph.now plan.now 0 state.live.items state.made.items state.kept.items) }
    {
        let live = live_first(alloc, graph, plan)?;
        let made = empty_matrices(alloc, graph, &live, plan.collections.len())?;
        let kept = Vec::new(alloc);
        Ok(State {
            live: live.into_vec(),
            made,
            kept,
        })
    }

    /// How many views a collection has, by its place.
    pub(crate) fn views(&self, graph: &Graph, plan: &Plan, n: usize, place: u32) -> u32
        requires { MatricesAt graph.now plan.now n self.now.made.items }
        ensures { result ≡ length (made_at plan.now n place) }
    {
        match self.made.as_slice().get(place as usize) {
            Some(matrix) => matrix.views(),
            None => 0,
        }
    }

    /// Gives a collection more views, as a statement asks for. The kept runs stay as they were.
    pub(crate) fn grow<U: Updater>(
        &mut self,
        alloc: Global,
        graph: &Graph,
        plan: &Plan,
        n: usize,
        place: u32,
        count: u32,
    ) -> Result<(), NoMemory>
        requires fits { PlanFits graph.now plan.now }
        requires at { IsAt U.answer graph.now plan.now n self.old.live.items self.old.made.items self.old.kept.items }
        requires same { graph_at graph.now plan.now (n + 1) ≡ graph_at graph.now plan.now n }
        requires views { (other : ℕ) → views_at plan.now (n + 1) other ≡ views_at plan.now n other + (if place == other then count else 0) }
        ensures matrices { OnOk result (MatricesAt graph.now plan.now (n + 1) self.new.made.items) }
        ensures live { self.new.live ≡ self.old.live }
        ensures kept { self.new.kept ≡ self.old.kept }
        ensures each { OnOk result (All (IsKept U.answer graph.now plan.now n self.new.made.items) self.new.kept.items) }
    {
        stands_with_more();
        match plan.collections.as_slice().get(place as usize) {
            Some(collection) => {
                let matrix = &mut self.made[place as usize];
                grow_matrix(alloc, matrix, graph, collection, count)
            }
            None => Ok(()),
        }
    }

    /// Keeps a run with its engine, where it has a name under which it is kept.
    pub(crate) fn keep<U: Updater>(
        &mut self,
        graph: &Graph,
        plan: &Plan,
        n: usize,
        place: u32,
        run: &RunPlan,
        engine: RunEngine<'g>,
    ) -> Result<(), NoMemory>
        requires at { IsAt U.answer graph.now plan.now n self.old.live.items self.old.made.items self.old.kept.items }
        requires step { slice_get plan.now.steps n ≡ Some (Step.Run place) }
        requires run { slice_get plan.now.runs place ≡ Some run.now }
        requires unphased { IsTrue (is_some run.now.keep) → run.now.phases ≡ None }
        requires place { place ≡ runs_at plan.now n }
        requires matrix { run.now.collection < length self.old.made.items }
        requires has { (m : MatrixData) → slice_get self.old.made.items run.now.collection ≡ Some m → HasRunIn U.answer graph.now run.now m engine }
        requires order { numbers (order_in engine) ≡ order_at graph.now plan.now run.now place (n + 1) }
        requires count { length (order_in engine) ≤ length (made_at plan.now n run.now.collection) }
        ensures { OnOk result (IsAt U.answer graph.now plan.now (n + 1) self.new.live.items self.new.made.items self.new.kept.items) }
    {
        if run.keep.is_some() {
            self.kept.push(Kept { place, engine })?;
        }
        Ok(())
    }

    /// Where a run stands among those that are kept, by its place; none where it isn't kept.
    pub(crate) fn find(&self, place: u32) -> Option<usize>
        ensures found { IfSome result (λ i. i < length self.now.kept.items × ((k : Kept) → slice_get self.now.kept.items i ≡ Some k → k.place ≡ place)) }
        ensures none { result ≡ None → All (λ k. k.place ≢ place) self.now.kept.items }
    {
        for i in 0..self.kept.len() {
            if self.kept[i].place == place {
                return Some(i);
            }
        }
        None
    }
}
