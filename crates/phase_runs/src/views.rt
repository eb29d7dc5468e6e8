//! The answers on views, one after the other.

ghost use Rattle.std.specs.Prelude.{◌≡◌, ◌≤◌, ◌+◌, ◌*◌, ◌++◌, ◌∷◌, [], length, All, IfOk, OnOk, Some, None};
ghost use Rattle.graph_model.specs.GraphData.{AreDistinct};
ghost use Rattle.vertex_lang.specs.Leaves.{IsChecked};
ghost use Rattle.view_matrix.specs.Matrices.{IsView};
ghost use Rattle.result_tables.specs.Results.{IsNew};
ghost use Rattle.phase_runs.specs.Answers.{HoldsAnswer, held_views, own_run, own_runs};
ghost use Rattle.phase_runs.specs.Courses.{IsCourse, IsLast, LastStands, ReachesOn, Stands, held_of, most_calls, place_of_last, with_held};

use crate::changes::{all_nodes, changed_nodes};
use crate::course::{Course, Reached, start_values};
use graph_model::{Graph, ViewNo};
use result_tables::Results;
use std::alloc::Global;
use surge_outside::NoMemory;
use vertex_lang::{Program, Updater};
use view_matrix::Matrix;

/// What was reached on the last view so far.
#[derive(Debug, Drop)]
pub(crate) struct Last {
    pub(crate) view: ViewNo,
    pub(crate) reached: Reached,
}

/// The answers so far, and what was reached on the last view, if there is one.
#[derive(Debug, Drop)]
pub(crate) struct Answered {
    pub(crate) results: Results,
    pub(crate) last: Option<Last>,
}

// The answer on a first view joins the answers.
fn begin<U: Updater>(
    alloc: Global,
    course: &Course<'_>,
    view: ViewNo,
    results: &mut Results,
    updater: &mut U,
) -> Result<Reached, NoMemory>
    requires course { IsCourse course.now }
    requires view { IsView course.now.matrix.now view }
    requires nodes { results.old.nodes ≡ length course.now.graph.now.ids }
    requires new { IsNew results.old view }
    ensures reached { IfOk result (ReachesOn U.answer course.now view) }
    ensures held { IfOk result (λ r. results.new ≡ with_held results.old (held_of view r)) }
    ensures calls { U.calls updater.new ≤ U.calls updater.old + most_calls course.now }
{
    let reached = course.run_on(alloc, view, updater)?;
    let change = all_nodes(alloc, reached.values.as_slice())?;
    results.add_change(view, None, reached.outcome, &change)?;
    Ok(reached)
}

// The answer on a view that stands behind another one joins the answers. Where no edge differs, it is the same.
fn follow<U: Updater>(
    alloc: Global,
    course: &Course<'_>,
    last: Last,
    view: ViewNo,
    results: &mut Results,
    updater: &mut U,
) -> Result<Reached, NoMemory>
    requires course { IsCourse course.now }
    requires view { IsView course.now.matrix.now view }
    requires nodes { results.old.nodes ≡ length course.now.graph.now.ids }
    requires new { IsNew results.old view }
    requires last { IsLast U.answer course.now results.old last }
    ensures reached { IfOk result (ReachesOn U.answer course.now view) }
    ensures held { IfOk result (λ r. results.new ≡ with_held results.old (held_of view r)) }
    ensures calls { U.calls updater.new ≤ U.calls updater.old + most_calls course.now * own_run course.now.matrix.now (Some last.view.0) view.0 }
{
    if course.matrix.distance(Some(last.view), view) == 0 {
        results.add_change(view, Some(last.view), last.reached.outcome, &[])?;
        return Ok(last.reached);
    }
    let reached = course.run_on(alloc, view, updater)?;
    let change = changed_nodes(
        alloc,
        last.reached.values.as_slice(),
        reached.values.as_slice(),
    )?;
    results.add_change(view, Some(last.view), reached.outcome, &change)?;
    Ok(reached)
}

// The answer on the next view joins the answers.
fn reach<U: Updater>(
    alloc: Global,
    course: &Course<'_>,
    last: Option<Last>,
    view: ViewNo,
    results: &mut Results,
    updater: &mut U,
) -> Result<Reached, NoMemory>
    requires course { IsCourse course.now }
    requires view { IsView course.now.matrix.now view }
    requires nodes { results.old.nodes ≡ length course.now.graph.now.ids }
    requires new { IsNew results.old view }
    requires last { LastStands U.answer course.now results.old last }
    ensures reached { IfOk result (ReachesOn U.answer course.now view) }
    ensures held { IfOk result (λ r. results.new ≡ with_held results.old (held_of view r)) }
    ensures calls { U.calls updater.new ≤ U.calls updater.old + most_calls course.now * own_run course.now.matrix.now (place_of_last last) view.0 }
{
    match last {
        Some(last) => follow(alloc, course, last, view, results, updater),
        None => begin(alloc, course, view, results, updater),
    }
}

impl Answered {
    // The answer on the next view joins the answers.
    fn add<U: Updater>(
        &mut self,
        alloc: Global,
        course: &Course<'_>,
        view: ViewNo,
        updater: &mut U,
    ) -> Result<(), NoMemory>
        requires course { IsCourse course.now }
        requires view { IsView course.now.matrix.now view }
        requires stands { Stands U.answer course.now self.old }
        requires new { IsNew self.old.results view }
        ensures stands { OnOk result (Stands U.answer course.now self.new) }
        ensures held { OnOk result (held_views self.new.results ≡ held_views self.old.results ++ view ∷ []) }
        ensures last { OnOk result (place_of_last self.new.last ≡ Some view.0) }
        ensures calls { U.calls updater.new ≤ U.calls updater.old + most_calls course.now * own_run course.now.matrix.now (place_of_last self.old.last) view.0 }
    {
        let last = self.last.take();
        let reached = reach(alloc, course, last, view, &mut self.results, updater)?;
        self.last = Some(Last { view, reached });
        Ok(())
    }
}

/// Runs a program in phases on these views of a matrix of the graph, in this order: so many phases of so many rounds each, of
/// which the first begins with the program's starts and each later one with the values in which the one before it ended. The
/// start that an update names is the value with which its phase begins. A view's answer is [`vertex_lang::Outcome::Phases`] with the
/// values at the end of the last phase where the last round of each phase changes nothing, and else unsettled. A phase goes no
/// further than its first round that changes nothing, and a view's run no further than a phase that ends where it began, or
/// whose last round changes something. A view with the same edges as the one before it in the order takes that one's answer.
/// So the updater is called at most once for each node, round and phase of the first view and of each that differs from the one
/// before it, also where memory is wanting, which is the one error. (Loops within loops over differences: McSherry, Murray,
/// Isaacs and Isard 2013; views as what differs from the one before: Sahu and Salihoglu 2021.)
pub fn phased<U: Updater>(
    alloc: Global,
    graph: &Graph,
    matrix: &Matrix,
    program: &Program,
    order: &[ViewNo],
    rounds: u32,
    phases: u32,
    updater: &mut U,
) -> Result<Results, NoMemory>
    requires checked { IsChecked program.now graph.now }
    requires matrix { length matrix.now.live ≡ length graph.now.ends }
    requires views { All (IsView matrix.now) order.now }
    requires distinct { AreDistinct order.now }
    requires some { 1 ≤ rounds }
    requires limit { rounds ≤ 1_000_000 }
    requires begun { 1 ≤ phases }
    requires few { phases ≤ 1_000 }
    ensures nodes { IfOk result (λ results. results.nodes ≡ length graph.now.ids) }
    ensures views { IfOk result (λ results. held_views results ≡ order.now) }
    ensures tables { IfOk result (λ results. All (HoldsAnswer U.answer program.now graph.now matrix.now rounds phases results) order.now) }
    ensures calls { U.calls updater.new ≤ U.calls updater.old + length graph.now.ids * (rounds * phases) * own_runs matrix.now None order.now }
{
    let nodes = graph.node_count();
    let starts = start_values(alloc, program, graph)?;
    let course = Course {
        program,
        graph,
        matrix,
        starts: starts.as_slice(),
        rounds,
        phases,
    };
    let mut answered = Answered {
        results: Results::new(alloc, nodes),
        last: None,
    };
    for view in order {
        answered.add(alloc, &course, *view, updater)?;
    }
    Ok(answered.results)
}
