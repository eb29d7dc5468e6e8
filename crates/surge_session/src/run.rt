//! A run on the views of a matrix.

ghost use Rattle.std.specs.Prelude.{◌≡◌, ◌+◌, ◌-◌, ◌<◌, ◌≤◌, ◌++◌, ℕ, [], true, false, is_some, length, All, IfOk, OnOk, Some, None};
ghost use Rattle.std.specs.List.{range_with_len, last_or};
ghost use Rattle.graph_model.specs.GraphData.{AreDistinct};
ghost use Rattle.view_matrix.specs.Matrices.{MatrixData, distance_of, place_of, IsColumn, IsView};
ghost use Rattle.vertex_lang.specs.Expressions.{Answer};
ghost use Rattle.vertex_lang.specs.Lone.{number_of};
ghost use Rattle.view_order.specs.Greedy.{numbers};
ghost use Rattle.tree_order.specs.Trees.{tree_walk, views_of};
ghost use Rattle.surge_session.specs.Output.{begun_in, in_order, IsRun};
ghost use Rattle.view_engine.specs.Engines.{IsEngine, Stands, works_in};
ghost use Rattle.view_turns.specs.Turns.{done};
ghost use Rattle.view_versions.specs.Engines.{most_works};
ghost use Rattle.surge_session.specs.State.{HasRun, HasFollowed, HasRunIn, order_in};
ghost use Rattle.surge_session.specs.RunWorks.{first_calls, more_calls};

use crate::kept::RunEngine;
use crate::setting::Setting;
use graph_model::{Graph, ViewNo};
use gvdl_check::{OrderRule, RunPlan};
use phase_runs::phased;
use std::alloc::Global;
use surge_outside::{List, NoMemory};
use tree_order::tree_order;
use vertex_lang::{Rounds, Updater};
use view_engine::Engine;
use view_matrix::Matrix;
use view_order::{greedy, views_from};
use view_turns::finish;
use view_versions::VersionEngine;

// The views of a matrix from this number on, behind others in the order of a run: as they were declared, or greedily from the
// view before.
fn views_in_order(
    alloc: Global,
    rule: OrderRule,
    matrix: &Matrix,
    before: Option<ViewNo>,
    first: u32,
) -> Result<List<ViewNo>, NoMemory>
    requires before { IsColumn matrix.now before }
    requires first { first ≤ length matrix.now.columns }
    ensures order { IfOk result (λ order. numbers order ≡ in_order rule (distance_of matrix.now) (place_of before) (range_with_len first (length matrix.now.columns - first))) }
    ensures views { IfOk result (All (IsView matrix.now)) }
    ensures distinct { IfOk result AreDistinct }
    ensures behind { IfOk result (All (λ view. first ≤ view.0)) }
    ensures count { IfOk result (λ order. length order ≡ length matrix.now.columns - first) }
{
    let declared = views_from(alloc, matrix, first)?;
    match rule {
        OrderRule::Declared => Ok(declared),
        OrderRule::Greedy => greedy(alloc, matrix, before, declared.as_slice()),
        OrderRule::Tree => greedy(alloc, matrix, before, declared.as_slice()),
    }
}

// All views of a matrix in the tree order.
fn views_in_tree(alloc: Global, matrix: &Matrix) -> Result<List<ViewNo>, NoMemory>
    ensures order { IfOk result (λ order. numbers order ≡ views_of (tree_walk (distance_of matrix.now) (range_with_len 0 (length matrix.now.columns)))) }
    ensures views { IfOk result (All (IsView matrix.now)) }
    ensures distinct { IfOk result AreDistinct }
    ensures count { IfOk result (λ order. length order ≡ length matrix.now.columns) }
{
    let declared = views_from(alloc, matrix, 0)?;
    let found = tree_order(alloc, matrix, declared.as_slice())?;
    Ok(found.order)
}

// All views of a matrix in the order of a run.
fn first_views(alloc: Global, rule: OrderRule, matrix: &Matrix) -> Result<List<ViewNo>, NoMemory>
    ensures order { IfOk result (λ order. numbers order ≡ begun_in rule (distance_of matrix.now) (range_with_len 0 (length matrix.now.columns))) }
    ensures views { IfOk result (All (IsView matrix.now)) }
    ensures distinct { IfOk result AreDistinct }
    ensures count { IfOk result (λ order. length order ≡ length matrix.now.columns) }
{
    match rule {
        OrderRule::Declared => views_in_order(alloc, rule, matrix, None, 0),
        OrderRule::Greedy => views_in_order(alloc, rule, matrix, None, 0),
        OrderRule::Tree => views_in_tree(alloc, matrix),
    }
}

// The last view of an order.
fn last_view(order: &List<ViewNo>) -> Option<ViewNo>
    ensures place { place_of result ≡ last_or None (numbers order.now) }
    ensures view { (m : MatrixData) → All (IsView m) order.now → IsColumn m result }
{
    order.as_slice().last().copied()
}

fn number_of(rounds: Rounds) -> u32
    ensures { result ≡ number_of rounds }
{
    match rounds {
        Rounds::Within(number) => number,
        Rounds::For(number) => number,
    }
}

// Runs these views of a matrix in phases.
fn run_phased<'g, U: Updater>(
    alloc: Global,
    graph: &'g Graph,
    run: &'g RunPlan,
    phases: u32,
    matrix: &Matrix,
    order: &[ViewNo],
    updater: &mut U,
) -> Result<RunEngine<'g>, NoMemory>
    requires run { IsRun graph.now run.now }
    requires phases { run.now.phases ≡ Some phases }
    requires matrix { length matrix.now.live ≡ length graph.now.ends }
    requires views { All (IsView matrix.now) order.now }
    requires distinct { AreDistinct order.now }
    ensures has { IfOk result (HasRunIn U.answer graph.now run.now matrix.now) }
    ensures order { IfOk result (λ engine. order_in engine ≡ order.now) }
    ensures calls { IfOk result (λ engine. U.calls updater.new ≤ U.calls updater.old + first_calls U.answer graph.now run.now matrix.now engine) }
{
    let rounds = number_of(run.rounds);
    let results = phased(
        alloc,
        graph,
        matrix,
        &run.program,
        order,
        rounds,
        phases,
        updater,
    )?;
    Ok(RunEngine::Phased(results))
}

// Runs them so that they follow edges that come and go.
fn run_versions<'g, U: Updater>(
    alloc: Global,
    graph: &'g Graph,
    run: &'g RunPlan,
    matrix: &Matrix,
    order: &[ViewNo],
    updater: &mut U,
) -> Result<RunEngine<'g>, NoMemory>
    requires run { IsRun graph.now run.now }
    requires unphased { run.now.phases ≡ None }
    requires edited { run.now.edited ≡ true }
    requires matrix { length matrix.now.live ≡ length graph.now.ends }
    requires views { All (IsView matrix.now) order.now }
    ensures has { IfOk result (HasRunIn U.answer graph.now run.now matrix.now) }
    ensures order { IfOk result (λ engine. order_in engine ≡ order.now) }
    ensures calls { IfOk result (λ engine. U.calls updater.new ≤ U.calls updater.old + first_calls U.answer graph.now run.now matrix.now engine) }
{
    let mut engine = VersionEngine::new(alloc, graph, &run.program, order, run.rounds)?;
    engine.first(matrix, updater)?;
    Ok(RunEngine::Versions(engine))
}

// An engine that shares work, on these views, none of which is stepped yet. Where the run isn't kept, no views are added later.
fn plain_engine<'g>(
    alloc: Global,
    graph: &'g Graph,
    run: &'g RunPlan,
    matrix: &Matrix,
    order: &[ViewNo],
) -> Result<Engine<'g>, NoMemory>
    requires run { IsRun graph.now run.now }
    requires matrix { length matrix.now.live ≡ length graph.now.ends }
    requires views { All (IsView matrix.now) order.now }
    requires distinct { AreDistinct order.now }
    requires few { length order.now ≤ 1_024 }
    ensures engine { IfOk result IsEngine }
    ensures stands { IfOk result (λ e. (answer : Answer) → Stands answer matrix.now e) }
    ensures graph { IfOk result (λ e. e.graph.now ≡ graph.now) }
    ensures program { IfOk result (λ e. e.program.now ≡ run.now.program) }
    ensures rounds { IfOk result (λ e. e.rounds ≡ run.now.rounds) }
    ensures split { IfOk result (λ e. e.split ≡ run.now.split) }
    ensures order { IfOk result (λ e. e.order ≡ order.now) }
    ensures works { IfOk result (λ e. (k : ℕ) → works_in e k ≡ []) }
    ensures grows { IfOk result (λ e. is_some run.now.keep ≡ true → e.grows ≡ true) }
    ensures fresh { IfOk result (λ e. e.spent ≡ false) }
{
    let mut engine = Engine::new(
        alloc,
        graph,
        matrix,
        &run.program,
        order,
        run.split,
        run.rounds,
    )?;
    if run.keep.is_some() {
        return Ok(engine);
    }
    engine.close();
    Ok(engine)
}

// Runs them in segments that share work.
fn run_plain<'g, U: Updater>(
    alloc: Global,
    graph: &'g Graph,
    run: &'g RunPlan,
    matrix: &Matrix,
    order: &[ViewNo],
    turns: Option<u64>,
    updater: &mut U,
) -> Result<RunEngine<'g>, NoMemory>
    requires run { IsRun graph.now run.now }
    requires unphased { run.now.phases ≡ None }
    requires edited { run.now.edited ≡ false }
    requires matrix { length matrix.now.live ≡ length graph.now.ends }
    requires views { All (IsView matrix.now) order.now }
    requires distinct { AreDistinct order.now }
    requires few { length order.now ≤ 1_024 }
    ensures has { IfOk result (HasRunIn U.answer graph.now run.now matrix.now) }
    ensures order { IfOk result (λ engine. order_in engine ≡ order.now) }
    ensures calls { IfOk result (λ engine. U.calls updater.new ≤ U.calls updater.old + first_calls U.answer graph.now run.now matrix.now engine) }
{
    let mut engine = plain_engine(alloc, graph, run, matrix, order)?;
    finish(alloc, &mut engine, matrix, turns, updater)?;
    engine.rest();
    Ok(RunEngine::Plain(engine))
}

// Runs these views of a matrix as the run asks for.
fn run_views<'g, U: Updater>(
    alloc: Global,
    graph: &'g Graph,
    run: &'g RunPlan,
    matrix: &Matrix,
    order: &[ViewNo],
    turns: Option<u64>,
    updater: &mut U,
) -> Result<RunEngine<'g>, NoMemory>
    requires run { IsRun graph.now run.now }
    requires matrix { length matrix.now.live ≡ length graph.now.ends }
    requires views { All (IsView matrix.now) order.now }
    requires distinct { AreDistinct order.now }
    requires few { length order.now ≤ 1_024 }
    ensures has { IfOk result (HasRunIn U.answer graph.now run.now matrix.now) }
    ensures order { IfOk result (λ engine. order_in engine ≡ order.now) }
    ensures calls { IfOk result (λ engine. U.calls updater.new ≤ U.calls updater.old + first_calls U.answer graph.now run.now matrix.now engine) }
{
    match run.phases {
        Some(phases) => run_phased(alloc, graph, run, phases, matrix, order, updater),
        None => {
            if run.edited {
                run_versions(alloc, graph, run, matrix, order, updater)
            } else {
                run_plain(alloc, graph, run, matrix, order, turns, updater)
            }
        }
    }
}

/// Runs all views of a matrix of the graph: in phases, so that they follow edges that come and go, or in segments that share work.
pub(crate) fn run_first<'g, U: Updater>(
    alloc: Global,
    graph: &'g Graph,
    run: &'g RunPlan,
    matrix: &Matrix,
    turns: Option<u64>,
    updater: &mut U,
) -> Result<RunEngine<'g>, NoMemory>
    requires run { IsRun graph.now run.now }
    requires matrix { length matrix.now.live ≡ length graph.now.ends }
    ensures has { IfOk result (HasRunIn U.answer graph.now run.now matrix.now) }
    ensures order { IfOk result (λ engine. numbers (order_in engine) ≡ begun_in run.now.order (distance_of matrix.now) (range_with_len 0 (length matrix.now.columns))) }
    ensures count { IfOk result (λ engine. length (order_in engine) ≡ length matrix.now.columns) }
    ensures calls { IfOk result (λ engine. U.calls updater.new ≤ U.calls updater.old + first_calls U.answer graph.now run.now matrix.now engine) }
{
    let _all = matrix.views();
    let order = first_views(alloc, run.order, matrix)?;
    run_views(alloc, graph, run, matrix, order.as_slice(), turns, updater)
}

// Runs the views of a matrix from number `first` on with an engine that shares work, behind those before it that were run.
fn more_shared<U: Updater>(
    alloc: Global,
    run: &RunPlan,
    engine: &mut Engine,
    matrix: &Matrix,
    first: u32,
    turns: Option<u64>,
    updater: &mut U,
) -> Result<(), NoMemory>
    requires first { first ≤ length matrix.now.columns }
    requires kept { is_some run.now.keep ≡ true }
    requires has { HasRun U.answer engine.old.graph.now run.now matrix.now (numbers engine.old.order) engine.old }
    requires below { All (λ view. view.0 < first) engine.old.order }
    requires count { length engine.old.order ≤ first }
    ensures has { OnOk result (HasRun U.answer engine.old.graph.now run.now matrix.now (numbers engine.new.order) engine.new) }
    ensures order { OnOk result (numbers engine.new.order ≡ numbers engine.old.order ++ in_order run.now.order (distance_of matrix.now) (last_or None (numbers engine.old.order)) (range_with_len first (length matrix.now.columns - first))) }
    ensures count { OnOk result (length engine.new.order ≡ length engine.old.order + (length matrix.now.columns - first)) }
    ensures calls { OnOk result (U.calls updater.new + done engine.old ≡ U.calls updater.old + done engine.new) }
{
    let _all = matrix.views();
    let before = last_view(engine.order());
    let added = views_in_order(alloc, run.order, matrix, before, first)?;
    engine.more(matrix, added.as_slice())?;
    finish(alloc, engine, matrix, turns, updater)?;
    engine.rest();
    Ok(())
}

// The same with an engine that follows edges that come and go.
fn more_followed<U: Updater>(
    alloc: Global,
    run: &RunPlan,
    engine: &mut VersionEngine,
    matrix: &Matrix,
    first: u32,
    updater: &mut U,
) -> Result<(), NoMemory>
    requires first { first ≤ length matrix.now.columns }
    requires has { HasFollowed U.answer engine.old.graph.now run.now matrix.now (numbers engine.old.order) engine.old }
    ensures has { OnOk result (HasFollowed U.answer engine.old.graph.now run.now matrix.now (numbers engine.new.order) engine.new) }
    ensures order { OnOk result (numbers engine.new.order ≡ numbers engine.old.order ++ in_order run.now.order (distance_of matrix.now) (last_or None (numbers engine.old.order)) (range_with_len first (length matrix.now.columns - first))) }
    ensures count { OnOk result (length engine.new.order ≡ length engine.old.order + (length matrix.now.columns - first)) }
    ensures calls { OnOk result (U.calls updater.new ≤ U.calls updater.old + most_works engine.new (length engine.new.order - length engine.old.order)) }
{
    let _all = matrix.views();
    let last = last_view(engine.order());
    let added = views_in_order(alloc, run.order, matrix, last, first)?;
    engine.more(matrix, added.as_slice(), updater)?;
    Ok(())
}

/// Runs the views of a matrix from number `first` on, behind those before it that were run. No run in phases is kept, so that none
/// goes on.
pub(crate) fn run_more<U: Updater>(
    setting: Setting,
    run: &RunPlan,
    engine: &mut RunEngine,
    matrix: &Matrix,
    first: u32,
    updater: &mut U,
) -> Result<(), NoMemory>
    requires first { first ≤ length matrix.now.columns }
    requires kept { is_some run.now.keep ≡ true }
    requires has { HasRunIn U.answer setting.graph.now run.now matrix.now engine.old }
    requires below { All (λ view. view.0 < first) (order_in engine.old) }
    requires count { length (order_in engine.old) ≤ first }
    requires unphased { run.now.phases ≡ None }
    ensures has { OnOk result (HasRunIn U.answer setting.entry.graph.now run.now matrix.now engine.new) }
    ensures order { OnOk result (numbers (order_in engine.new) ≡ numbers (order_in engine.old) ++ in_order run.now.order (distance_of matrix.now) (last_or None (numbers (order_in engine.old))) (range_with_len first (length matrix.now.columns - first))) }
    ensures count { OnOk result (length (order_in engine.new) ≡ length (order_in engine.old) + (length matrix.now.columns - first)) }
    ensures calls { OnOk result (U.calls updater.new ≤ U.calls updater.old + more_calls U.answer run.now matrix.now engine.old engine.new) }
{
    let Setting { alloc, turns, .. } = setting;
    match engine {
        RunEngine::Plain(engine) => more_shared(alloc, run, engine, matrix, first, turns, updater),
        RunEngine::Versions(engine) => more_followed(alloc, run, engine, matrix, first, updater),
        RunEngine::Phased(_) => Ok(()),
    }
}
