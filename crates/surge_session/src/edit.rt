//! Edges that come and go.

ghost use Rattle.std.specs.Prelude.{◌≡◌, ◌+◌, ◌<◌, ◌≤◌, ◌^◌, true, List, length, map, fold, All, Some, IfOk, OnOk, OnErr, slice_get, flat_map, sum_by};
ghost use Rattle.surge_outside.specs.Counts.{HasRisen};
ghost use Rattle.surge_outside.specs.Written.{GrewByFront, appended};
ghost use Rattle.gvdl_check.specs.Fits.{PlanFits};
ghost use Rattle.view_matrix.specs.Matrices.{MatrixData, with_changes, with_live};
ghost use Rattle.surge_session.specs.Live.{live_at, live_removed};
ghost use Rattle.surge_session.specs.Output.{edit_text, followed_text};
ghost use Rattle.surge_session.specs.Works.{touched_work, step_work};
ghost use Rattle.surge_session.specs.State.{IsKept, IsAt, MatricesAt, places_of};
ghost use Rattle.gvdl_check.specs.declared.plan.Step.{Step};
ghost use Rattle.gvdl_check.specs.Steps.{edits};
ghost use Rattle.surge_session.specs.Changes.{AreTurned, AreEdited, HasRemoved, inserted};

use crate::kept::Kept;
use crate::setting::{RanViews, Setting};
use crate::state::State;
use crate::tables::write_from;
use edge_predicates::{Pred, holds};
use graph_model::{EdgeNo, Graph};
use std::alloc::Global;
use surge_outside::{List, NoMemory, Sink, Trouble};
use vertex_lang::Updater;
use view_matrix::Matrix;
use view_versions::edits_are_taken_back;

/// The edges that come, each with what it is then: so many from this one on.
pub(crate) fn edges_inserted(
    alloc: Global,
    first: u32,
    count: u32,
) -> Result<List<(EdgeNo, bool)>, NoMemory>
    requires { first + count < 2 ^ 32 }
    ensures { IfOk result (λ changes. changes ≡ inserted first count) }
{
    let mut changes = Vec::with_capacity(alloc, count as usize)?;
    for place in 0..count {
        changes.push((EdgeNo(first + place), true))?;
    }
    Ok(List::from_vec(changes))
}

// Adds the edge with this number where it is live and the predicate holds of it.
fn remove_at(
    graph: &Graph,
    live: &[bool],
    rule: &Pred,
    place: u32,
    changes: &mut List<(EdgeNo, bool)>,
) -> Result<(), NoMemory>
    requires within { place < length live.now }
    requires all { length live.now ≡ length graph.now.ends }
    requires so_far { HasRemoved graph.now live.now rule.now place changes.old }
    ensures { OnOk result (HasRemoved graph.now live.now rule.now (place + 1) changes.new) }
{
    if !live[place as usize] {
        return Ok(());
    }
    if !holds(rule, graph, EdgeNo(place)) {
        return Ok(());
    }
    changes.push((EdgeNo(place), false))
}

/// The live edges that go, since the predicate holds of them, each with what it is then.
pub(crate) fn edges_removed(
    alloc: Global,
    graph: &Graph,
    live: &[bool],
    rule: &Pred,
) -> Result<List<(EdgeNo, bool)>, NoMemory>
    requires { length live.now ≡ length graph.now.ends }
    ensures { IfOk result (λ changes. AreTurned live.now (live_removed graph.now live.now rule.now) changes) }
{
    let mut changes = List::new(alloc);
    for place in 0..graph.edge_count() {
        remove_at(graph, live, rule, place, &mut changes)?;
    }
    Ok(changes)
}

// Makes each of these edges live, or not.
fn turn(live: &mut [bool], changes: &[(EdgeNo, bool)])
    requires { All (λ change. change.0.0 < length live.old) changes.now }
    ensures { live.new ≡ fold with_live live.old changes.now }
{
    for (edge, is_live) in changes {
        live[edge.0 as usize] = *is_live;
    }
}

// The same in each matrix.
fn edit_all(made: &mut [Matrix], changes: &[(EdgeNo, bool)])
    requires { All (λ m. All (λ change. change.0.0 < length m.live) changes.now) made.old }
    ensures { made.new ≡ map (λ m. with_changes m changes.now) made.old }
{
    for matrix in made.iter_mut() {
        matrix.edit(changes);
    }
}

// Brings a kept run to the edges that there are now, and writes the tables of all its views.
fn follow<O: Sink, U: Updater>(
    setting: Setting,
    n: usize,
    made: &[Matrix],
    changes: &[(EdgeNo, bool)],
    kept: &mut Kept,
    out: &mut O,
    updater: &mut U,
) -> Result<(), Trouble>
    requires fits { PlanFits setting.graph.now setting.plan.now }
    requires step { (s : Step) × (slice_get setting.plan.now.steps n ≡ Some s) × (edits s ≡ true) }
    requires matrices { MatricesAt setting.graph.now setting.plan.now (n + 1) made.now }
    requires turns { (before : List MatrixData) × MatricesAt setting.graph.now setting.plan.now n before × AreEdited before made.now changes.now × IsKept U.answer setting.graph.now setting.plan.now n before kept.old }
    ensures kept { OnOk result (IsKept U.answer setting.entry.graph.now setting.entry.plan.now (n + 1) made.now kept.new) }
    ensures place { kept.new.place ≡ kept.old.place }
    ensures ok { OnOk result (O.written out.new ≡ appended (O.written out.old) (followed_text U.answer setting.entry.form setting.entry.graph.now setting.entry.plan.now n kept.old.place)) }
    ensures err { OnErr result (GrewByFront (O.written out.old) (O.written out.new) (followed_text U.answer setting.entry.form setting.entry.graph.now setting.entry.plan.now n kept.old.place)) }
    ensures calls { OnOk result (U.calls updater.new ≤ U.calls updater.old + touched_work U.answer setting.entry.graph.now setting.entry.plan.now n kept.old.place) }
    ensures faults { O.faults out.old ≤ O.faults out.new }
    ensures failed { result ≡ Err Trouble.Failed → HasRisen (O.faults out.old) (O.faults out.new) }
{
    let Setting {
        alloc,
        graph,
        plan,
        form,
        ..
    } = setting;
    edits_are_taken_back();
    let run = &plan.runs.as_slice()[kept.place as usize];
    let collection = &plan.collections.as_slice()[run.collection as usize];
    let matrix = &made[run.collection as usize];
    let engine = &mut kept.engine;
    match engine.advance::<U>(graph, run, matrix, changes, updater) {
        Ok(()) => {}
        Err(NoMemory) => return Err(Trouble::NoMemory),
    }
    let ran = RanViews {
        graph,
        run,
        collection,
        matrix,
        engine: &kept.engine,
    };
    write_from::<O, U>(alloc, ran, 0, form, out)
}

// Brings each kept run to them, in the order of keeping.
fn follow_all<O: Sink, U: Updater>(
    setting: Setting,
    n: usize,
    made: &[Matrix],
    changes: &[(EdgeNo, bool)],
    kept: &mut [Kept],
    out: &mut O,
    updater: &mut U,
) -> Result<(), Trouble>
    requires fits { PlanFits setting.graph.now setting.plan.now }
    requires step { (s : Step) × (slice_get setting.plan.now.steps n ≡ Some s) × (edits s ≡ true) }
    requires matrices { MatricesAt setting.graph.now setting.plan.now (n + 1) made.now }
    requires turns { (before : List MatrixData) × MatricesAt setting.graph.now setting.plan.now n before × AreEdited before made.now changes.now × All (IsKept U.answer setting.graph.now setting.plan.now n before) kept.old }
    ensures kept { OnOk result (All (IsKept U.answer setting.entry.graph.now setting.entry.plan.now (n + 1) made.now) kept.new) }
    ensures places { OnOk result (places_of kept.new ≡ places_of kept.old) }
    ensures ok { OnOk result (O.written out.new ≡ appended (O.written out.old) (flat_map (followed_text U.answer setting.entry.form setting.entry.graph.now setting.entry.plan.now n) (places_of kept.old))) }
    ensures err { OnErr result (GrewByFront (O.written out.old) (O.written out.new) (flat_map (followed_text U.answer setting.entry.form setting.entry.graph.now setting.entry.plan.now n) (places_of kept.old))) }
    ensures calls { OnOk result (U.calls updater.new ≤ U.calls updater.old + sum_by (touched_work U.answer setting.entry.graph.now setting.entry.plan.now n) (places_of kept.old)) }
    ensures faults { O.faults out.old ≤ O.faults out.new }
    ensures failed { result ≡ Err Trouble.Failed → HasRisen (O.faults out.old) (O.faults out.new) }
{
    for i in 0..kept.len() {
        if let Err(trouble) = follow::<O, U>(
            setting,
            n,
            made,
            changes,
            &mut kept[i],
            out,
            updater,
        ) {
            return Err(trouble);
        }
    }
    Ok(())
}

// Makes edges live, or not, in each matrix, and brings each kept run to them in the order of keeping: the tables of all its views
// are written, also where nothing changed.
fn execute_edit<'g, O: Sink, U: Updater>(
    setting: Setting<'g>,
    n: usize,
    changes: &[(EdgeNo, bool)],
    state: &mut State<'g>,
    out: &mut O,
    updater: &mut U,
) -> Result<(), Trouble>
    requires fits { PlanFits setting.graph.now setting.plan.now }
    requires step { (s : Step) × (slice_get setting.plan.now.steps n ≡ Some s) × (edits s ≡ true) }
    requires at { IsAt U.answer setting.graph.now setting.plan.now n state.old.live.items state.old.made.items state.old.kept.items }
    requires changes { AreTurned (live_at setting.graph.now setting.plan.now n) (live_at setting.graph.now setting.plan.now (n + 1)) changes.now }
    ensures at { OnOk result (IsAt U.answer setting.entry.graph.now setting.entry.plan.now (n + 1) state.new.live.items state.new.made.items state.new.kept.items) }
    ensures ok { OnOk result (O.written out.new ≡ appended (O.written out.old) (edit_text U.answer setting.entry.form setting.entry.graph.now setting.entry.plan.now n)) }
    ensures err { OnErr result (GrewByFront (O.written out.old) (O.written out.new) (edit_text U.answer setting.entry.form setting.entry.graph.now setting.entry.plan.now n)) }
    ensures calls { OnOk result (U.calls updater.new ≤ U.calls updater.old + step_work U.answer setting.entry.graph.now setting.entry.plan.now n) }
    ensures faults { O.faults out.old ≤ O.faults out.new }
    ensures failed { result ≡ Err Trouble.Failed → HasRisen (O.faults out.old) (O.faults out.new) }
{
    turn(&mut state.live, changes);
    edit_all(&mut state.made, changes);
    follow_all::<O, U>(
        setting,
        n,
        &state.made,
        changes,
        &mut state.kept,
        out,
        updater,
    )
}

/// Lets so many edges come, from this one on.
pub(crate) fn execute_insert<'g, O: Sink, U: Updater>(
    setting: Setting<'g>,
    n: usize,
    first: u32,
    count: u32,
    state: &mut State<'g>,
    out: &mut O,
    updater: &mut U,
) -> Result<(), Trouble>
    requires fits { PlanFits setting.graph.now setting.plan.now }
    requires step { slice_get setting.plan.now.steps n ≡ Some (Step.Insert first count) }
    requires at { IsAt U.answer setting.graph.now setting.plan.now n state.old.live.items state.old.made.items state.old.kept.items }
    ensures at { OnOk result (IsAt U.answer setting.entry.graph.now setting.entry.plan.now (n + 1) state.new.live.items state.new.made.items state.new.kept.items) }
    ensures ok { OnOk result (O.written out.new ≡ appended (O.written out.old) (edit_text U.answer setting.entry.form setting.entry.graph.now setting.entry.plan.now n)) }
    ensures err { OnErr result (GrewByFront (O.written out.old) (O.written out.new) (edit_text U.answer setting.entry.form setting.entry.graph.now setting.entry.plan.now n)) }
    ensures calls { OnOk result (U.calls updater.new ≤ U.calls updater.old + step_work U.answer setting.entry.graph.now setting.entry.plan.now n) }
    ensures faults { O.faults out.old ≤ O.faults out.new }
    ensures failed { result ≡ Err Trouble.Failed → HasRisen (O.faults out.old) (O.faults out.new) }
{
    let _all = setting.graph.edge_count();
    match edges_inserted(setting.alloc, first, count) {
        Ok(changes) => execute_edit::<O, U>(setting, n, changes.as_slice(), state, out, updater),
        Err(NoMemory) => Err(Trouble::NoMemory),
    }
}

/// Lets the live edges go for which the predicate holds.
pub(crate) fn execute_remove<'g, O: Sink, U: Updater>(
    setting: Setting<'g>,
    n: usize,
    rule: &Pred,
    state: &mut State<'g>,
    out: &mut O,
    updater: &mut U,
) -> Result<(), Trouble>
    requires fits { PlanFits setting.graph.now setting.plan.now }
    requires step { slice_get setting.plan.now.steps n ≡ Some (Step.Remove rule.now) }
    requires at { IsAt U.answer setting.graph.now setting.plan.now n state.old.live.items state.old.made.items state.old.kept.items }
    ensures at { OnOk result (IsAt U.answer setting.entry.graph.now setting.entry.plan.now (n + 1) state.new.live.items state.new.made.items state.new.kept.items) }
    ensures ok { OnOk result (O.written out.new ≡ appended (O.written out.old) (edit_text U.answer setting.entry.form setting.entry.graph.now setting.entry.plan.now n)) }
    ensures err { OnErr result (GrewByFront (O.written out.old) (O.written out.new) (edit_text U.answer setting.entry.form setting.entry.graph.now setting.entry.plan.now n)) }
    ensures calls { OnOk result (U.calls updater.new ≤ U.calls updater.old + step_work U.answer setting.entry.graph.now setting.entry.plan.now n) }
    ensures faults { O.faults out.old ≤ O.faults out.new }
    ensures failed { result ≡ Err Trouble.Failed → HasRisen (O.faults out.old) (O.faults out.new) }
{
    let Setting { alloc, graph, .. } = setting;
    match edges_removed(alloc, graph, &state.live, rule) {
        Ok(changes) => execute_edit::<O, U>(setting, n, changes.as_slice(), state, out, updater),
        Err(NoMemory) => Err(Trouble::NoMemory),
    }
}
