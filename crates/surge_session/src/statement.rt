//! What a statement asks for.

ghost use Rattle.std.specs.Prelude.{◌≡◌, ◌+◌, ◌≤◌, ℕ, Some, length, slice_get, slice_range, flat_map, sum_by, All, OnOk, OnErr};
ghost use Rattle.surge_outside.specs.Counts.{HasRisen};
ghost use Rattle.surge_outside.specs.Written.{GrewByFront, appended};
ghost use Rattle.gvdl_check.specs.Fits.{PlanFits};
ghost use Rattle.gvdl_check.specs.Shows.{is_show};
ghost use Rattle.surge_session.specs.Output.{made_at, kept_text, append_text, is_hidden, shown_text, shown_tree, groups_text, work_text, step_text};
ghost use Rattle.surge_session.specs.Live.{graph_at};
ghost use Rattle.surge_session.specs.Works.{added_work, step_work};
ghost use Rattle.surge_session.specs.State.{IsAt, IsKept, MatricesAt, places_of};

use crate::edit::{execute_insert, execute_remove};
use crate::groups::{Grouping, write_groups};
use crate::kept::Kept;
use crate::order::write_order;
use crate::run::{run_first, run_more};
use crate::setting::{RanViews, Setting};
use crate::state::State;
use crate::tables::{is_changes, views_between, write_from};
use crate::tree::write_tree;
use crate::work::write_work;
use graph_model::Graph;
use gvdl_check::{CollectionPlan, Plan, Step};
use result_tables::Form;
use std::alloc::Global;
use surge_outside::{NoMemory, Sink, Trouble};
use vertex_lang::Updater;
use view_matrix::Matrix;

// Makes a run, and keeps it if it has a name.
fn execute_run<'g, O: Sink, U: Updater>(
    setting: Setting<'g>,
    n: usize,
    place: u32,
    state: &mut State<'g>,
    out: &mut O,
    updater: &mut U,
) -> Result<(), Trouble>
    requires fits { PlanFits setting.graph.now setting.plan.now }
    requires step { slice_get setting.plan.now.steps n ≡ Some (Step.Run place) }
    requires at { IsAt U.answer setting.graph.now setting.plan.now n state.old.live.items state.old.made.items state.old.kept.items }
    ensures at { OnOk result (IsAt U.answer setting.entry.graph.now setting.entry.plan.now (n + 1) state.new.live.items state.new.made.items state.new.kept.items) }
    ensures ok { OnOk result (O.written out.new ≡ appended (O.written out.old) (step_text U.answer setting.entry.form setting.entry.graph.now setting.entry.plan.now n)) }
    ensures err { OnErr result (GrewByFront (O.written out.old) (O.written out.new) (step_text U.answer setting.entry.form setting.entry.graph.now setting.entry.plan.now n)) }
    ensures calls { OnOk result (U.calls updater.new ≤ U.calls updater.old + step_work U.answer setting.entry.graph.now setting.entry.plan.now n) }
    ensures faults { O.faults out.old ≤ O.faults out.new }
    ensures failed { result ≡ Err Trouble.Failed → HasRisen (O.faults out.old) (O.faults out.new) }
{
    let Setting {
        alloc,
        graph,
        plan,
        form,
        turns,
    } = setting;
    let run = &plan.runs.as_slice()[place as usize];
    let collection = &plan.collections.as_slice()[run.collection as usize];
    let matrix = &state.made[run.collection as usize];
    let engine = match run_first(alloc, graph, run, matrix, turns, updater) {
        Ok(engine) => engine,
        Err(NoMemory) => return Err(Trouble::NoMemory),
    };
    let ran = RanViews {
        graph,
        run,
        collection,
        matrix,
        engine: &engine,
    };
    if let Err(trouble) = write_from::<O, U>(alloc, ran, 0, form, out) {
        return Err(trouble);
    }
    match state.keep::<U>(graph, plan, n, place, run, engine) {
        Ok(()) => Ok(()),
        Err(NoMemory) => Err(Trouble::NoMemory),
    }
}

// The views that a statement adds to the collection at a place: those that its matrix, one of these, has from number `first` on.
#[derive(Clone, Copy)]
struct Added<'a> {
    collection: &'a CollectionPlan,
    made: &'a [Matrix],
    place: u32,
    first: u32,
}

// Makes a kept run on the views that were added to a collection, if it is a run on this collection, and writes their tables.
fn append_kept<O: Sink, U: Updater>(
    setting: Setting,
    n: usize,
    added: Added,
    kept: &mut Kept,
    out: &mut O,
    updater: &mut U,
) -> Result<(), Trouble>
    requires fits { PlanFits setting.graph.now setting.plan.now }
    requires step { (number count : ℕ) × (slice_get setting.plan.now.steps n ≡ Some (Step.Append added.place number count)) }
    requires collection { slice_get setting.plan.now.collections added.place ≡ Some added.collection.now }
    requires matrices { MatricesAt setting.graph.now setting.plan.now (n + 1) added.made.now }
    requires first { added.first ≡ length (made_at setting.plan.now n added.place) }
    requires kept { IsKept U.answer setting.graph.now setting.plan.now n added.made.now kept.old }
    ensures kept { OnOk result (IsKept U.answer setting.entry.graph.now setting.entry.plan.now (n + 1) added.entry.made.now kept.new) }
    ensures place { kept.new.place ≡ kept.old.place }
    ensures ok { OnOk result (O.written out.new ≡ appended (O.written out.old) (kept_text U.answer setting.entry.form (graph_at setting.entry.graph.now setting.entry.plan.now (n + 1)) setting.entry.plan.now added.entry.collection.now.name (slice_range added.entry.collection.now.views added.entry.first (length (made_at setting.entry.plan.now (n + 1) added.entry.place))) added.entry.place kept.old.place)) }
    ensures err { OnErr result (GrewByFront (O.written out.old) (O.written out.new) (kept_text U.answer setting.entry.form (graph_at setting.entry.graph.now setting.entry.plan.now (n + 1)) setting.entry.plan.now added.entry.collection.now.name (slice_range added.entry.collection.now.views added.entry.first (length (made_at setting.entry.plan.now (n + 1) added.entry.place))) added.entry.place kept.old.place)) }
    ensures calls { OnOk result (U.calls updater.new ≤ U.calls updater.old + added_work U.answer setting.entry.graph.now setting.entry.plan.now n added.entry.place kept.old.place) }
    ensures faults { O.faults out.old ≤ O.faults out.new }
    ensures failed { result ≡ Err Trouble.Failed → HasRisen (O.faults out.old) (O.faults out.new) }
{
    let Setting {
        alloc,
        graph,
        plan,
        form,
        ..
    } = setting;
    let Added {
        collection,
        made,
        place,
        first,
    } = added;
    let run = &plan.runs.as_slice()[kept.place as usize];
    if run.collection != place {
        return Ok(());
    }
    let matrix = &made[place as usize];
    let engine = &mut kept.engine;
    match run_more(setting, run, engine, matrix, first, updater) {
        Ok(()) => {}
        Err(NoMemory) => return Err(Trouble::NoMemory),
    }
    let ran = RanViews {
        graph,
        run,
        collection,
        matrix,
        engine: &kept.engine,
    };
    write_from::<O, U>(alloc, ran, first, form, out)
}

// Makes each kept run on the views that were added to its collection.
fn append_all<O: Sink, U: Updater>(
    setting: Setting,
    n: usize,
    added: Added,
    kept: &mut [Kept],
    out: &mut O,
    updater: &mut U,
) -> Result<(), Trouble>
    requires fits { PlanFits setting.graph.now setting.plan.now }
    requires step { (number count : ℕ) × (slice_get setting.plan.now.steps n ≡ Some (Step.Append added.place number count)) }
    requires collection { slice_get setting.plan.now.collections added.place ≡ Some added.collection.now }
    requires matrices { MatricesAt setting.graph.now setting.plan.now (n + 1) added.made.now }
    requires first { added.first ≡ length (made_at setting.plan.now n added.place) }
    requires kept { All (IsKept U.answer setting.graph.now setting.plan.now n added.made.now) kept.old }
    ensures kept { OnOk result (All (IsKept U.answer setting.entry.graph.now setting.entry.plan.now (n + 1) added.entry.made.now) kept.new) }
    ensures places { OnOk result (places_of kept.new ≡ places_of kept.old) }
    ensures ok { OnOk result (O.written out.new ≡ appended (O.written out.old) (flat_map (kept_text U.answer setting.entry.form (graph_at setting.entry.graph.now setting.entry.plan.now (n + 1)) setting.entry.plan.now added.entry.collection.now.name (slice_range added.entry.collection.now.views added.entry.first (length (made_at setting.entry.plan.now (n + 1) added.entry.place))) added.entry.place) (places_of kept.old))) }
    ensures err { OnErr result (GrewByFront (O.written out.old) (O.written out.new) (flat_map (kept_text U.answer setting.entry.form (graph_at setting.entry.graph.now setting.entry.plan.now (n + 1)) setting.entry.plan.now added.entry.collection.now.name (slice_range added.entry.collection.now.views added.entry.first (length (made_at setting.entry.plan.now (n + 1) added.entry.place))) added.entry.place) (places_of kept.old))) }
    ensures calls { OnOk result (U.calls updater.new ≤ U.calls updater.old + sum_by (added_work U.answer setting.entry.graph.now setting.entry.plan.now n added.entry.place) (places_of kept.old)) }
    ensures faults { O.faults out.old ≤ O.faults out.new }
    ensures failed { result ≡ Err Trouble.Failed → HasRisen (O.faults out.old) (O.faults out.new) }
{
    for i in 0..kept.len() {
        if let Err(trouble) = append_kept(setting, n, added, &mut kept[i], out, updater) {
            return Err(trouble);
        }
    }
    Ok(())
}

// Adds views to a collection, and makes each kept run on them.
fn execute_append<'g, O: Sink, U: Updater>(
    setting: Setting<'g>,
    n: usize,
    place: u32,
    count: u32,
    state: &mut State<'g>,
    out: &mut O,
    updater: &mut U,
) -> Result<(), Trouble>
    requires fits { PlanFits setting.graph.now setting.plan.now }
    requires step { (first : ℕ) × (slice_get setting.plan.now.steps n ≡ Some (Step.Append place first count)) }
    requires at { IsAt U.answer setting.graph.now setting.plan.now n state.old.live.items state.old.made.items state.old.kept.items }
    ensures at { OnOk result (IsAt U.answer setting.entry.graph.now setting.entry.plan.now (n + 1) state.new.live.items state.new.made.items state.new.kept.items) }
    ensures ok { OnOk result (O.written out.new ≡ appended (O.written out.old) (append_text U.answer setting.entry.form setting.entry.graph.now setting.entry.plan.now n place)) }
    ensures err { OnErr result (GrewByFront (O.written out.old) (O.written out.new) (append_text U.answer setting.entry.form setting.entry.graph.now setting.entry.plan.now n place)) }
    ensures calls { OnOk result (U.calls updater.new ≤ U.calls updater.old + step_work U.answer setting.entry.graph.now setting.entry.plan.now n) }
    ensures faults { O.faults out.old ≤ O.faults out.new }
    ensures failed { result ≡ Err Trouble.Failed → HasRisen (O.faults out.old) (O.faults out.new) }
{
    let Setting {
        alloc,
        graph,
        plan,
        ..
    } = setting;
    let collection = &plan.collections.as_slice()[place as usize];
    let first = state.views(graph, plan, n, place);
    match state.grow::<U>(alloc, graph, plan, n, place, count) {
        Ok(()) => {
            let added = Added {
                collection,
                made: &state.made,
                place,
                first,
            };
            append_all(setting, n, added, &mut state.kept, out, updater)
        }
        Err(NoMemory) => Err(Trouble::NoMemory),
    }
}

// Shows the greedy order of the views that a collection has so far.
fn show_order<O: Sink>(
    alloc: Global,
    plan: &Plan,
    n: usize,
    place: u32,
    state: &State,
    graph: &Graph,
    out: &mut O,
) -> Result<(), Trouble>
    requires step { slice_get plan.now.steps n ≡ Some (Step.ShowOrder place) }
    requires at { MatricesAt graph.now plan.now n state.now.made.items }
    ensures ok { OnOk result (O.written out.new ≡ appended (O.written out.old) (shown_text graph.now plan.now n place)) }
    ensures err { OnErr result (GrewByFront (O.written out.old) (O.written out.new) (shown_text graph.now plan.now n place)) }
    ensures faults { O.faults out.old ≤ O.faults out.new }
    ensures failed { result ≡ Err Trouble.Failed → HasRisen (O.faults out.old) (O.faults out.new) }
{
    match plan.collections.as_slice().get(place as usize) {
        Some(collection) => {
            let matrix = &state.made[place as usize];
            let views = views_between(collection.views.as_slice(), 0, matrix.views() as usize);
            write_order(alloc, &collection.name, views, matrix, graph, out)
        }
        None => Ok(()),
    }
}

// Shows the tree of the views that a collection has so far.
fn show_tree<O: Sink>(
    alloc: Global,
    plan: &Plan,
    n: usize,
    place: u32,
    state: &State,
    graph: &Graph,
    out: &mut O,
) -> Result<(), Trouble>
    requires step { slice_get plan.now.steps n ≡ Some (Step.ShowTree place) }
    requires at { MatricesAt graph.now plan.now n state.now.made.items }
    ensures ok { OnOk result (O.written out.new ≡ appended (O.written out.old) (shown_tree graph.now plan.now n place)) }
    ensures err { OnErr result (GrewByFront (O.written out.old) (O.written out.new) (shown_tree graph.now plan.now n place)) }
    ensures faults { O.faults out.old ≤ O.faults out.new }
    ensures failed { result ≡ Err Trouble.Failed → HasRisen (O.faults out.old) (O.faults out.new) }
{
    match plan.collections.as_slice().get(place as usize) {
        Some(collection) => {
            let matrix = &state.made[place as usize];
            let views = views_between(collection.views.as_slice(), 0, matrix.views() as usize);
            write_tree(alloc, &collection.name, views, matrix, graph, out)
        }
        None => Ok(()),
    }
}

// Counts the edges of the views that a collection has so far by the groups of their ends.
fn aggregate<O: Sink>(
    setting: Setting,
    n: usize,
    place: u32,
    grouping: Grouping,
    state: &State,
    out: &mut O,
) -> Result<(), Trouble>
    requires fits { PlanFits setting.graph.now setting.plan.now }
    requires step { slice_get setting.plan.now.steps n ≡ Some (Step.Aggregate place grouping.by grouping.sum) }
    requires at { MatricesAt setting.graph.now setting.plan.now n state.now.made.items }
    ensures ok { OnOk result (O.written out.new ≡ appended (O.written out.old) (groups_text setting.entry.graph.now setting.entry.plan.now n place grouping.by grouping.sum)) }
    ensures err { OnErr result (GrewByFront (O.written out.old) (O.written out.new) (groups_text setting.entry.graph.now setting.entry.plan.now n place grouping.by grouping.sum)) }
    ensures faults { O.faults out.old ≤ O.faults out.new }
    ensures failed { result ≡ Err Trouble.Failed → HasRisen (O.faults out.old) (O.faults out.new) }
{
    let Setting {
        alloc,
        graph,
        plan,
        ..
    } = setting;
    match plan.collections.as_slice().get(place as usize) {
        Some(collection) => {
            let matrix = &state.made[place as usize];
            let views = views_between(collection.views.as_slice(), 0, matrix.views() as usize);
            write_groups(alloc, &collection.name, views, matrix, graph, grouping, out)
        }
        None => Ok(()),
    }
}

// Shows the work of a kept run.
fn show_work<O: Sink, U: Updater>(
    alloc: Global,
    plan: &Plan,
    n: usize,
    place: u32,
    state: &State,
    graph: &Graph,
    out: &mut O,
) -> Result<(), Trouble>
    requires fits { PlanFits graph.now plan.now }
    requires step { slice_get plan.now.steps n ≡ Some (Step.ShowWork place) }
    requires at { IsAt U.answer graph.now plan.now n state.now.live.items state.now.made.items state.now.kept.items }
    ensures ok { OnOk result (O.written out.new ≡ appended (O.written out.old) (work_text U.answer graph.now plan.now n place)) }
    ensures err { OnErr result (GrewByFront (O.written out.old) (O.written out.new) (work_text U.answer graph.now plan.now n place)) }
    ensures faults { O.faults out.old ≤ O.faults out.new }
    ensures failed { result ≡ Err Trouble.Failed → HasRisen (O.faults out.old) (O.faults out.new) }
{
    let run = &plan.runs.as_slice()[place as usize];
    match (&run.keep, state.find(place)) {
        (Some(name), Some(i)) => {
            let collection = &plan.collections.as_slice()[run.collection as usize];
            let matrix = &state.made[run.collection as usize];
            let views = views_between(collection.views.as_slice(), 0, matrix.views() as usize);
            write_work(alloc, name.as_str(), views, &state.kept[i].engine, out)
        }
        _ => Ok(()),
    }
}

// Adds the views with which a collection is made.
fn execute_make<U: Updater>(
    alloc: Global,
    plan: &Plan,
    n: usize,
    place: u32,
    count: u32,
    state: &mut State,
    graph: &Graph,
) -> Result<(), Trouble>
    requires fits { PlanFits graph.now plan.now }
    requires step { slice_get plan.now.steps n ≡ Some (Step.Make place count) }
    requires at { IsAt U.answer graph.now plan.now n state.old.live.items state.old.made.items state.old.kept.items }
    ensures at { OnOk result (IsAt U.answer graph.now plan.now (n + 1) state.new.live.items state.new.made.items state.new.kept.items) }
    ensures memory { OnErr result (result ≡ Err Trouble.NoMemory) }
{
    match state.grow::<U>(alloc, graph, plan, n, place, count) {
        Ok(()) => Ok(()),
        Err(NoMemory) => Err(Trouble::NoMemory),
    }
}

// Whether a statement shows something.
fn is_show(step: &Step) -> bool
    ensures { result ≡ is_show step.now }
{
    match step {
        Step::ShowOrder { .. } => true,
        Step::ShowWork { .. } => true,
        Step::ShowTree { .. } => true,
        Step::Aggregate { .. } => true,
        _ => false,
    }
}

// Whether a statement is passed by in a form, since it shows something.
fn is_hidden(step: &Step, form: Form) -> bool
    ensures { result ≡ is_hidden form step.now }
{
    is_show(step) && is_changes(form)
}

/// Does what statement `n` asks for, and writes what it prints.
pub(crate) fn execute<'g, O: Sink, U: Updater>(
    setting: Setting<'g>,
    n: usize,
    step: &Step,
    state: &mut State<'g>,
    out: &mut O,
    updater: &mut U,
) -> Result<(), Trouble>
    requires fits { PlanFits setting.graph.now setting.plan.now }
    requires step { slice_get setting.plan.now.steps n ≡ Some step.now }
    requires at { IsAt U.answer setting.graph.now setting.plan.now n state.old.live.items state.old.made.items state.old.kept.items }
    ensures at { OnOk result (IsAt U.answer setting.entry.graph.now setting.entry.plan.now (n + 1) state.new.live.items state.new.made.items state.new.kept.items) }
    ensures ok { OnOk result (O.written out.new ≡ appended (O.written out.old) (step_text U.answer setting.entry.form setting.entry.graph.now setting.entry.plan.now n)) }
    ensures err { OnErr result (GrewByFront (O.written out.old) (O.written out.new) (step_text U.answer setting.entry.form setting.entry.graph.now setting.entry.plan.now n)) }
    ensures calls { OnOk result (U.calls updater.new ≤ U.calls updater.old + step_work U.answer setting.entry.graph.now setting.entry.plan.now n) }
    ensures faults { O.faults out.old ≤ O.faults out.new }
    ensures failed { result ≡ Err Trouble.Failed → HasRisen (O.faults out.old) (O.faults out.new) }
{
    if is_hidden(step, setting.form) {
        return Ok(());
    }
    let Setting {
        alloc,
        graph,
        plan,
        ..
    } = setting;
    match step {
        Step::Make { collection, count } => {
            execute_make::<U>(alloc, plan, n, *collection, *count, state, graph)
        }
        Step::Run { run } => execute_run(setting, n, *run, state, out, updater),
        Step::Append {
            collection,
            count,
            ..
        } => execute_append(setting, n, *collection, *count, state, out, updater),
        Step::ShowOrder { collection } => {
            show_order(alloc, plan, n, *collection, state, graph, out)
        }
        Step::ShowWork { run } => show_work::<O, U>(alloc, plan, n, *run, state, graph, out),
        Step::ShowTree { collection } => show_tree(alloc, plan, n, *collection, state, graph, out),
        Step::Insert { first, count } => execute_insert::<O, U>(
            setting, n, *first, *count, state, out, updater,
        ),
        Step::Remove { rule } => { execute_remove::<O, U>(setting, n, rule, state, out, updater) }
        Step::Aggregate {
            collection,
            by,
            sum,
        } => {
            let grouping = Grouping { by: *by, sum: *sum };
            aggregate(setting, n, *collection, grouping, state, out)
        }
        Step::Nothing => Ok(()),
    }
}
