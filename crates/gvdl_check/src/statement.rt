//! Statements over what is known before them.

ghost use Rattle.std.specs.Prelude.{◌≡◌, ◌<◌, ◌≤◌, ◌+◌, ◌-◌, ◌^◌, length, get_or, IfOk, Some};
ghost use Rattle.gvdl_programs.specs.declared.template.Callable.{Callable};
ghost use Rattle.gvdl_programs.specs.Judging.{Tells, Leaves};
ghost use Rattle.gvdl_programs.specs.Fits.{ProgramFits};
ghost use Rattle.gvdl_check.specs.Known.{first_names, with_insert};
ghost use Rattle.gvdl_check.specs.Plans.{group_at, load, single, collection, views_appended, append, program, program_meant};
ghost use Rattle.gvdl_check.specs.Plans.{run_planned, run_added, keep_of, is_edit, edit_seen, last_edit, remove, sum_of, aggregate, show_order, show_tree, show_work, statement_added, statement_judged};
ghost use Rattle.gvdl_check.specs.Names.{program_named};
ghost use Rattle.gvdl_check.specs.Fits.{KnownFits, IsSmall};

use crate::call::{Limits, order_of};
use crate::copies::{copied_text, copied_words};
use crate::form::suits;
use crate::item::add_items;
use crate::keep::add_keep;
use crate::known::Known;
use crate::names::{Meaning, Names};
use crate::plan::{CollectionPlan, RunPlan, Step};
use crate::predicate::predicate;
use crate::singles::Singles;
use edge_predicates::Pred;
use graph_model::Graph;
use gvdl_programs::{
    Callable, Refusal, Stop, WrittenProgram, call as called, column_of, declare, int_column,
};
use gvdl_tree::{Call, Item, PredTree, Statement};
use std::alloc::Global;
use std::mem;
use surge_outside::{List, NoMemory, Text};
use vertex_lang::Program;

/// What a statement is told of where it stands.
#[derive(Clone, Copy)]
pub(crate) struct Moment {
    /// Its number.
    pub(crate) number: u32,
    /// The number of the last statement by which edges come or go; 0 where there is none.
    pub(crate) last_edit: u32,
    /// How many edges come with the next file.
    pub(crate) group: u32,
}

// The names that stand from the start.
fn first_names(alloc: Global) -> Result<Names, NoMemory>
    ensures { IfOk result (λ names. names ≡ first_names) }
{
    let mut names = Names::new(alloc);
    names.add(alloc, "hops", Meaning::Program(Callable::Hops))?;
    names.add(alloc, "dist", Meaning::Program(Callable::Dist))?;
    names.add(alloc, "wcc", Meaning::Program(Callable::Wcc))?;
    names.add(alloc, "pagerank", Meaning::Program(Callable::Pagerank))?;
    Ok(names)
}

/// How many edges come with the file that has this place among the edges file and those that the script inserts.
pub(crate) fn group_at(groups: &[u32], place: u32) -> u32
    ensures { result ≡ group_at groups.now place }
{
    match groups.get(place as usize) {
        Some(count) => *count,
        None => 0,
    }
}

/// What is known after the load of a graph with this name, where so many edges come with the edges file.
pub(crate) fn load(alloc: Global, graph: &str, loaded: u32) -> Result<Known, Stop>
    ensures { Tells (load loaded graph.now) result }
{
    let mut names = first_names(alloc)?;
    names.expect_new(graph)?;
    names.add(alloc, graph, Meaning::Base(None))?;
    Ok(Known {
        names,
        singles: Singles::new(alloc),
        collections: List::new(alloc),
        runs: List::new(alloc),
        numbers: List::new(alloc),
        steps: List::new(alloc),
        loaded,
        edges: loaded,
        files: 1,
    })
}

fn add_single(
    alloc: Global,
    graph: &Graph,
    known: &mut Known,
    name: &str,
    base: &str,
    tree: &PredTree,
) -> Result<(), Stop>
    requires { length known.old.singles < 2 ^ 32 }
    ensures { Leaves (single graph.now known.old name.now base.now tree.now) result known.new }
{
    known.names.expect_new(name)?;
    let below = known.names.base(base)?;
    let pred = predicate(alloc, graph, tree)?;
    let place = known.singles.len() as u32;
    known.names.add(alloc, name, Meaning::Base(Some(place)))?;
    known.singles.push(below, pred)?;
    known.steps.push(Step::Nothing)?;
    Ok(())
}

fn add_collection(
    alloc: Global,
    graph: &Graph,
    known: &mut Known,
    name: &Text,
    base: &str,
    items: &[Item],
) -> Result<(), Stop>
    requires { length known.old.collections < 2 ^ 32 }
    ensures { Leaves (collection graph.now known.old name.now base.now items.now) result known.new }
{
    known.names.expect_new(name.as_str())?;
    let base = known.names.base(base)?;
    let rules = known.singles.rules(alloc, base)?;
    let mut views = List::new(alloc);
    add_items(alloc, graph, rules.as_slice(), &mut views, items)?;
    let place = known.collections.len() as u32;
    let count = views.len() as u32;
    let plan = CollectionPlan {
        name: copied_text(alloc, name)?,
        views,
    };
    let meaning = Meaning::Collection { place, base };
    known.names.add(alloc, name.as_str(), meaning)?;
    known.collections.push(plan)?;
    known.steps.push(Step::Make {
        collection: place,
        count,
    })?;
    Ok(())
}

// Adds the views of the items to the collection with this place. After a refusal nothing is said of the collections.
fn add_views(
    alloc: Global,
    graph: &Graph,
    base: &[Pred],
    collections: &mut List<CollectionPlan>,
    place: usize,
    items: &[Item],
) -> Result<(), Stop>
    requires { place < length collections.old }
    ensures { Leaves (views_appended graph.now base.now collections.old place items.now) result collections.new }
{
    let mut all = mem::replace(collections, List::new(alloc)).into_vec();
    add_items(alloc, graph, base, &mut all[place].views, items)?;
    *collections = List::from_vec(all);
    Ok(())
}

fn add_append(
    alloc: Global,
    graph: &Graph,
    known: &mut Known,
    target: &str,
    items: &[Item],
) -> Result<(), Stop>
    requires { KnownFits graph.now known.old }
    ensures { Leaves (append graph.now known.old target.now items.now) result known.new }
{
    let (collection, base) = known.names.collection(target)?;
    let rules = known.singles.rules(alloc, base)?;
    let place = collection as usize;
    let first = known.collections.as_slice()[place].views.len();
    add_views(
        alloc,
        graph,
        rules.as_slice(),
        &mut known.collections,
        place,
        items,
    )?;
    let count = known.collections.as_slice()[place].views.len() - first;
    known.steps.push(Step::Append {
        collection,
        first: first as u32,
        count: count as u32,
    })?;
    Ok(())
}

// A program that the script writes.
fn add_program(
    alloc: Global,
    graph: &Graph,
    known: &mut Known,
    name: &str,
    written: &WrittenProgram,
) -> Result<(), Stop>
    ensures { Leaves (program graph.now known.old name.now written.now.parameters.now written.now.along written.now.start.now written.now.send.now written.now.gather written.now.update.now) result known.new }
{
    known.names.expect_new(name)?;
    let template = declare(alloc, graph, written)?;
    let meaning = Meaning::Program(Callable::Written(template));
    known.names.add(alloc, name, meaning)?;
    known.steps.push(Step::Nothing)?;
    Ok(())
}

// The place of the collection that a run is on, and the program that its call means.
fn program_meant(
    alloc: Global,
    graph: &Graph,
    names: &Names,
    call: &Call,
    target: &str,
) -> Result<(u32, Program), Stop>
    requires { (c : Callable) → program_named names.now call.now.name ≡ Some c → ProgramFits graph.now c }
    ensures { Tells (program_meant graph.now names.now call.now target.now) result }
{
    let callable = match names.program(call.name.as_str()) {
        Some(callable) => callable,
        None => return Err(Stop::Refused(Refusal::UnknownName)),
    };
    let (collection, _base) = names.collection(target)?;
    let program = called(alloc, graph, callable, call.args.as_slice())?;
    Ok((collection, program))
}

// The plan of a run that may be kept under a name, before the name is asked about.
fn run_planned(
    alloc: Global,
    graph: &Graph,
    names: &Names,
    call: &Call,
    target: &str,
    limits: Limits,
    keep: &Option<Text>,
) -> Result<RunPlan, Stop>
    requires { (c : Callable) → program_named names.now call.now.name ≡ Some c → ProgramFits graph.now c }
    ensures { Tells (run_planned graph.now names.now call.now target.now limits keep.now) result }
{
    let (collection, program) = program_meant(alloc, graph, names, call, target)?;
    let (rounds, phases, split) = limits.judged()?;
    let (call, keep) = copied_words(alloc, call, keep)?;
    Ok(RunPlan {
        collection,
        call,
        program,
        rounds,
        order: order_of(limits.order),
        phases,
        split,
        keep,
        edited: false,
    })
}

// The name under which a run is kept: that which is written, but none where it has phases.
fn keep_of<'a>(
    phases: Option<u64>,
    keep: &'a Option<Text>,
    none: &'a Option<Text>,
) -> &'a Option<Text>
    requires { none.now ≡ None }
    ensures { result.now ≡ keep_of phases keep.now }
{
    match phases {
        None => keep,
        Some(_) => none,
    }
}

// A run that is planned, whose statement has this number, and that may be kept under a name.
fn add_run(
    alloc: Global,
    number: u32,
    known: &mut Known,
    plan: RunPlan,
    keep: &Option<Text>,
) -> Result<(), Stop>
    requires small { length known.old.runs < 2 ^ 32 }
    ensures { Leaves (run_added number known.old plan keep.now) result known.new }
{
    add_keep(alloc, &mut known.names, known.runs.as_slice(), keep)?;
    let run = known.runs.len() as u32;
    known.runs.push(plan)?;
    known.numbers.push(number)?;
    known.steps.push(Step::Run { run })?;
    Ok(())
}

// So many edges of a file.
fn add_insert(known: &mut Known, count: u32) -> Result<(), Stop>
    requires edges { known.old.edges + count < 2 ^ 32 }
    requires files { known.old.files + 1 < 2 ^ 32 }
    ensures { Leaves (Ok (with_insert known.old count)) result known.new }
{
    let first = known.edges;
    known.edges = first + count;
    known.files += 1;
    known.steps.push(Step::Insert { first, count })?;
    Ok(())
}

fn add_remove(alloc: Global, graph: &Graph, known: &mut Known, tree: &PredTree) -> Result<(), Stop>
    ensures { Leaves (remove graph.now known.old tree.now) result known.new }
{
    let rule = predicate(alloc, graph, tree)?;
    known.steps.push(Step::Remove { rule })?;
    Ok(())
}

// The column of the edges that is summed, where one is.
fn sum_of(graph: &Graph, sum: &Option<Text>) -> Result<Option<u32>, Stop>
    ensures { Tells (sum_of graph.now sum.now) result }
{
    match sum {
        None => Ok(None),
        Some(property) => {
            let column = int_column(graph.edge_columns().as_slice(), property.as_str())?;
            Ok(Some(column))
        }
    }
}

fn add_aggregate(
    graph: &Graph,
    known: &mut Known,
    target: &str,
    by: &str,
    sum: &Option<Text>,
) -> Result<(), Stop>
    ensures { Leaves (aggregate graph.now known.old target.now by.now sum.now) result known.new }
{
    let (collection, _base) = known.names.collection(target)?;
    let (by, _kind) = column_of(graph.node_columns().as_slice(), by)?;
    let sum = sum_of(graph, sum)?;
    known.steps.push(Step::Aggregate {
        collection,
        by,
        sum,
    })?;
    Ok(())
}

fn add_show_order(known: &mut Known, name: &str) -> Result<(), Stop>
    ensures { Leaves (show_order known.old name.now) result known.new }
{
    let (collection, _base) = known.names.collection(name)?;
    known.steps.push(Step::ShowOrder { collection })?;
    Ok(())
}

fn add_show_tree(known: &mut Known, name: &str) -> Result<(), Stop>
    ensures { Leaves (show_tree known.old name.now) result known.new }
{
    let (collection, _base) = known.names.collection(name)?;
    known.steps.push(Step::ShowTree { collection })?;
    Ok(())
}

// The number of the statement of the run with this place.
fn number_at(numbers: &[u32], place: usize) -> u32
    ensures { result ≡ get_or numbers.now place 0 }
{
    match numbers.get(place) {
        Some(number) => *number,
        None => 0,
    }
}

// The run must not be kept while edges come or go, the last of which do by the statement with this number.
fn add_show_work(known: &mut Known, last_edit: u32, name: &str) -> Result<(), Stop>
    ensures { Leaves (show_work last_edit known.old name.now) result known.new }
{
    let run = known.names.kept(name)?;
    if number_at(known.numbers.as_slice(), run as usize) < last_edit {
        return Err(Stop::Refused(Refusal::WorkEdited));
    }
    known.steps.push(Step::ShowWork { run })?;
    Ok(())
}

// Judges a statement that suits the form of its script over what is known, and notes what is known after it.
fn add_any(
    alloc: Global,
    graph: &Graph,
    moment: Moment,
    known: &mut Known,
    statement: &Statement,
) -> Result<(), Stop>
    requires fits { KnownFits graph.now known.old }
    requires small { IsSmall (2 ^ 31) known.old }
    requires edges { known.old.edges + moment.group < 2 ^ 32 }
    ensures { Leaves (statement_added graph.now moment known.old statement.now) result known.new }
{
    match statement {
        Statement::View { name, base, rule } => {
            add_single(alloc, graph, known, name.as_str(), base.as_str(), rule)
        }
        Statement::Collection { name, base, items } => {
            add_collection(alloc, graph, known, name, base.as_str(), items.as_slice())
        }
        Statement::Program {
            name,
            params,
            along,
            start,
            send,
            gather,
            update,
        } => {
            let written = WrittenProgram {
                parameters: params.as_slice(),
                along: *along,
                start,
                send,
                gather: *gather,
                update,
            };
            add_program(alloc, graph, known, name.as_str(), &written)
        }
        Statement::Run {
            call,
            target,
            within,
            number,
            order,
            split,
            keep,
            phases,
        } => {
            let limits = Limits {
                within: *within,
                number: *number,
                order: *order,
                split: *split,
                phases: *phases,
            };
            let none = None;
            let keep = keep_of(*phases, keep, &none);
            let names = &known.names;
            let plan = run_planned(alloc, graph, names, call, target.as_str(), limits, keep)?;
            add_run(alloc, moment.number, known, plan, keep)
        }
        Statement::Append { target, items } => {
            add_append(alloc, graph, known, target.as_str(), items.as_slice())
        }
        Statement::ShowOrder { name } => add_show_order(known, name.as_str()),
        Statement::ShowWork { name } => add_show_work(known, moment.last_edit, name.as_str()),
        Statement::ShowTree { name } => add_show_tree(known, name.as_str()),
        Statement::Insert { .. } => add_insert(known, moment.group),
        Statement::Remove { rule } => add_remove(alloc, graph, known, rule),
        Statement::Aggregate { target, by, sum } => {
            add_aggregate(graph, known, target.as_str(), by.as_str(), sum)
        }
    }
}

/// Judges a statement of a script of this form over what is known, and notes what is known after it. After a refusal nothing
/// is said of what is known.
pub(crate) fn add_statement(
    alloc: Global,
    form: Option<u64>,
    graph: &Graph,
    moment: Moment,
    known: &mut Known,
    statement: &Statement,
) -> Result<(), Stop>
    requires fits { KnownFits graph.now known.old }
    requires small { IsSmall (2 ^ 31) known.old }
    requires edges { known.old.edges + moment.group < 2 ^ 32 }
    ensures { Leaves (statement_judged form graph.now moment known.old statement.now) result known.new }
{
    if !suits(form, statement) {
        return Err(Stop::Refused(Refusal::NeedsForm));
    }
    add_any(alloc, graph, moment, known, statement)
}

fn is_edit(statement: &Statement) -> bool
    ensures { result ≡ is_edit statement.now }
{
    match statement {
        Statement::Insert { .. } | Statement::Remove { .. } => true,
        _ => false,
    }
}

// The number of the last statement so far by which edges come or go, where the next one has that number.
fn edit_seen(statement: &Statement, number: u32, found: u32) -> u32
    ensures { result ≡ edit_seen statement.now number found }
{
    if is_edit(statement) { number } else { found }
}

/// The number of the last of a script's statements by which edges come or go; 0 where there is none. The first of them is
/// statement 2, behind the load.
pub(crate) fn last_edit(statements: &[Statement]) -> u32
    requires { length statements.now < 2 ^ 31 }
    ensures { result ≡ last_edit statements.now }
{
    let mut number = 1;
    let mut found = 0;
    for statement in statements {
        number += 1;
        found = edit_seen(statement, number, found);
    }
    found
}
