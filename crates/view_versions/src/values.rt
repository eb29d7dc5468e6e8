//! The table of a view, read off its run.

ghost use Rattle.std.specs.Prelude.{◌≡◌, ◌≤◌, ◌⊎◌, List, Some, length, map, IfOk, IfSome};
ghost use Rattle.vertex_lang.specs.declared.arc.Arc.{Arc};
ghost use Rattle.vertex_lang.specs.Expressions.{Answer, start_of};
ghost use Rattle.vertex_lang.specs.Leaves.{IsChecked};
ghost use Rattle.vertex_lang.specs.Lone.{number_of};
ghost use Rattle.vertex_lang.specs.Rounds.{lone, nodes_of};
ghost use Rattle.result_tables.specs.Results.{shown};
ghost use Rattle.result_tables.specs.TableText.{table_of};
ghost use Rattle.round_kernel.specs.Histories.{AreStarts, IsHistory};
ghost use Rattle.view_matrix.specs.Matrices.{MatrixData};
ghost use Rattle.view_segment.specs.Tasks.{lone_of, task_over};
ghost use Rattle.view_versions.specs.Runs.{HoldsRun, IsSound};

use crate::run::ViewRun;
use change_lists::{History, assign};
use graph_model::{Graph, NodeNo, Val};
use result_tables::Table;
use std::alloc::Global;
use std::rc::Rc;
use surge_outside::{List, NoMemory};
use vertex_lang::{Outcome, Program, Rounds, start};

/// The answer of the plain run alone on a view that was run. The error is want of memory.
pub(crate) fn table_of(
    alloc: Global,
    program: &Program,
    graph: &Graph,
    rounds: Rounds,
    run: &ViewRun,
) -> Result<Table, NoMemory>
    requires checked { IsChecked program.now graph.now }
    requires limit { number_of rounds ≤ 1_000_000 }
    requires sound { IsSound program.now graph.now (number_of rounds) run.now.history }
    ensures { (answer : Answer) (m : MatrixData) → HoldsRun (task_over answer program.now graph.now rounds m) run.now
        → IfOk result (λ table. table ≡ table_of (lone_of (task_over answer program.now graph.now rounds m) run.now.view.0)) }
{
    let values = last_values(alloc, program, graph, limit_of(rounds), &run.history)?;
    Ok(Table {
        outcome: run.outcome,
        values: shown(alloc, run.outcome, values),
    })
}

// The values that a table shows: none where a run that was to settle did not.
fn shown(alloc: Global, outcome: Outcome, values: Vec<Val>) -> List<Val>
    ensures { result ≡ shown outcome values.items }
{
    match outcome {
        Outcome::Unsettled => List::new(alloc),
        _ => List::from_vec(values),
    }
}

// The values after all rounds: those at the start, with what changed from round to round.
fn last_values(
    alloc: Global,
    program: &Program,
    graph: &Graph,
    limit: u32,
    history: &History,
) -> Result<Vec<Val>, NoMemory>
    requires checked { IsChecked program.now graph.now }
    requires sound { IsSound program.now graph.now limit history.now }
    ensures { (answer : Answer) (arcs : List Arc) → IsHistory answer program.now graph.now (Some arcs) limit history.now
        → IfOk result (λ values. values.items ≡ lone answer program.now graph.now arcs limit) }
{
    let mut values = start_values(alloc, program, graph, &history.starts)?;
    let rounds = rounds_of(history, limit);
    for round in 0..rounds {
        assign(&mut values, history.changes_after(round));
    }
    Ok(values)
}

// Behind how many rounds nothing changes, but not more than so many.
fn rounds_of(history: &History, limit: u32) -> u32
    ensures few { result ≤ limit }
    ensures last { result ≡ limit ⊎ length history.now.changes ≤ result }
{
    let count = history.changes.len();
    if count < limit as usize {
        count as u32
    } else {
        limit
    }
}

// The value with which each node starts, which may be at hand.
fn start_values(
    alloc: Global,
    program: &Program,
    graph: &Graph,
    known: &Option<Rc<List<Val>>>,
) -> Result<Vec<Val>, NoMemory>
    requires checked { IsChecked program.now graph.now }
    requires known { IfSome known.now (λ starts. AreStarts program.now graph.now starts.value) }
    ensures { IfOk result (λ values. values.items ≡ map (start_of program.now graph.now) (nodes_of graph.now)) }
{
    match known {
        Some(starts) => Ok(Vec::from_slice(alloc, starts.as_slice())?),
        None => starts_anew(alloc, program, graph),
    }
}

/// The values with which the nodes start, evaluated by the program. The error is want of memory.
pub(crate) fn starts_anew(
    alloc: Global,
    program: &Program,
    graph: &Graph,
) -> Result<Vec<Val>, NoMemory>
    requires { IsChecked program.now graph.now }
    ensures { IfOk result (λ values. values.items ≡ map (start_of program.now graph.now) (nodes_of graph.now)) }
{
    let mut values = Vec::new(alloc);
    for node in 0..graph.node_count() {
        values.push(start(program, graph, NodeNo(node)))?;
    }
    Ok(values)
}

/// How many rounds are allowed.
pub(crate) fn limit_of(rounds: Rounds) -> u32
    ensures { result ≡ number_of rounds }
{
    match rounds {
        Rounds::Within(limit) => limit,
        Rounds::For(count) => count,
    }
}
