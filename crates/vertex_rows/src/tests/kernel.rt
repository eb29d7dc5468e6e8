//! Views stepped by the kernel of rounds, and the changes that a dataflow makes at positions.

ghost use Rattle.std.specs.Prelude.{◌≡◌, ◌<◌, ◌≤◌, Bool, List, Some, length, All, IfOk, OnOk};
ghost use Rattle.vertex_lang.specs.Leaves.{IsChecked};
ghost use Rattle.vertex_lang.specs.Lone.{number_of};
ghost use Rattle.arc_rows.specs.Views.{TellsAll, arcs_in};
ghost use Rattle.arc_rows.specs.RowLists.{AreAlong};
ghost use Rattle.round_kernel.specs.Histories.{IsHistory};
ghost use Rattle.round_kernel.specs.Kernels.{IsKernel};
ghost use Rattle.round_kernel.specs.Plans.{MayRun};

use crate::tests::plain::Made;
use change_lists::{Change, History};
use flow_rows::Timed;
use graph_model::{EdgeNo, Graph, NodeNo, Val};
use lattice_time::Position;
use round_kernel::{Behind, Kernel, Plan, Stepped};
use std::alloc::Global;
use surge_outside::{List, NoMemory};
use vertex_lang::{Program, Rounds, Updater};
use weighted::{Batch, Weight};

/// The position of a view, and a change of its values after all rounds.
type Moved = (u32, Change);

/// How the values change from view to view, and the sum of the works of the views.
#[derive(Drop)]
pub(crate) struct Moves {
    pub(crate) changes: List<Moved>,
    pub(crate) work: u64,
}

/// What the kernel keeps of a view, and which edges are in it.
#[derive(Drop)]
struct Stood {
    history: History,
    flags: Vec<bool>,
}

/// Which edges are in a view: of the first 32 ones those whose bit is set.
fn flags(alloc: Global, graph: &Graph, bits: u32) -> Result<Vec<bool>, NoMemory>
    ensures { IfOk result (λ flags. length flags.items ≡ length graph.now.ends) }
{
    let mut flags = Vec::new(alloc);
    for edge in 0..graph.edge_count() {
        flags.push(edge < 32 && bits >> edge & 1 == 1)?;
    }
    Ok(flags)
}

/// All edges of a graph, so also those in which two views differ.
fn all_edges(alloc: Global, graph: &Graph) -> Result<Vec<EdgeNo>, NoMemory>
    ensures within { IfOk result (λ es. All (λ e. e.0 < length graph.now.ends) es.items) }
    ensures all { IfOk result (λ es. (old new : List Bool) → length old ≡ length graph.now.ends
        → length new ≡ length graph.now.ends → TellsAll old new es.items) }
{
    let mut edges = Vec::new(alloc);
    for edge in 0..graph.edge_count() {
        edges.push(EdgeNo(edge))?;
    }
    Ok(edges)
}

/// Adds the changes of a view at a position.
fn push_changes(
    changes: &mut List<Moved>,
    position: u32,
    change: &[Change],
) -> Result<(), NoMemory> {
    for moved in change {
        changes.push((position, *moved))?;
    }
    Ok(())
}

/// Adds the changes of a view at a position, and its work.
fn add_view(moves: &mut Moves, position: u32, stepped: &Stepped) -> Result<(), NoMemory> {
    push_changes(&mut moves.changes, position, stepped.change.as_slice())?;
    moves.work = moves.work.wrapping_add(stepped.work);
    Ok(())
}

/// Steps the first view, at position 1.
fn first_view<U: Updater>(
    alloc: Global,
    plan: Plan<'_>,
    kernel: &mut Kernel,
    bits: u32,
    moves: &mut Moves,
    updater: &mut U,
) -> Result<Stood, NoMemory>
    requires plan { MayRun plan kernel.old }
    ensures kernel { OnOk result (IsKernel plan.entry.graph.now kernel.new) }
    ensures rows { kernel.new.rows ≡ kernel.old.rows }
    ensures flags { IfOk result (λ s. length s.flags.items ≡ length plan.entry.graph.now.ends) }
    ensures history { IfOk result (λ s. IsHistory U.answer plan.entry.program.now plan.entry.graph.now
        (Some (arcs_in kernel.old.rows.by_head s.flags.items)) (number_of plan.entry.rounds) s.history) }
{
    let flags = flags(alloc, plan.graph, bits)?;
    let count = u64::from(plan.graph.edge_count());
    let stepped = kernel.first_step(alloc, plan, &flags, count, updater)?;
    add_view(moves, 1, &stepped)?;
    Ok(Stood {
        history: stepped.history,
        flags,
    })
}

/// Steps a view behind another one by the kernel.
fn next_by_kernel<U: Updater>(
    alloc: Global,
    plan: Plan<'_>,
    kernel: &mut Kernel,
    old: &Stood,
    new: &[bool],
    updater: &mut U,
) -> Result<Stepped, NoMemory>
    requires plan { MayRun plan kernel.old }
    requires along { AreAlong plan.program.now.along plan.graph.now kernel.old.rows }
    requires old { length old.now.flags.items ≡ length plan.graph.now.ends }
    requires new { length new.now ≡ length plan.graph.now.ends }
    requires history { IsHistory U.answer plan.program.now plan.graph.now
        (Some (arcs_in kernel.old.rows.by_head old.now.flags.items)) (number_of plan.rounds) old.now.history }
    ensures kernel { OnOk result (IsKernel plan.entry.graph.now kernel.new) }
    ensures rows { kernel.new.rows ≡ kernel.old.rows }
    ensures history { IfOk result (λ s. IsHistory U.answer plan.entry.program.now plan.entry.graph.now
        (Some (arcs_in kernel.old.rows.by_head new.now)) (number_of plan.entry.rounds) s.history) }
{
    let edges = all_edges(alloc, plan.graph)?;
    let count = u64::from(plan.graph.edge_count());
    let behind = Behind {
        history: &old.history,
        old: &old.flags,
        new,
        turned: &edges,
    };
    kernel.next_step(alloc, plan, behind, count, updater)
}

/// Steps a view behind another one. Of the view its position is given, and which edges are in it.
fn later_view<U: Updater>(
    alloc: Global,
    plan: Plan<'_>,
    kernel: &mut Kernel,
    old: &Stood,
    view: (u32, u32),
    moves: &mut Moves,
    updater: &mut U,
) -> Result<Stood, NoMemory>
    requires plan { MayRun plan kernel.old }
    requires along { AreAlong plan.program.now.along plan.graph.now kernel.old.rows }
    requires flags { length old.now.flags.items ≡ length plan.graph.now.ends }
    requires history { IsHistory U.answer plan.program.now plan.graph.now
        (Some (arcs_in kernel.old.rows.by_head old.now.flags.items)) (number_of plan.rounds) old.now.history }
    ensures kernel { OnOk result (IsKernel plan.entry.graph.now kernel.new) }
    ensures rows { kernel.new.rows ≡ kernel.old.rows }
    ensures flags { IfOk result (λ s. length s.flags.items ≡ length plan.entry.graph.now.ends) }
    ensures history { IfOk result (λ s. IsHistory U.answer plan.entry.program.now plan.entry.graph.now
        (Some (arcs_in kernel.old.rows.by_head s.flags.items)) (number_of plan.entry.rounds) s.history) }
{
    let (position, bits) = view;
    let flags = flags(alloc, plan.graph, bits)?;
    let stepped = next_by_kernel(alloc, plan, kernel, old, &flags, updater)?;
    add_view(moves, position, &stepped)?;
    Ok(Stood {
        history: stepped.history,
        flags,
    })
}

/// Steps the views behind the first one, at the positions from 2 on.
fn later_views<U: Updater>(
    alloc: Global,
    plan: Plan<'_>,
    kernel: &mut Kernel,
    first: Stood,
    views: &[u32],
    moves: &mut Moves,
    updater: &mut U,
) -> Result<(), NoMemory>
    requires plan { MayRun plan kernel.old }
    requires along { AreAlong plan.program.now.along plan.graph.now kernel.old.rows }
    requires flags { length first.flags.items ≡ length plan.graph.now.ends }
    requires history { IsHistory U.answer plan.program.now plan.graph.now
        (Some (arcs_in kernel.old.rows.by_head first.flags.items)) (number_of plan.rounds) first.history }
{
    let mut old = first;
    let mut place: u32 = 2;
    for bits in views {
        old = later_view(alloc, plan, kernel, &old, (place, *bits), moves, updater)?;
        place = place.wrapping_add(1);
    }
    Ok(())
}

/// Steps a view and those behind it by a kernel that is new.
fn stepped_by<U: Updater>(
    alloc: Global,
    plan: Plan<'_>,
    kernel: &mut Kernel,
    first: u32,
    later: &[u32],
    updater: &mut U,
) -> Result<Moves, NoMemory>
    requires plan { MayRun plan kernel.old }
    requires along { AreAlong plan.program.now.along plan.graph.now kernel.old.rows }
{
    let mut moves = Moves {
        changes: List::new(alloc),
        work: 0,
    };
    let all = &mut moves;
    let stood = first_view(alloc, plan, kernel, first, all, updater)?;
    later_views(alloc, plan, kernel, stood, later, all, updater)?;
    Ok(moves)
}

/// Steps views by the kernel, the first one from nothing and each other behind the one before it.
pub(crate) fn step_through<U: Updater>(
    alloc: Global,
    program: &Program,
    graph: &Graph,
    rounds: u32,
    views: &[u32],
    updater: &mut U,
) -> Result<Moves, NoMemory>
    requires checked { IsChecked program.now graph.now }
    requires some { 1 ≤ rounds }
    requires limit { rounds ≤ 1_000_000 }
{
    let [first, later @ ..] = views else {
        return Ok(Moves {
            changes: List::new(alloc),
            work: 0,
        });
    };
    let plan = Plan {
        program,
        graph,
        rounds: Rounds::Within(rounds),
    };
    let mut kernel = Kernel::new(alloc, graph, program.along)?;
    stepped_by(alloc, plan, &mut kernel, *first, later, updater)
}

/// What a dataflow made at a position, up to a round and without the rounds.
fn through(
    alloc: Global,
    made: &List<Timed<Position, Made>>,
    position: u32,
    round: u32,
) -> Result<Batch<(NodeNo, Val)>, NoMemory> {
    let mut entries = List::new(alloc);
    for (t, ((at, record), weight)) in made.as_slice() {
        if t.0 == position && at.0 <= round {
            entries.push((*record, *weight))?;
        }
    }
    Batch::from_entries(entries)
}

/// Adds the values that come at a position: whether all others go, and each of both once.
fn push_made(
    changes: &mut List<Moved>,
    position: u32,
    sum: &Batch<(NodeNo, Val)>,
) -> Result<bool, NoMemory> {
    for ((node, value), weight) in sum.as_slice() {
        if weight.0 == 1 {
            let change = Change {
                node: *node,
                value: *value,
            };
            changes.push((position, change))?;
        } else if weight.0 != Weight(1).negate().0 {
            return Ok(false);
        }
    }
    Ok(true)
}

/// How the values after so many rounds change at the first positions, as a dataflow made them, or None where some value
/// doesn't come or go once.
pub(crate) fn moves_made(
    alloc: Global,
    made: &List<Timed<Position, Made>>,
    positions: usize,
    rounds: u32,
) -> Result<Option<List<Moved>>, NoMemory> {
    let mut changes = List::new(alloc);
    let mut position: u32 = 1;
    for _ in 0..positions {
        let sum = through(alloc, made, position, rounds)?;
        if !push_made(&mut changes, position, &sum)? {
            return Ok(None);
        }
        position = position.wrapping_add(1);
    }
    Ok(Some(changes))
}
