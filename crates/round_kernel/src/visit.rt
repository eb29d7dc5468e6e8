//! A visit to a node in a round.

ghost use Rattle.std.specs.Prelude.{◌≡◌, ◌<◌, ◌+◌, ◌++◌, ◌&&◌, ◌||◌, true, length, IfOk, OnOk, IsTrue, IsFalse, if◌then◌else◌};
ghost use Rattle.vertex_lang.specs.Expressions.{start_of};
ghost use Rattle.vertex_lang.specs.Rounds.{value_at};
ghost use Rattle.round_inputs.specs.TwoRounds.{got_in};
ghost use Rattle.round_kernel.specs.Spots.{changes_next, counted_in, marked_in, next_value, touched_in, IsKeptBefore, IsKeptNow, IsSpot};
ghost use Rattle.change_lists.specs.ChangeLists.{mark_if, change_if};
ghost use Rattle.value_codes.specs.Tallies.{tally_of};

use crate::made::Made;
use crate::spot::Spot;
use crate::suspects::stamp_of;
use change_lists::{is_other, push_change, push_mark};
use graph_model::{Graph, NodeNo, Val};
use round_inputs::{Movers, Scratch, TwoRounds, differ, differ_if_listed};
use round_messages::Side;
use surge_outside::NoMemory;
use value_codes::{Kept, Tally};
use vertex_lang::{Expr, Program, Updater};

/// Visits a node: tells whether it is touched and evaluates it where it is counted. Of a touched node it keeps what
/// tells its messages from those of the next round. The answer is the number of counted nodes here, 0 or 1.
pub(crate) fn visit<U: Updater>(
    spot: &Spot<'_>,
    touched: &mut bool,
    kept: &mut Kept,
    scratch: &mut Scratch,
    made: &mut Made,
    updater: &mut U,
) -> Result<u64, NoMemory>
    requires spot { IsSpot U.answer spot.now }
    requires kept { IsKeptBefore U.answer spot.now kept.old }
    ensures touched { OnOk result (touched.new ≡ touched_in U.answer spot.now) }
    ensures kept { OnOk result (touched.new ≡ true → IsKeptNow U.answer spot.now kept.new) }
    ensures count { IfOk result (λ n. n ≡ (if counted_in U.answer spot.now then 1 else 0)) }
    ensures marks { OnOk result (made.new.marks ≡ made.old.marks ++ mark_if (touched_in U.answer spot.now && marked_in U.answer spot.now) spot.now.node) }
    ensures changes { OnOk result (made.new.changes ≡ made.old.changes ++ change_if (touched_in U.answer spot.now && changes_next U.answer spot.now) spot.now.node (next_value U.answer spot.now)) }
    ensures calls { IfOk result (λ n. U.calls updater.new ≡ U.calls updater.old + n) }
{
    let is_touched = is_touched(spot, scratch, updater)?;
    *touched = is_touched;
    if !is_touched {
        return Ok(0);
    }
    visit_touched(spot, kept, scratch, made, updater)
}

// Visits a node that is touched. What comes of its messages is asked for in two places, so that the compiler keeps the loop
// over them in a function of its own, where what it sums up stays in registers.
fn visit_touched<U: Updater>(
    spot: &Spot<'_>,
    kept: &mut Kept,
    scratch: &mut Scratch,
    made: &mut Made,
    updater: &mut U,
) -> Result<u64, NoMemory>
    requires spot { IsSpot U.answer spot.now }
    requires kept { IsKeptBefore U.answer spot.now kept.old }
    requires touched { touched_in U.answer spot.now ≡ true }
    ensures kept { OnOk result (IsKeptNow U.answer spot.now kept.new) }
    ensures count { IfOk result (λ n. n ≡ (if counted_in U.answer spot.now then 1 else 0)) }
    ensures marks { OnOk result (made.new.marks ≡ made.old.marks ++ mark_if (marked_in U.answer spot.now) spot.now.node) }
    ensures changes { OnOk result (made.new.changes ≡ made.old.changes ++ change_if (changes_next U.answer spot.now) spot.now.node (next_value U.answer spot.now)) }
    ensures calls { IfOk result (λ n. U.calls updater.new ≡ U.calls updater.old + n) }
{
    if is_new_input(spot, updater) {
        return visit_marked(spot, kept, made, updater);
    }
    visit_again(spot, kept, scratch, made, updater)
}

// Visits a touched node whose input is another than in the round before.
fn visit_marked<U: Updater>(
    spot: &Spot<'_>,
    kept: &mut Kept,
    made: &mut Made,
    updater: &mut U,
) -> Result<u64, NoMemory>
    requires spot { IsSpot U.answer spot.now }
    requires marked { marked_in U.answer spot.now ≡ true }
    requires touched { touched_in U.answer spot.now ≡ true }
    ensures kept { OnOk result (IsKeptNow U.answer spot.now kept.new) }
    ensures count { IfOk result (λ n. n ≡ (if counted_in U.answer spot.now then 1 else 0)) }
    ensures marks { OnOk result (made.new.marks ≡ made.old.marks ++ mark_if (marked_in U.answer spot.now) spot.now.node) }
    ensures changes { OnOk result (made.new.changes ≡ made.old.changes ++ change_if (changes_next U.answer spot.now) spot.now.node (next_value U.answer spot.now)) }
    ensures calls { IfOk result (λ n. U.calls updater.new ≡ U.calls updater.old + n) }
{
    let lookups = spot.lookups;
    let tally = lookups.source.tally(&spot.new, spot.node, updater);
    *kept = tally.kept();
    push_mark(&mut made.marks, true, spot.node)?;
    let value = evaluate(spot, tally, updater);
    let changed = is_other(value, spot.new.side.values[spot.node.0 as usize]);
    push_change(&mut made.changes, changed, spot.node, value)?;
    Ok(1)
}

// Visits a touched node of which it isn't known whether its input is another than in the round before.
fn visit_again<U: Updater>(
    spot: &Spot<'_>,
    kept: &mut Kept,
    scratch: &mut Scratch,
    made: &mut Made,
    updater: &mut U,
) -> Result<u64, NoMemory>
    requires later { 0 < spot.now.new.number }
    requires spot { IsSpot U.answer spot.now }
    requires kept { IsKeptBefore U.answer spot.now kept.old }
    requires touched { touched_in U.answer spot.now ≡ true }
    ensures kept { OnOk result (IsKeptNow U.answer spot.now kept.new) }
    ensures count { IfOk result (λ n. n ≡ (if counted_in U.answer spot.now then 1 else 0)) }
    ensures marks { OnOk result (made.new.marks ≡ made.old.marks ++ mark_if (marked_in U.answer spot.now) spot.now.node) }
    ensures changes { OnOk result (made.new.changes ≡ made.old.changes ++ change_if (changes_next U.answer spot.now) spot.now.node (next_value U.answer spot.now)) }
    ensures calls { IfOk result (λ n. U.calls updater.new ≡ U.calls updater.old + n) }
{
    let lookups = spot.lookups;
    let tally = lookups.source.tally(&spot.new, spot.node, updater);
    let now = tally.kept();
    let marked = is_marked(spot, *kept, now, scratch, updater)?;
    *kept = now;
    push_mark(&mut made.marks, marked, spot.node)?;
    if !either(marked, spot.marked) {
        return Ok(0);
    }
    let value = evaluate(spot, tally, updater);
    let changed = is_other(value, spot.new.side.values[spot.node.0 as usize]);
    push_change(&mut made.changes, changed, spot.node, value)?;
    Ok(1)
}

// Whether the input of a touched node is known to be another than in the round before: in round 0, and where the node was just
// touched and had no mark in the view before.
fn is_new_input<U: Updater>(spot: &Spot<'_>, _updater: &U) -> bool
    requires spot { IsSpot U.answer spot.now }
    requires touched { touched_in U.answer spot.now ≡ true }
    ensures marked { IsTrue result → marked_in U.answer spot.now ≡ true }
    ensures later { IsFalse result → 0 < spot.now.new.number }
{
    if spot.new.number == 0 {
        return true;
    }
    !spot.was && !spot.marked
}

// Whether a node was active in a round up to this one.
fn is_touched<U: Updater>(
    spot: &Spot<'_>,
    scratch: &mut Scratch,
    updater: &U,
) -> Result<bool, NoMemory>
    requires { IsSpot U.answer spot.now }
    ensures { IfOk result (λ b. b ≡ touched_in U.answer spot.now) }
{
    if either(spot.first, spot.was) {
        return Ok(true);
    }
    let lookups = spot.lookups;
    let suspects = &lookups.suspects;
    let turned = suspects.turned_into(spot.node);
    let movers = Movers::Views(&suspects.apart);
    let rounds = TwoRounds {
        left: &spot.new,
        right: &spot.old,
        turned,
        movers,
    };
    let listed = differ_if_listed(&rounds, &lookups.source, spot.node, scratch, updater)?;
    if let Some(active) = listed {
        return Ok(active);
    }
    let row = spot.new.rows.into(spot.node);
    if turned.is_empty() && movers.are_still(row) {
        return Ok(false);
    }
    let active = differ(&rounds, row, scratch)?;
    Ok(active)
}

// Whether the input of a touched node differs from that of the round before, in the new view. Most often what it gets
// tells it by its sum and count; only else its arcs are looked at again.
fn is_marked<U: Updater>(
    spot: &Spot<'_>,
    kept: Kept,
    now: Kept,
    scratch: &mut Scratch,
    updater: &U,
) -> Result<bool, NoMemory>
    requires later { 0 < spot.now.new.number }
    requires spot { IsSpot U.answer spot.now }
    requires kept { IsKeptBefore U.answer spot.now kept }
    requires now { IsKeptNow U.answer spot.now now }
    ensures { IfOk result (λ b. b ≡ marked_in U.answer spot.now) }
{
    if spot.was && kept.differs(now) {
        return Ok(true);
    }
    is_other_input(spot, scratch, updater)
}

// Whether the input of a node differs from that of the round before, in the new view, found by a look at all its arcs. The node's own
// two values are read only where it may have changed: they lie far apart in memory.
fn is_other_input<U: Updater>(
    spot: &Spot<'_>,
    scratch: &mut Scratch,
    updater: &U,
) -> Result<bool, NoMemory>
    requires { IsSpot U.answer spot.now }
    ensures { IfOk result (λ b. b ≡ marked_in U.answer spot.now) }
{
    if spot.new.number == 0 {
        return Ok(true);
    }
    let place = spot.node.0 as usize;
    let lookups = spot.lookups;
    let movers = Movers::Rounds(&lookups.suspects.moved, stamp_of(spot.new.number));
    if movers.moves(spot.node) && is_other(spot.new.side.values[place], spot.before[place]) {
        return Ok(true);
    }
    let before = Side {
        edges: spot.new.side.edges,
        degrees: spot.new.side.degrees,
        values: spot.before,
        alike: false,
        sent: spot.new.side.sent,
    };
    let rounds = TwoRounds {
        left: &spot.new,
        right: &before,
        turned: &[],
        movers,
    };
    let listed = differ_if_listed(&rounds, &lookups.source, spot.node, scratch, updater)?;
    if let Some(marked) = listed {
        return Ok(marked);
    }
    let row = spot.new.rows.into(spot.node);
    if movers.are_still(row) {
        return Ok(false);
    }
    let marked = differ(&rounds, row, scratch)?;
    Ok(marked)
}

// The next value of a node.
fn evaluate<U: Updater>(spot: &Spot<'_>, tally: Tally, updater: &mut U) -> Val
    requires spot { IsSpot U.answer spot.now }
    requires tally { tally ≡ tally_of spot.now.new.program.now.gather (got_in U.answer spot.now.new spot.now.node.0) }
    ensures value { result ≡ next_value U.answer spot.now }
    ensures calls { U.calls updater.new ≡ U.calls updater.old + 1 }
{
    let program = spot.new.program;
    let graph = spot.new.graph;
    let value = spot.new.side.values[spot.node.0 as usize];
    let gathered = tally.gathered(program.gather);
    let id = graph.id(spot.node);
    let start = start_at(program, graph, spot.starts, spot.node);
    updater.update(program, id, start, value, gathered, tally.count)
}

// The value with which a node starts. Where it is a number in the program, no list is read.
fn start_at(program: &Program, _graph: &Graph, starts: &[Val], node: NodeNo) -> Val
    requires start { value_at starts.now node.0 ≡ start_of program.now _graph.now node.0 }
    requires node { node.0 < length starts.now }
    ensures { result ≡ start_of program.now _graph.now node.0 }
{
    match &program.start {
        Expr::Number(number) => Val::Num(*number),
        _ => starts[node.0 as usize],
    }
}

// Whether one of them holds.
fn either(left: bool, right: bool) -> bool
    ensures { result ≡ (left || right) }
{
    left || right
}
