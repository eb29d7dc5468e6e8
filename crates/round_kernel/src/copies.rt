//! What of the view before stays in a round: marks and changes of nodes that were never touched.

ghost use Rattle.std.specs.Prelude.{◌≡◌, ◌<◌, ◌+◌, ◌-◌, ◌++◌, ◌&&◌, ◌||◌, [], not, ℕ, true, false, length, get_or, filter, All, OnOk, IsTrue};
ghost use Rattle.change_lists.specs.ChangeLists.{is_listed, HasNodes, HasChanges};
ghost use Rattle.round_kernel.specs.Changes.{made_changes, made_marks};
ghost use Rattle.round_kernel.specs.Frames.{stirs, AreDivided, AreStirred, HasSome, IsFrame, StandAt, touched_at, marked_at, marked_before, lone_at, count_in};

use crate::frame::{Frame, Lists};
use crate::made::Made;
use crate::same::{FEW, are_same_changes, are_same_marks};
use change_lists::{Change, push_change, push_mark};
use graph_model::NodeNo;
use surge_outside::{List, NoMemory};
use vertex_lang::Updater;

/// The nodes with a mark in a round, given those among the touched ones. Marks of the view before stay where a node isn't touched,
/// and none is shown any longer. Where the view before has the very same marks, their list is shared. The error is want of memory.
pub(crate) fn keep_marks<U: Updater>(
    frame: Frame<'_>,
    round: u32,
    lists: &mut Lists,
    made: &mut Made,
    updater: &U,
) -> Result<(), NoMemory>
    requires frame { IsFrame U.answer frame frame.limit }
    requires round { round < frame.limit }
    requires at { StandAt U.answer frame round (touched_at U.answer frame round) lists.old }
    requires divided { AreDivided U.answer frame round lists.old.marked.items lists.old.shown }
    requires found { HasNodes (count_in frame) (λ v. touched_at U.answer frame round v && marked_at U.answer frame round v) made.old.marks }
    ensures at { OnOk result (StandAt U.answer frame.entry round (touched_at U.answer frame.entry round) lists.new) }
    ensures none { OnOk result ((v : ℕ) → get_or lists.new.marked.items v false ≡ false) }
    ensures none_shown { OnOk result (lists.new.shown ≡ []) }
    ensures queue { OnOk result (lists.new.queue ≡ lists.old.queue) }
    ensures marks { OnOk result (0 < round → HasNodes (count_in frame.entry) (marked_at U.answer frame.entry round) (made_marks made.new)) }
    ensures changes { OnOk result (made.new.changes ≡ made.old.changes) }
{
    let shown = lists.shown.as_slice();
    let same = are_same_marks(shown, &lists.touched, &lists.marked, made.marks.as_slice());
    clear_flags(shown, &mut lists.marked);
    lists.shown.clear();
    put_marks(frame, round, same, &lists.touched, made, updater)?;
    Ok(())
}

// No node is shown to have a mark any longer.
fn clear_flags(shown: &[NodeNo], marked: &mut [bool])
    requires within { All (λ n. n.0 < length marked.old) shown.now }
    requires shown { (v : ℕ) → get_or marked.old v false ≡ true → is_listed v shown.now ≡ true }
    ensures marked { (v : ℕ) → get_or marked.new v false ≡ false }
{
    for node in shown {
        marked[node.0 as usize] = false;
    }
}

// The nodes with a mark, where it is known whether the touched ones are those of the view before. Round 0 has none.
fn put_marks<U: Updater>(
    frame: Frame<'_>,
    round: u32,
    same: bool,
    touched: &[bool],
    made: &mut Made,
    _updater: &U,
) -> Result<(), NoMemory>
    requires frame { IsFrame U.answer frame frame.limit }
    requires round { round < frame.limit }
    requires touched { (v : ℕ) → v < count_in frame → get_or touched.now v false ≡ touched_at U.answer frame round v }
    requires size { length touched.now ≡ count_in frame }
    requires found { HasNodes (count_in frame) (λ v. touched_at U.answer frame round v && marked_at U.answer frame round v) made.old.marks }
    requires same { IsTrue same → (v : ℕ) → v < count_in frame → 0 < round → touched_at U.answer frame round v ≡ true → marked_before U.answer frame round v ≡ marked_at U.answer frame round v }
    ensures marks { OnOk result (0 < round → HasNodes (count_in frame.entry) (marked_at U.answer frame.entry round) (made_marks made.new)) }
    ensures changes { OnOk result (made.new.changes ≡ made.old.changes) }
{
    made.same_marks = None;
    if round == 0 {
        return Ok(());
    }
    if same {
        let shared = frame.history.marks.shared_at((round - 1) as usize)?;
        if let Some(list) = shared {
            made.same_marks = Some(list);
            return Ok(());
        }
    }
    let marks = frame.history.marks_after(round - 1);
    copy_marks(marks, touched, &mut made.marks)?;
    Ok(())
}

// Marks of the view before stay where a node isn't touched.
fn copy_marks(marks: &[NodeNo], touched: &[bool], made: &mut List<NodeNo>) -> Result<(), NoMemory>
    requires touched { All (λ n. n.0 < length touched.now) marks.now }
    ensures made { OnOk result (made.new ≡ made.old ++ filter (λ n. not (get_or touched.now n.0 false)) marks.now) }
{
    for node in marks {
        push_mark(made, !touched[node.0 as usize], *node)?;
    }
    Ok(())
}

/// What changes to the next round, given what does at the touched nodes. Changes of the view before stay where a node isn't touched;
/// where few nodes change, it is listed of whom others may have to be told. Where the view before has the very same changes, and
/// hardly a touched node does, their list is shared. The error is want of memory.
pub(crate) fn keep_changes<U: Updater>(
    frame: Frame<'_>,
    round: u32,
    lists: &Lists,
    made: &mut Made,
    updater: &U,
) -> Result<(), NoMemory>
    requires frame { IsFrame U.answer frame frame.limit }
    requires round { round < frame.limit }
    requires at { StandAt U.answer frame round (touched_at U.answer frame round) lists.now }
    requires found { HasSome U.answer frame round (touched_at U.answer frame round) made.old.changes }
    ensures changes { OnOk result (HasChanges (count_in frame.entry) (lone_at U.answer frame.entry round) (lone_at U.answer frame.entry (round + 1)) (made_changes made.new)) }
    ensures stirred { OnOk result (IsTrue made.new.few → AreStirred U.answer frame.entry round made.new.stirred) }
    ensures marks { OnOk result (made_marks made.new ≡ made_marks made.old) }
{
    made.same_changes = None;
    made.few = are_few(frame, made.changes.len());
    made.stirred.clear();
    if made.few && made.changes.len() <= FEW {
        return keep_few(frame, round, lists, made, updater);
    }
    let changes = frame.history.changes_after(round);
    list_if(made.few, made.changes.as_slice(), &mut made.stirred)?;
    copy_changes(
        changes,
        &lists.touched,
        &lists.watched,
        made.few,
        &mut made.changes,
        &mut made.stirred,
    )?;
    Ok(())
}

// Whether of the nodes that change so few are touched that it's less work to look for those that they may make active than to visit
// all nodes.
fn are_few(frame: Frame<'_>, count: usize) -> bool {
    let nodes = frame.graph.node_count() as usize;
    let limit = if frame.rows.arcs().len() < 2 * nodes {
        nodes / 4
    } else {
        nodes / 8
    };
    count <= limit
}

// The same where hardly a touched node changes, and nothing was listed.
fn keep_few<U: Updater>(
    frame: Frame<'_>,
    round: u32,
    lists: &Lists,
    made: &mut Made,
    _updater: &U,
) -> Result<(), NoMemory>
    requires frame { IsFrame U.answer frame frame.limit }
    requires round { round < frame.limit }
    requires at { StandAt U.answer frame round (touched_at U.answer frame round) lists.now }
    requires found { HasSome U.answer frame round (touched_at U.answer frame round) made.old.changes }
    requires none { made.old.stirred ≡ [] }
    ensures changes { OnOk result (HasChanges (count_in frame.entry) (lone_at U.answer frame.entry round) (lone_at U.answer frame.entry (round + 1)) (made_changes made.new)) }
    ensures stirred { OnOk result (AreStirred U.answer frame.entry round made.new.stirred) }
    ensures marks { OnOk result (made_marks made.new ≡ made_marks made.old) }
{
    made.same_changes = None;
    let changes = frame.history.changes_after(round);
    list_stirring(changes, &lists.touched, &lists.watched, &mut made.stirred)?;
    let found = made.changes.as_slice();
    let same = are_same_changes(made.stirred.as_slice(), &lists.touched, found);
    list_all(found, &mut made.stirred)?;
    if same {
        let shared = frame.history.changes.shared_at(round as usize)?;
        if let Some(list) = shared {
            made.same_changes = Some(list);
            return Ok(());
        }
    }
    copy_untouched(changes, &lists.touched, &mut made.changes)?;
    Ok(())
}

// Changes of touched nodes, and of nodes from which a turned arc leaves, are listed once more.
fn list_stirring(
    changes: &[Change],
    touched: &[bool],
    watched: &[bool],
    stirred: &mut List<Change>,
) -> Result<(), NoMemory>
    requires touched { All (λ c. c.node.0 < length touched.now) changes.now }
    requires watched { All (λ c. c.node.0 < length watched.now) changes.now }
    ensures { OnOk result (stirred.new ≡ stirred.old ++ filter (λ c. stirs touched.now watched.now c.node.0) changes.now) }
{
    for change in changes {
        let place = change.node.0 as usize;
        let stirs = touched[place] || watched[place];
        push_change(stirred, stirs, change.node, change.value)?;
    }
    Ok(())
}

// Changes of the view before stay where a node isn't touched.
fn copy_untouched(
    changes: &[Change],
    touched: &[bool],
    made: &mut List<Change>,
) -> Result<(), NoMemory>
    requires { All (λ c. c.node.0 < length touched.now) changes.now }
    ensures { OnOk result (made.new ≡ made.old ++ filter (λ c. not (get_or touched.now c.node.0 false)) changes.now) }
{
    for change in changes {
        push_change(
            made,
            !touched[change.node.0 as usize],
            change.node,
            change.value,
        )?;
    }
    Ok(())
}

// Changes of the view before stay where a node isn't touched. Where that is asked for, those of touched nodes, and of nodes from
// which a turned arc leaves, are listed once more.
fn copy_changes(
    changes: &[Change],
    touched: &[bool],
    watched: &[bool],
    few: bool,
    made: &mut List<Change>,
    stirred: &mut List<Change>,
) -> Result<(), NoMemory>
    requires touched { All (λ c. c.node.0 < length touched.now) changes.now }
    requires watched { All (λ c. c.node.0 < length watched.now) changes.now }
    ensures made { OnOk result (made.new ≡ made.old ++ filter (λ c. not (get_or touched.now c.node.0 false)) changes.now) }
    ensures stirred { OnOk result (stirred.new ≡ stirred.old ++ filter (λ c. few && stirs touched.now watched.now c.node.0) changes.now) }
{
    for change in changes {
        let place = change.node.0 as usize;
        push_change(made, !touched[place], change.node, change.value)?;
        let stirs = few && (touched[place] || watched[place]);
        push_change(stirred, stirs, change.node, change.value)?;
    }
    Ok(())
}

// Lists these changes once more where that is asked for.
fn list_if(few: bool, changes: &[Change], stirred: &mut List<Change>) -> Result<(), NoMemory>
    ensures { OnOk result (IsTrue few → stirred.new ≡ stirred.old ++ changes.now) }
{
    if few {
        list_all(changes, stirred)?;
    }
    Ok(())
}

// Lists these changes once more.
fn list_all(changes: &[Change], stirred: &mut List<Change>) -> Result<(), NoMemory>
    ensures { OnOk result (stirred.new ≡ stirred.old ++ changes.now) }
{
    for change in changes {
        stirred.push(*change)?;
    }
    Ok(())
}
