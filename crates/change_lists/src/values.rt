//! The values of both views, round by round.

ghost use Rattle.std.specs.Prelude.{◌≡◌, ◌<◌, ◌^◌, not, false, ℕ, List, length, get_or, All, IfOk, ◌+◌, ◌-◌, ◌++◌, ◌&&◌, OnOk, MatchBool, ◌≢◌};
ghost use Rattle.graph_model.specs.declared.value.Val.{Val};
ghost use Rattle.vertex_lang.specs.Rounds.{value_at};
ghost use Rattle.vertex_lang.specs.Lone.{same_value};
ghost use Rattle.change_lists.specs.ChangeLists.{HasChanges, AreChanged, changes_from, all_from, mark_if, change_if};

use crate::history::Change;
use graph_model::{NodeNo, Val};
use std::alloc::Global;
use surge_outside::{List, NoMemory};

/// Gives each node that changed its value in the round before the value that it has. Where many did, copying all values is less
/// work.
pub fn catch_up(before: &mut [Val], now: &[Val], changes: &[Change])
    requires size { length before.old ≡ length now.now }
    requires within { All (λ c. c.node.0 < length now.now) changes.now }
    ensures all { HasChanges (length now.now) before.old now.now changes.now → before.new ≡ now.now }
{
    if changes.len() > now.len() / 4 {
        before.copy_from_slice(now);
        return;
    }
    catch_up_each(before, now, changes);
}

// Catches up node by node, which is less work where few changed.
fn catch_up_each(before: &mut [Val], now: &[Val], changes: &[Change])
    requires size { length before.old ≡ length now.now }
    requires within { All (λ c. c.node.0 < length now.now) changes.now }
    ensures all { HasChanges (length now.now) before.old now.now changes.now → before.new ≡ now.now }
    ensures changed { AreChanged before.old now.now before.new changes.now }
{
    for change in changes {
        let place = change.node.0 as usize;
        before[place] = now[place];
    }
}

/// Gives each node that changes its new value.
pub fn assign(now: &mut [Val], changes: &[Change])
    requires { All (λ c. c.node.0 < length now.old) changes.now }
    ensures { (after : List Val) → length after ≡ length now.old → HasChanges (length now.old) now.old after changes.now → now.new ≡ after }
{
    for change in changes {
        now[change.node.0 as usize] = change.value;
    }
}

/// What leads from the one list of values to the other, where they differ at touched nodes alone.
pub fn changes_between(
    alloc: Global,
    touched: &[bool],
    old: &[Val],
    new: &[Val],
) -> Result<List<Change>, NoMemory>
    requires touched { length touched.now ≡ length new.now }
    requires size { length old.now ≡ length new.now }
    requires others { (v : ℕ) → v < length new.now → get_or touched.now v false ≡ false → value_at old.now v ≡ value_at new.now v }
    requires few { length new.now < 2 ^ 32 }
    ensures { IfOk result (λ changes. changes ≡ changes_from 0 old.now new.now) }
{
    let mut changes = List::new(alloc);
    for node in 0..new.len() {
        if are_unlike(touched[node], old[node], new[node]) {
            changes.push(Change {
                node: NodeNo(node as u32),
                value: new[node],
            })?;
        }
    }
    Ok(changes)
}

// Whether the two values of a node differ, which they do at touched nodes alone.
fn are_unlike(touched: bool, old: Val, new: Val) -> bool
    requires { touched ≡ false → old ≡ new }
    ensures { result ≡ not (same_value old new) }
{
    touched && is_other(old, new)
}

/// The value of each node.
pub fn all_changes(alloc: Global, new: &[Val]) -> Result<List<Change>, NoMemory>
    requires { length new.now < 2 ^ 32 }
    ensures { IfOk result (λ changes. changes ≡ all_from 0 new.now) }
{
    let mut changes = List::new(alloc);
    for node in 0..new.len() {
        changes.push(Change {
            node: NodeNo(node as u32),
            value: new[node],
        })?;
    }
    Ok(changes)
}

/// Adds a node to the marks where it has one. The error is want of memory.
pub fn push_mark(marks: &mut List<NodeNo>, marked: bool, node: NodeNo) -> Result<(), NoMemory>
    ensures { OnOk result (marks.new ≡ marks.old ++ mark_if marked node) }
{
    if marked {
        marks.push(node)?;
    }
    Ok(())
}

/// Adds a change where there is one. The error is want of memory.
pub fn push_change(
    changes: &mut List<Change>,
    changed: bool,
    node: NodeNo,
    value: Val,
) -> Result<(), NoMemory>
    ensures { OnOk result (changes.new ≡ changes.old ++ change_if changed node value) }
{
    if changed {
        changes.push(Change { node, value })?;
    }
    Ok(())
}

/// Whether two values differ.
pub fn is_other(left: Val, right: Val) -> bool
    ensures { result ≡ not (same_value left right) }
{
    differs(left, right)
}

/// Whether two values differ, as the equality of values tells.
pub fn differs(left: Val, right: Val) -> bool
    ensures { MatchBool result (left ≢ right) (left ≡ right) }
{
    left != right
}
