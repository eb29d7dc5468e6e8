//! Groups that are driven through lists of changes.

ghost use Rattle.std.specs.Prelude.{◌≡◌, ◌+◌, ◌<◌, ◌≤◌, ◌^◌, false, length, IfOk, OnOk, MatchOption};
ghost use Rattle.aggregate_views.specs.Changes.{changed, AreChanges};
ghost use Rattle.aggregate_views.specs.Rows.{HasSumColumn};

use crate::tests::texts::push_rows;
use aggregate_views::Groups;
use graph_loader::load;
use graph_model::{EdgeNo, Graph};
use std::alloc::Global;
use std::test::Fail;
use surge_outside::NoMemory;

/// The graph in these files. Nothing is said of it, so that no proof reads its files.
pub(crate) fn graph_in(alloc: Global, nodes: &[u8], edges: &[u8]) -> Result<Graph, Fail> {
    let graph = load(alloc, nodes, edges)?;
    Ok(graph)
}

/// The changes of a list, from 0, in a text of lists with a stroke between each two: a letter for each edge that turns, `a`
/// for the first one, behind a plus where it comes and a minus where it goes.
pub(crate) fn changes_of(
    alloc: Global,
    turns: &[u8],
    list: u32,
) -> Result<Vec<(EdgeNo, bool)>, NoMemory> {
    let mut changes = Vec::new(alloc);
    let mut place = 0u32;
    let mut comes = true;
    for byte in turns {
        if *byte == b'/' {
            place = place.wrapping_add(1);
        } else if *byte == b'+' || *byte == b'-' {
            comes = *byte == b'+';
        } else if place == list {
            changes.push((EdgeNo(u32::from(byte.wrapping_sub(b'a'))), comes))?;
        }
    }
    Ok(changes)
}

// Which edges are present after changes, or None where these are no changes of the present edges.
fn after(
    alloc: Global,
    present: &[bool],
    changes: &[(EdgeNo, bool)],
) -> Result<Option<Vec<bool>>, NoMemory>
    ensures { IfOk result (λ r. MatchOption r (Unit {0}) (λ next. AreChanges present.now changes.now × (next.items ≡ changed present.now changes.now))) }
{
    let mut next = Vec::from_slice(alloc, present)?;
    for (e, comes) in changes {
        let place = e.0 as usize;
        if place >= next.len() || next[place] == *comes {
            return Ok(None);
        }
        next[place] = *comes;
    }
    Ok(Some(next))
}

// Takes the changes in, where they are changes of the present edges; says whether they are.
fn take_in(
    alloc: Global,
    groups: &mut Groups<'_>,
    present: &mut Vec<bool>,
    changes: &[(EdgeNo, bool)],
) -> Result<bool, NoMemory>
    requires present { groups.old.present ≡ present.old.items }
    requires few { groups.old.applied < 2 ^ 31 }
    requires live { groups.old.spent ≡ false }
    ensures present { OnOk result (groups.new.present ≡ present.new.items) }
    ensures live { OnOk result (groups.new.spent ≡ false) }
    ensures applied { OnOk result (groups.new.applied ≤ groups.old.applied + 1) }
{
    let Some(next) = after(alloc, present.as_slice(), changes)? else {
        return Ok(false);
    };
    groups.apply(changes)?;
    *present = next;
    Ok(true)
}

// The rows after each of so many lists of changes, one list a line.
fn course_over(
    alloc: Global,
    graph: &Graph,
    sum: Option<usize>,
    lists: u32,
    turns: &[u8],
) -> Result<String, NoMemory>
    requires group { 0 < length graph.now.node_columns }
    requires sum { HasSumColumn graph.now sum }
    requires few { lists ≤ 1_000 }
{
    let mut groups = Groups::new(alloc, graph, 0, sum)?;
    let mut present = vec![in alloc; false; graph.edge_count() as usize]?;
    let mut text = String::new(alloc);
    for list in 0..lists {
        let changes = changes_of(alloc, turns, list)?;
        if !take_in(alloc, &mut groups, &mut present, changes.as_slice())? {
            text.push_str("no changes")?;
        }
        push_rows(alloc, &mut text, &groups)?;
    }
    Ok(text)
}

/// The rows after each of so many lists of changes over the graph in these files, one list a line, by the first column of
/// the nodes.
pub(crate) fn course(
    alloc: Global,
    nodes: &[u8],
    edges: &[u8],
    sum: Option<usize>,
    lists: u32,
    turns: &[u8],
) -> Result<String, Fail>
    requires few { lists ≤ 1_000 }
{
    let graph = graph_in(alloc, nodes, edges)?;
    let known = match sum {
        None => true,
        Some(sum) => sum < graph.edge_columns().len(),
    };
    if graph.node_columns().len() == 0 || !known {
        return Ok(String::from_str(alloc, "no such column")?);
    }
    let text = course_over(alloc, &graph, sum, lists, turns)?;
    Ok(text)
}
