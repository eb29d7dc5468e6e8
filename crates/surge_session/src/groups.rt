//! The texts of aggregates of views.

ghost use Rattle.std.specs.Prelude.{◌≡◌, ◌≤◌, ◌<◌, ◌+◌, ◌++◌, false, Some, length, map, flat_map, None, OnOk, OnErr, IfOk};
ghost use Rattle.surge_outside.specs.Counts.{HasRisen};
ghost use Rattle.surge_outside.specs.Written.{GrewByFront, appended};
ghost use Rattle.view_matrix.specs.Matrices.{place_of, IsColumn, IsView};
ghost use Rattle.aggregate_views.specs.Rows.{HasSumColumn};
ghost use Rattle.aggregate_views.specs.declared.cell.Cell.{Cell};
ghost use Rattle.surge_session.specs.Aggregates.{cell_text, row_line, rows_text, sum_text, sum_name, grouped_text, aggregate_text};
ghost use Rattle.surge_session.specs.Grouping.{AreGroupsOf, bits_of, held_rows};
ghost use Rattle.surge_session.specs.State.{Shows, shown_graph};

use aggregate_views::{Cell, GroupRow, Groups};
use graph_model::{Graph, ViewNo};
use gvdl_check::ViewPlan;
use gvdl_printer::{print_property, print_string};
use std::alloc::Global;
use surge_outside::{List, NoMemory, Sink, Text, Trouble, put_all};
use view_matrix::Matrix;
use view_order::{greedy, views_from};

/// By which columns edges are grouped and summed.
#[derive(Clone, Copy)]
pub(crate) struct Grouping {
    pub(crate) by: u32,
    pub(crate) sum: Option<u32>,
}

// Adds bytes.
fn push(text: &mut Vec<u8>, bytes: &[u8]) -> Result<(), NoMemory>
    ensures { OnOk result (text.new.items ≡ text.old.items ++ bytes.now) }
{
    text.extend_from_slice(bytes)?;
    Ok(())
}

fn push_truth(text: &mut Vec<u8>, value: bool) -> Result<(), NoMemory>
    ensures { OnOk result (text.new.items ≡ text.old.items ++ cell_text (Cell.Bool value)) }
{
    if value {
        push(text, b"true")
    } else {
        push(text, b"false")
    }
}

fn push_number(alloc: Global, text: &mut Vec<u8>, number: i64) -> Result<(), NoMemory>
    ensures { OnOk result (text.new.items ≡ text.old.items ++ cell_text (Cell.Int number)) }
{
    let digits = format!(in alloc; "{number}")?;
    text.extend_from_slice(digits.as_bytes())?;
    Ok(())
}

fn push_cell(alloc: Global, text: &mut Vec<u8>, cell: &Cell) -> Result<(), NoMemory>
    ensures { OnOk result (text.new.items ≡ text.old.items ++ cell_text cell.now) }
{
    match cell {
        Cell::Absent => push(text, b"-"),
        Cell::Int(number) => push_number(alloc, text, *number),
        Cell::Str(bytes) => {
            let string = print_string(alloc, bytes)?;
            push(text, string.as_slice())
        }
        Cell::Bool(value) => push_truth(text, *value),
    }
}

// Adds the sum, where there is one.
fn push_sum(
    alloc: Global,
    text: &mut Vec<u8>,
    sum: Option<u32>,
    value: i128,
) -> Result<(), NoMemory>
    ensures { OnOk result (text.new.items ≡ text.old.items ++ sum_text sum value) }
{
    match sum {
        None => Ok(()),
        Some(_) => {
            let digits = format!(in alloc; ",{value}")?;
            push(text, digits.as_bytes())
        }
    }
}

// Adds the line of a pair of groups.
fn push_row(
    alloc: Global,
    text: &mut Vec<u8>,
    sum: Option<u32>,
    row: &GroupRow,
) -> Result<(), NoMemory>
    ensures { OnOk result (text.new.items ≡ text.old.items ++ row_line sum row.now) }
{
    push_cell(alloc, text, &row.from)?;
    push(text, b",")?;
    push_cell(alloc, text, &row.to)?;
    let count = row.count;
    let counted = format!(in alloc; ",{count}")?;
    push(text, counted.as_bytes())?;
    push_sum(alloc, text, sum, row.sum)?;
    push(text, b"\n")
}

fn push_rows(
    alloc: Global,
    text: &mut Vec<u8>,
    sum: Option<u32>,
    rows: &[GroupRow],
) -> Result<(), NoMemory>
    ensures { OnOk result (text.new.items ≡ text.old.items ++ flat_map (row_line sum) rows.now) }
{
    for row in rows {
        push_row(alloc, text, sum, row)?;
    }
    Ok(())
}

// ` sum p`, where something is summed.
fn summed_by(alloc: Global, graph: &Graph, sum: Option<u32>) -> Result<Vec<u8>, NoMemory>
    requires { HasSumColumn graph.now sum }
    ensures { IfOk result (λ text. text.items ≡ sum_name graph.now sum) }
{
    match sum {
        None => Ok(Vec::new(alloc)),
        Some(column) => {
            let name = &graph.edge_columns().as_slice()[column as usize].name;
            let property = print_property(alloc, name)?;
            let mut text = format!(in alloc; " sum ")?.into_bytes();
            text.extend_from_slice(property.as_slice())?;
            Ok(text)
        }
    }
}

// The first line of the texts of all views behind the view's name: ` by P`, and ` sum p` where something is summed.
fn grouped_by(alloc: Global, graph: &Graph, grouping: Grouping) -> Result<Vec<u8>, NoMemory>
    requires by { grouping.by < length graph.now.node_columns }
    requires sum { HasSumColumn graph.now grouping.sum }
    ensures { IfOk result (λ text. text.items ≡ grouped_text graph.now grouping.by grouping.sum) }
{
    let by = &graph.node_columns().as_slice()[grouping.by as usize].name;
    let property = print_property(alloc, by)?;
    let summed = summed_by(alloc, graph, grouping.sum)?;
    let mut text = format!(in alloc; " by ")?.into_bytes();
    text.extend_from_slice(property.as_slice())?;
    text.extend_from_slice(summed.as_slice())?;
    text.extend_from_slice(b"\n")?;
    Ok(text)
}

// The text of a view by these rows, of which this is the first line behind its name.
fn rows_text(
    alloc: Global,
    collection: &str,
    name: &str,
    grouped: &[u8],
    sum: Option<u32>,
    rows: &[GroupRow],
) -> Result<Vec<u8>, NoMemory>
    ensures { IfOk result (λ text. text.items ≡ rows_text sum collection.now name.now grouped.now rows.now) }
{
    let mut text = format!(in alloc; "aggregate {collection}.{name}")?.into_bytes();
    text.extend_from_slice(grouped)?;
    push_rows(alloc, &mut text, sum, rows)?;
    text.extend_from_slice(b"end\n")?;
    Ok(text)
}

// The text of a view whose edges the groups hold.
fn view_groups(
    alloc: Global,
    collection: &str,
    name: &str,
    grouped: &[u8],
    sum: Option<u32>,
    groups: &Groups,
) -> Result<List<u8>, NoMemory>
    requires { groups.now.spent ≡ false }
    ensures { IfOk result (λ text. text ≡ rows_text sum collection.now name.now grouped.now (held_rows groups.now)) }
{
    let rows = groups.rows()?;
    let text = rows_text(alloc, collection, name, grouped, sum, rows.as_slice())?;
    Ok(List::from_vec(text))
}

fn as_place(sum: Option<u32>) -> Option<usize>
    ensures { result ≡ sum }
{
    match sum {
        None => None,
        Some(column) => Some(column as usize),
    }
}

// The groups of the edges of no view.
fn no_groups<'g>(
    alloc: Global,
    matrix: &Matrix,
    graph: &'g Graph,
    grouping: Grouping,
) -> Result<Groups<'g>, NoMemory>
    requires live { length matrix.now.live ≡ length graph.now.ends }
    requires by { grouping.by < length graph.now.node_columns }
    requires sum { HasSumColumn graph.now grouping.sum }
    ensures { IfOk result (AreGroupsOf graph.now grouping.by grouping.sum matrix.now None 0) }
{
    let groups = Groups::new(alloc, graph, grouping.by as usize, as_place(grouping.sum))?;
    Ok(groups)
}

// Brings the groups from the edges of a view, or of none, to those of another: only what differs is grouped.
fn turn_groups(
    alloc: Global,
    matrix: &Matrix,
    before: Option<ViewNo>,
    number: ViewNo,
    groups: &mut Groups,
) -> Result<(), NoMemory>
    requires before { IsColumn matrix.now before }
    requires number { IsView matrix.now number }
    requires present { groups.old.present ≡ bits_of matrix.now (place_of before) }
    requires few { groups.old.applied ≤ 1_024 }
    requires live { groups.old.spent ≡ false }
    ensures present { OnOk result (groups.new.present ≡ bits_of matrix.now (Some number.0)) }
    ensures applied { OnOk result (groups.new.applied ≡ groups.old.applied + 1) }
    ensures live { OnOk result (groups.new.spent ≡ false) }
    ensures graph { groups.new.graph ≡ groups.old.graph }
    ensures column { groups.new.column ≡ groups.old.column }
    ensures sum { groups.new.sum ≡ groups.old.sum }
{
    let changes = matrix.differences(alloc, before, number)?;
    groups.apply(changes.as_slice())
}

// A list without bytes for each view.
fn no_texts(alloc: Global, count: usize) -> Result<Vec<List<u8>>, NoMemory>
    ensures { IfOk result (λ texts. length texts.items ≡ count) }
{
    let mut texts = Vec::new(alloc);
    for _view in 0..count {
        texts.push(List::new(alloc))?;
    }
    Ok(texts)
}

// The text of each view, by its number: in greedy order each view is grouped by what differs from the view before it.
fn all_groups(
    alloc: Global,
    collection: &str,
    views: &[ViewPlan],
    matrix: &Matrix,
    graph: &Graph,
    grouping: Grouping,
) -> Result<Vec<List<u8>>, NoMemory>
    requires shown { Shows (shown_graph graph.now matrix.now) matrix.now 0 views.now }
    requires live { length matrix.now.live ≡ length graph.now.ends }
    requires all { length matrix.now.columns ≡ length views.now }
    requires by { grouping.by < length graph.now.node_columns }
    requires sum { HasSumColumn graph.now grouping.sum }
    ensures { IfOk result (λ texts. texts.items ≡ map (aggregate_text (shown_graph graph.now matrix.now) grouping.by grouping.sum collection.now) views.now) }
{
    let _all = matrix.views();
    let declared = views_from(alloc, matrix, 0)?;
    let greedily = greedy(alloc, matrix, None, declared.as_slice())?;
    let order = greedily.as_slice();
    let grouped = grouped_by(alloc, graph, grouping)?;
    let mut groups = no_groups(alloc, matrix, graph, grouping)?;
    let mut texts = no_texts(alloc, views.len())?;
    let mut before = None;
    for i in 0..order.len() {
        let number = order[i];
        turn_groups(alloc, matrix, before, number, &mut groups)?;
        let place = number.0 as usize;
        let name = views[place].name.as_str();
        let text = view_groups(
            alloc,
            collection,
            name,
            grouped.as_slice(),
            grouping.sum,
            &groups,
        )?;
        texts[place] = text;
        before = Some(number);
    }
    Ok(texts)
}

// Writes texts, each as one piece.
fn write_texts<O: Sink>(texts: &[List<u8>], out: &mut O) -> Result<(), Trouble>
    ensures ok { OnOk result (O.written out.new ≡ appended (O.written out.old) (flat_map (λ text. text) texts.now)) }
    ensures err { OnErr result (GrewByFront (O.written out.old) (O.written out.new) (flat_map (λ text. text) texts.now)) }
    ensures faults { O.faults out.old ≤ O.faults out.new }
    ensures failed { result ≡ Err Trouble.Failed → HasRisen (O.faults out.old) (O.faults out.new) }
{
    for text in texts {
        if let Err(trouble) = put_all(out, text.as_slice()) {
            return Err(trouble);
        }
    }
    Ok(())
}

/// Writes the edges of each of these views, which are those of the matrix, by the groups of their ends, in declared order, each
/// view as one piece.
pub(crate) fn write_groups<O: Sink>(
    alloc: Global,
    collection: &Text,
    views: &[ViewPlan],
    matrix: &Matrix,
    graph: &Graph,
    grouping: Grouping,
    out: &mut O,
) -> Result<(), Trouble>
    requires shown { Shows (shown_graph graph.now matrix.now) matrix.now 0 views.now }
    requires live { length matrix.now.live ≡ length graph.now.ends }
    requires all { length matrix.now.columns ≡ length views.now }
    requires by { grouping.by < length graph.now.node_columns }
    requires sum { HasSumColumn graph.now grouping.sum }
    ensures ok { OnOk result (O.written out.new ≡ appended (O.written out.old) (flat_map (aggregate_text (shown_graph graph.now matrix.now) grouping.by grouping.sum collection.now) views.now)) }
    ensures err { OnErr result (GrewByFront (O.written out.old) (O.written out.new) (flat_map (aggregate_text (shown_graph graph.now matrix.now) grouping.by grouping.sum collection.now) views.now)) }
    ensures faults { O.faults out.old ≤ O.faults out.new }
    ensures failed { result ≡ Err Trouble.Failed → HasRisen (O.faults out.old) (O.faults out.new) }
{
    match all_groups(alloc, collection.as_str(), views, matrix, graph, grouping) {
        Ok(texts) => write_texts(texts.as_slice(), out),
        Err(NoMemory) => Err(Trouble::NoMemory),
    }
}
