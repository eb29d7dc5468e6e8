//! Writes tables as blocks of a change text.

ghost use Rattle.std.specs.Prelude.{◌≡◌, ◌++◌, ◌<◌, ◌≤◌, [], ◌∷◌, length, not, if◌then◌else◌, Some, IfOk, OnOk, OnErr, option_copied};
ghost use Rattle.graph_model.specs.GraphData.{id_of};
ghost use Rattle.vertex_lang.specs.Lone.{same_value};
ghost use Rattle.surge_outside.specs.Counts.{HasRisen};
ghost use Rattle.surge_outside.specs.Written.{GrewByFront, appended};
ghost use Rattle.result_tables.specs.TableText.{IsTable};
ghost use Rattle.change_text.specs.Spelling.{block_text};
ghost use Rattle.change_text.specs.Writing.{IsTableBefore, IsTableHead, block_of, changed_rows, is_shown};
ghost use Rattle.change_text.specs.Inside.{change_of};

use crate::kind::Kind;
use crate::row::{Row, differ};
use crate::text::{Frame, push_block};
use graph_model::{Graph, NodeNo, Val};
use result_tables::{Form, Table, write_table};
use std::alloc::Global;
use surge_outside::{NoMemory, Sink, Trouble, put_all};
use vertex_lang::Outcome;

// Whether a table whose run ended so has rows.
fn is_shown(outcome: Outcome) -> bool
    ensures { result ≡ is_shown outcome }
{
    match outcome {
        Outcome::Settled(_) => true,
        Outcome::After(_) => true,
        Outcome::Phases(_) => true,
        Outcome::Unsettled => false,
    }
}

// Whether a value is another than before.
fn is_other(before: Val, value: Val) -> bool
    ensures { result ≡ not (same_value before value) }
{
    differ(before, value)
}

// Adds the row of a node, where its value is another than before.
fn push_changed(
    rows: &mut Vec<Row>,
    graph: &Graph,
    node: NodeNo,
    before: Val,
    value: Val,
) -> Result<(), NoMemory>
    requires { node.0 < length graph.now.ids }
    ensures { OnOk result (rows.new.items ≡ rows.old.items ++ (if not (same_value before value) then record { id = id_of graph.now node.0; value = value } ∷ [] else [])) }
{
    if is_other(before, value) {
        let id = graph.id(node);
        rows.push(Row { id, value })?;
        return Ok(());
    }
    Ok(())
}

// The rows of the nodes whose values differ, by rising id.
fn rows_that_differ(
    alloc: Global,
    graph: &Graph,
    before: &[Val],
    values: &[Val],
) -> Result<Vec<Row>, NoMemory>
    requires before { length before.now ≡ length graph.now.ids }
    requires values { length values.now ≡ length graph.now.ids }
    ensures { IfOk result (λ rows. rows.items ≡ changed_rows graph.now before.now values.now) }
{
    let mut rows = Vec::new(alloc);
    for place in 0..graph.node_count() {
        let node = graph.by_id(place);
        let old = before[node.0 as usize];
        push_changed(&mut rows, graph, node, old, values[node.0 as usize])?;
    }
    Ok(rows)
}

// The text of a change block.
fn change_text(
    alloc: Global,
    head: &[u8],
    graph: &Graph,
    before: &Table,
    table: &Table,
) -> Result<Vec<u8>, NoMemory>
    requires head { IsTableHead head.now }
    requires before { length before.now.values ≡ length graph.now.ids }
    requires table { length table.now.values ≡ length graph.now.ids }
    ensures { IfOk result (λ text. text.items ≡ block_text (change_of head.now graph.now before.now table.now)) }
{
    let rows = rows_that_differ(
        alloc,
        graph,
        before.values.as_slice(),
        table.values.as_slice(),
    )?;
    let mut text = Vec::new(alloc);
    let frame = Frame {
        kind: Kind::Change,
        head: &head[5..],
        outcome: table.outcome,
    };
    push_block(&mut text, frame, rows.as_slice())?;
    Ok(text)
}

// Writes a table as a block behind the table before.
fn write_behind<O: Sink>(
    alloc: Global,
    head: &[u8],
    graph: &Graph,
    before: &Table,
    table: &Table,
    out: &mut O,
) -> Result<(), Trouble>
    requires head { IsTableHead head.now }
    requires before { IsTable graph.now before.now }
    requires table { IsTable graph.now table.now }
    ensures ok { OnOk result (O.written out.new ≡ appended (O.written out.old) (block_text (block_of head.now graph.now (Some before.now) table.now))) }
    ensures err { OnErr result (GrewByFront (O.written out.old) (O.written out.new) (block_text (block_of head.now graph.now (Some before.now) table.now))) }
    ensures faults { O.faults out.old ≤ O.faults out.new }
    ensures failed { result ≡ Err Trouble.Failed → HasRisen (O.faults out.old) (O.faults out.new) }
{
    if !is_shown(before.outcome) {
        return write_table(alloc, head, Form::Tables, 0, graph, table, out);
    }
    if !is_shown(table.outcome) {
        return write_table(alloc, head, Form::Tables, 0, graph, table, out);
    }
    match change_text(alloc, head, graph, before, table) {
        Ok(text) => put_all(out, text.as_slice()),
        Err(NoMemory) => Err(Trouble::NoMemory),
    }
}

/// Writes a table as a block of a change text, as one piece, and then the rest of it while the sink takes less: as a change
/// block, with exactly the rows that differ from those of the table before, where there is one and neither is unsettled, and
/// else as a full block. `head` is what the table is of, without outcome and line end, and begins with the word `view`, in
/// whose place a change block has `change`. A change block costs the nodes once, and the text of its rows.
///
/// # Errors
///
/// [`Trouble::Failed`] where a write failed, which the sink counts, and [`Trouble::NoMemory`] where memory was wanting.
/// Then a front of the text went out.
pub fn write_change<O: Sink>(
    alloc: Global,
    head: &[u8],
    graph: &Graph,
    before: Option<&Table>,
    table: &Table,
    out: &mut O,
) -> Result<(), Trouble>
    requires head { IsTableHead head.now }
    requires before { IsTableBefore graph.now (option_copied before) }
    requires table { IsTable graph.now table.now }
    ensures ok { OnOk result (O.written out.new ≡ appended (O.written out.old) (block_text (block_of head.now graph.now (option_copied before.entry) table.now))) }
    ensures err { OnErr result (GrewByFront (O.written out.old) (O.written out.new) (block_text (block_of head.now graph.now (option_copied before.entry) table.now))) }
    ensures faults { O.faults out.old ≤ O.faults out.new }
    ensures failed { result ≡ Err Trouble.Failed → HasRisen (O.faults out.old) (O.faults out.new) }
{
    match before {
        None => write_table(alloc, head, Form::Tables, 0, graph, table, out),
        Some(before) => write_behind(alloc, head, graph, before, table, out),
    }
}
