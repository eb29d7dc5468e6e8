//! Writes the tables of a change text.

ghost use Rattle.std.specs.Prelude.{◌≡◌, ◌≤◌, OnOk, OnErr};
ghost use Rattle.surge_outside.specs.Counts.{HasRisen};
ghost use Rattle.surge_outside.specs.Written.{GrewByFront, appended};
ghost use Rattle.change_text.specs.Spelling.{block_text, tables_text};
ghost use Rattle.change_text.specs.Inside.{Advances, advanced, full, stop_of};

use crate::changes::ChangeText;
use crate::fault::ReplayStop;
use crate::kind::Kind;
use crate::place::change_rows;
use crate::row::Row;
use crate::text::{Frame, push_block};
use std::alloc::Global;
use surge_outside::{NoMemory, Sink, Trouble, put_all};
use vertex_lang::Outcome;

// Brings a table up to date with the rows of a block.
fn advance(table: &mut Vec<Row>, kind: Kind, rows: &[Row]) -> Result<(), NoMemory>
    requires { Advances kind table.old.items rows.now }
    ensures { OnOk result (table.new.items ≡ advanced kind table.old.items rows.now) }
{
    match kind {
        Kind::Full => {
            table.clear();
            table.extend_from_slice(rows)?;
        }
        Kind::Change => change_rows(table, rows),
    }
    Ok(())
}

// Writes a table.
fn write_rows<O: Sink>(
    alloc: Global,
    head: &[u8],
    outcome: Outcome,
    rows: &[Row],
    out: &mut O,
) -> Result<(), Trouble>
    ensures ok { OnOk result (O.written out.new ≡ appended (O.written out.old) (block_text (full head.now outcome rows.now))) }
    ensures err { OnErr result (GrewByFront (O.written out.old) (O.written out.new) (block_text (full head.now outcome rows.now))) }
    ensures faults { O.faults out.old ≤ O.faults out.new }
    ensures failed { result ≡ Err Trouble.Failed → HasRisen (O.faults out.old) (O.faults out.new) }
{
    let mut text = Vec::new(alloc);
    let frame = Frame {
        kind: Kind::Full,
        head,
        outcome,
    };
    if push_block(&mut text, frame, rows).is_err() {
        return Err(Trouble::NoMemory);
    }
    put_all(out, text.as_slice())
}

// The stop of a write that gave this error.
fn stop_of(trouble: Trouble) -> ReplayStop
    ensures { result ≡ stop_of trouble }
{
    match trouble {
        Trouble::Failed => ReplayStop::Failed,
        Trouble::NoMemory => ReplayStop::NoMemory,
    }
}

/// Writes the tables that a change text comes to, each as one piece, and then the rest of it while the sink takes less.
///
/// # Errors
///
/// [`ReplayStop::Failed`] where a write failed, which the sink counts, and [`ReplayStop::NoMemory`] where memory was wanting.
/// Then a front of the text went out.
pub fn replay<O: Sink>(alloc: Global, changes: &ChangeText, out: &mut O) -> Result<(), ReplayStop>
    ensures ok { OnOk result (O.written out.new ≡ appended (O.written out.old) (tables_text changes.now)) }
    ensures err { OnErr result (GrewByFront (O.written out.old) (O.written out.new) (tables_text changes.now)) }
    ensures faults { O.faults out.old ≤ O.faults out.new }
    ensures failed { result ≡ Err ReplayStop.Failed → HasRisen (O.faults out.old) (O.faults out.new) }
{
    let parts = changes.parts();
    let mut table = Vec::new(alloc);
    let mut heads = parts.heads;
    let mut rows = parts.rows;
    for end in parts.ends {
        let (head, heads_behind) = heads.split_at(end.head);
        let (own, rows_behind) = rows.split_at(end.rows);
        if advance(&mut table, end.kind, own).is_err() {
            return Err(ReplayStop::NoMemory);
        }
        if let Err(trouble) = write_rows(alloc, head, end.outcome, table.as_slice(), out) {
            return Err(stop_of(trouble));
        }
        heads = heads_behind;
        rows = rows_behind;
    }
    Ok(())
}
