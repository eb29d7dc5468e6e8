//! Hands tables to a sink.

ghost use Rattle.std.specs.Prelude.{◌≡◌, ◌≤◌, OnOk, OnErr};
ghost use Rattle.surge_outside.specs.Counts.{HasRisen};
ghost use Rattle.surge_outside.specs.Written.{GrewByFront, appended};
ghost use Rattle.result_tables.specs.TableText.{IsTable, form_text};

use crate::form::Form;
use crate::table::Table;
use crate::text::form_text;
use graph_model::Graph;
use std::alloc::Global;
use surge_outside::{NoMemory, Sink, Trouble, put_all};

/// Writes a table in a form, as one piece, and then the rest of it while the sink takes less. `head` is what the table is
/// of, without outcome and line end, and `edges` how many edges the view has, which a summary shows.
///
/// # Errors
///
/// [`Trouble::Failed`] where a write failed, which the sink counts, and [`Trouble::NoMemory`] where memory was wanting.
/// Then a front of the text went out.
pub fn write_table<O: Sink>(
    alloc: Global,
    head: &[u8],
    form: Form,
    edges: u64,
    graph: &Graph,
    table: &Table,
    out: &mut O,
) -> Result<(), Trouble>
    requires { IsTable graph.now table.now }
    ensures ok { OnOk result (O.written out.new ≡ appended (O.written out.old) (form_text form head.now edges graph.now table.now)) }
    ensures err { OnErr result (GrewByFront (O.written out.old) (O.written out.new) (form_text form head.now edges graph.now table.now)) }
    ensures faults { O.faults out.old ≤ O.faults out.new }
    ensures failed { result ≡ Err Trouble.Failed → HasRisen (O.faults out.old) (O.faults out.new) }
{
    match form_text(alloc, head, form, edges, graph, table) {
        Ok(text) => put_all(out, text.as_slice()),
        Err(NoMemory) => Err(Trouble::NoMemory),
    }
}
