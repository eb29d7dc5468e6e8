//! The answer of a run on a view, and its table.

ghost use Rattle.std.specs.Prelude.{◌≡◌, ◌<◌, ◌≤◌, length, IfOk, IfErr, OnOk, OnErr, option_copied};
ghost use Rattle.surge_outside.specs.Counts.{HasRisen};
ghost use Rattle.surge_outside.specs.Written.{GrewByFront, appended};
ghost use Rattle.gvdl_printer.specs.Canonical.{canonical_call};
ghost use Rattle.view_matrix.specs.Matrices.{edges_in};
ghost use Rattle.result_tables.specs.TableText.{table_of, head_text};
ghost use Rattle.change_text.specs.Spelling.{block_text};
ghost use Rattle.change_text.specs.Writing.{IsTableBefore};
ghost use Rattle.surge_session.specs.Output.{block_behind, view_answer, view_shown, view_text};
ghost use Rattle.surge_session.specs.Live.{live_edges};
ghost use Rattle.surge_session.specs.State.{HasRunIn, shown_graph};

use crate::setting::RanViews;
use change_text::write_change;
use graph_model::ViewNo;
use gvdl_check::ViewPlan;
use gvdl_printer::print_call;
use result_tables::{Form, Table, head_text, write_table};
use std::alloc::Global;
use surge_outside::{NoMemory, Sink, Trouble};
use vertex_lang::Updater;

/// What is written of a run on a view: what the table is of, how many edges the view has, and the table.
#[derive(Drop)]
struct Answered {
    head: Vec<u8>,
    edges: u64,
    table: Table,
}

// What is told of a view that was run.
fn answer_view<U: Updater>(
    alloc: Global,
    ran: RanViews,
    view: &ViewPlan,
    number: ViewNo,
) -> Result<Answered, NoMemory>
    requires within { number.0 < length ran.matrix.now.columns }
    requires shown { edges_in ran.matrix.now number.0 ≡ live_edges (shown_graph ran.graph.now ran.matrix.now) view.now.rule }
    requires has { HasRunIn U.answer ran.graph.now ran.run.now ran.matrix.now ran.engine.now }
    ensures head { IfOk result (λ a. a.head.items ≡ head_text ran.entry.collection.now.name view.now.name (canonical_call ran.entry.run.now.call)) }
    ensures table { IfOk result (λ a. a.table ≡ table_of (view_answer U.answer (shown_graph ran.entry.graph.now ran.entry.matrix.now) ran.entry.run.now view.now.rule)) }
    ensures edges { IfOk result (λ a. a.edges ≡ length (live_edges (shown_graph ran.entry.graph.now ran.entry.matrix.now) view.now.rule)) }
{
    let RanViews {
        graph,
        run,
        collection,
        matrix,
        engine,
    } = ran;
    let table = engine.result::<U>(graph, run, matrix, &view.rule, number)?;
    let call = print_call(alloc, &run.call)?;
    let head = head_text(
        alloc,
        collection.name.as_str(),
        view.name.as_str(),
        call.as_slice(),
    )?;
    Ok(Answered {
        head,
        edges: matrix.size(number),
        table,
    })
}

/// Writes the table of a view that was run, which has this number in the matrix.
pub(crate) fn write_view<O: Sink, U: Updater>(
    alloc: Global,
    ran: RanViews,
    view: &ViewPlan,
    number: ViewNo,
    form: Form,
    out: &mut O,
) -> Result<(), Trouble>
    requires within { number.0 < length ran.matrix.now.columns }
    requires shown { edges_in ran.matrix.now number.0 ≡ live_edges (shown_graph ran.graph.now ran.matrix.now) view.now.rule }
    requires has { HasRunIn U.answer ran.graph.now ran.run.now ran.matrix.now ran.engine.now }
    ensures ok { OnOk result (O.written out.new ≡ appended (O.written out.old) (view_text U.answer form (shown_graph ran.entry.graph.now ran.entry.matrix.now) ran.entry.run.now ran.entry.collection.now.name view.now)) }
    ensures err { OnErr result (GrewByFront (O.written out.old) (O.written out.new) (view_text U.answer form (shown_graph ran.entry.graph.now ran.entry.matrix.now) ran.entry.run.now ran.entry.collection.now.name view.now)) }
    ensures faults { O.faults out.old ≤ O.faults out.new }
    ensures failed { result ≡ Err Trouble.Failed → HasRisen (O.faults out.old) (O.faults out.new) }
{
    let answered = match answer_view::<U>(alloc, ran, view, number) {
        Ok(answered) => answered,
        Err(NoMemory) => return Err(Trouble::NoMemory),
    };
    write_table(
        alloc,
        answered.head.as_slice(),
        form,
        answered.edges,
        ran.graph,
        &answered.table,
        out,
    )
}

/// Writes the table of a view that was run, which has this number in the matrix, as a block behind the table
/// before, and answers the table.
pub(crate) fn write_block<O: Sink, U: Updater>(
    alloc: Global,
    ran: RanViews,
    view: &ViewPlan,
    number: ViewNo,
    before: Option<&Table>,
    out: &mut O,
) -> Result<Table, Trouble>
    requires within { number.0 < length ran.matrix.now.columns }
    requires shown { edges_in ran.matrix.now number.0 ≡ live_edges (shown_graph ran.graph.now ran.matrix.now) view.now.rule }
    requires has { HasRunIn U.answer ran.graph.now ran.run.now ran.matrix.now ran.engine.now }
    requires before { IsTableBefore ran.graph.now (option_copied before) }
    ensures table { IfOk result (λ table. table ≡ (view_shown U.answer (shown_graph ran.entry.graph.now ran.entry.matrix.now) ran.entry.run.now ran.entry.collection.now.name view.now).table) }
    ensures ok { IfOk result (λ table. O.written out.new ≡ appended (O.written out.old) (block_text (block_behind ran.entry.graph.now (option_copied before.entry) (view_shown U.answer (shown_graph ran.entry.graph.now ran.entry.matrix.now) ran.entry.run.now ran.entry.collection.now.name view.now)))) }
    ensures err { IfErr result (λ e. GrewByFront (O.written out.old) (O.written out.new) (block_text (block_behind ran.entry.graph.now (option_copied before.entry) (view_shown U.answer (shown_graph ran.entry.graph.now ran.entry.matrix.now) ran.entry.run.now ran.entry.collection.now.name view.now)))) }
    ensures faults { O.faults out.old ≤ O.faults out.new }
    ensures failed { result ≡ Err Trouble.Failed → HasRisen (O.faults out.old) (O.faults out.new) }
{
    let answered = match answer_view::<U>(alloc, ran, view, number) {
        Ok(answered) => answered,
        Err(NoMemory) => return Err(Trouble::NoMemory),
    };
    let Answered { head, table, .. } = answered;
    match write_change(alloc, head.as_slice(), ran.graph, before, &table, out) {
        Ok(()) => Ok(table),
        Err(trouble) => Err(trouble),
    }
}
