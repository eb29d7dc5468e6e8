//! The text of a table, and the line that sums it up.

ghost use Rattle.std.specs.Prelude.{◌≡◌, ◌++◌, OnOk, IfOk};
ghost use Rattle.result_tables.specs.TableText.{IsTable, outcome_text, rows, head_text, tail_text, totals_text, summary_tail, form_text};

use crate::digits::push_decimal;
use crate::form::Form;
use crate::lines::push_values;
use crate::table::Table;
use crate::totals::push_totals;
use graph_model::Graph;
use std::alloc::Global;
use surge_outside::NoMemory;
use vertex_lang::Outcome;

// Adds how a run ended.
fn push_outcome(text: &mut Vec<u8>, outcome: Outcome) -> Result<(), NoMemory>
    ensures { OnOk result (text.new.items ≡ text.old.items ++ outcome_text outcome) }
{
    match outcome {
        Outcome::Settled(rounds) => {
            text.extend_from_slice(b"settled ")?;
            push_decimal(text, u64::from(rounds))
        }
        Outcome::After(rounds) => {
            text.extend_from_slice(b"after ")?;
            push_decimal(text, u64::from(rounds))
        }
        Outcome::Phases(phases) => {
            text.extend_from_slice(b"phases ")?;
            push_decimal(text, u64::from(phases))
        }
        Outcome::Unsettled => {
            text.extend_from_slice(b"unsettled")?;
            Ok(())
        }
    }
}

// Adds the lines of a table.
fn push_rows(text: &mut Vec<u8>, graph: &Graph, table: &Table) -> Result<(), NoMemory>
    requires { IsTable graph.now table.now }
    ensures { OnOk result (text.new.items ≡ text.old.items ++ rows graph.now table.now.outcome table.now.values) }
{
    match table.outcome {
        Outcome::Settled(_) => push_values(text, graph, table.values.as_slice()),
        Outcome::After(_) => push_values(text, graph, table.values.as_slice()),
        Outcome::Phases(_) => push_values(text, graph, table.values.as_slice()),
        Outcome::Unsettled => Ok(()),
    }
}

// Adds what stands behind the head of a table.
fn push_table(text: &mut Vec<u8>, graph: &Graph, table: &Table) -> Result<(), NoMemory>
    requires { IsTable graph.now table.now }
    ensures { OnOk result (text.new.items ≡ text.old.items ++ tail_text graph.now table.now) }
{
    text.push(b' ')?;
    push_outcome(text, table.outcome)?;
    text.push(b'\n')?;
    push_rows(text, graph, table)?;
    text.extend_from_slice(b"end\n")?;
    Ok(())
}

// Adds what a summary says of the values.
fn push_sums(
    alloc: Global,
    text: &mut Vec<u8>,
    graph: &Graph,
    table: &Table,
) -> Result<(), NoMemory>
    requires { IsTable graph.now table.now }
    ensures { OnOk result (text.new.items ≡ text.old.items ++ totals_text table.now.outcome table.now.values) }
{
    let _nodes = graph.node_count();
    match table.outcome {
        Outcome::Settled(_) => push_totals(alloc, text, table.values.as_slice()),
        Outcome::After(_) => push_totals(alloc, text, table.values.as_slice()),
        Outcome::Phases(_) => push_totals(alloc, text, table.values.as_slice()),
        Outcome::Unsettled => Ok(()),
    }
}

// Adds what stands behind the head of a summary.
fn push_summary(
    alloc: Global,
    text: &mut Vec<u8>,
    edges: u64,
    graph: &Graph,
    table: &Table,
) -> Result<(), NoMemory>
    requires { IsTable graph.now table.now }
    ensures { OnOk result (text.new.items ≡ text.old.items ++ summary_tail edges table.now) }
{
    text.push(b' ')?;
    push_outcome(text, table.outcome)?;
    text.extend_from_slice(b" edges ")?;
    push_decimal(text, edges)?;
    push_sums(alloc, text, graph, table)?;
    text.push(b'\n')?;
    Ok(())
}

/// The text of a table in a form, under this head.
pub(crate) fn form_text(
    alloc: Global,
    head: &[u8],
    form: Form,
    edges: u64,
    graph: &Graph,
    table: &Table,
) -> Result<Vec<u8>, NoMemory>
    requires { IsTable graph.now table.now }
    ensures { IfOk result (λ text. text.items ≡ form_text form head.now edges graph.now table.now) }
{
    let mut text = Vec::from_slice(alloc, head)?;
    match form {
        Form::Tables => push_table(&mut text, graph, table)?,
        Form::Summary => push_summary(alloc, &mut text, edges, graph, table)?,
        Form::Changes => push_table(&mut text, graph, table)?,
    }
    Ok(text)
}

/// What a table is of: `view C.v P`, with the names of the collection and the view and the text of the call.
///
/// # Errors
///
/// [`NoMemory`] where a request for memory was refused.
pub fn head_text(
    alloc: Global,
    collection: &str,
    view: &str,
    call: &[u8],
) -> Result<Vec<u8>, NoMemory>
    ensures { IfOk result (λ text. text.items ≡ head_text collection.now view.now call.now) }
{
    let mut head = format!(in alloc; "view {collection}.{view} ")?.into_bytes();
    head.extend_from_slice(call)?;
    Ok(head)
}
