//! Tables, which were worked out by hand.

ghost use Rattle.std.specs.Prelude.{◌≡◌, length, IfOk};

use crate::tests::small_graphs::two_edges;
use graph_model::{Graph, Val};
use result_tables::{Form, Table, head_text, write_table};
use std::alloc::Global;
use std::test::Fail;
use surge_outside::{List, MemorySink, NoMemory, SureSink, Trouble};
use vertex_lang::{Lone, Outcome};

// How a run ended, and the values of both nodes.
type Row = (Outcome, Val, Val);

const MOST: i64 = 9_223_372_036_854_775_807;

const ROWS: [Row; 3] = [
    (Outcome::Settled(1_000_000), Val::Num(-MOST), Val::Nil),
    (Outcome::After(20), Val::Num(0), Val::Num(105)),
    (Outcome::Unsettled, Val::Num(0), Val::Num(105)),
];

const TABLES: &str = "view C.v hops(3) settled 1000000
3,-
70,-9223372036854775807
end
view C.v hops(3) after 20
3,105
70,0
end
view C.v hops(3) unsettled
end
";

const SUMMED: [Row; 3] = [
    (Outcome::Settled(2), Val::Num(MOST), Val::Num(MOST)),
    (Outcome::After(1), Val::Nil, Val::Num(-4)),
    (Outcome::Unsettled, Val::Nil, Val::Num(-4)),
];

const SUMMARY: &str = "view C.v hops(3) settled 2 edges 9 values 2 sum 18446744073709551614
view C.v hops(3) after 1 edges 9 values 1 sum -4
view C.v hops(3) unsettled edges 9
";

/// The table of two values.
pub(crate) fn table(
    alloc: Global,
    outcome: Outcome,
    first: Val,
    second: Val,
) -> Result<Table, NoMemory>
    ensures { IfOk result (λ t. length t.values ≡ 2) }
{
    let values = List::from_vec(Vec::from_slice(alloc, &[first, second])?);
    Ok(Table::from(Lone { outcome, values }))
}

// Writes a table to a sink.
fn write_one(
    alloc: Global,
    form: Form,
    graph: &Graph,
    table: &Table,
    sink: &mut SureSink,
) -> Result<(), Fail>
    requires nodes { length graph.now.ids ≡ 2 }
    requires table { length table.now.values ≡ 2 }
{
    let head = head_text(alloc, "C", "v", b"hops(3)")?;
    write_table(alloc, head.as_slice(), form, 9, graph, table, sink)?;
    Ok(())
}

// Writes a row.
fn write_row(
    alloc: Global,
    form: Form,
    graph: &Graph,
    row: Row,
    sink: &mut SureSink,
) -> Result<(), Fail>
    requires { length graph.now.ids ≡ 2 }
{
    let (outcome, first, second) = row;
    let table = table(alloc, outcome, first, second)?;
    write_one(alloc, form, graph, &table, sink)
}

// Writes rows.
fn write_rows(
    alloc: Global,
    form: Form,
    graph: &Graph,
    rows: &[Row],
    sink: &mut SureSink,
) -> Result<(), Fail>
    requires { length graph.now.ids ≡ 2 }
{
    for row in rows {
        write_row(alloc, form, graph, *row, sink)?;
    }
    Ok(())
}

// What is written of these rows over this graph, a few bytes at a time.
fn written_over(alloc: Global, form: Form, graph: &Graph, rows: &[Row]) -> Result<SureSink, Fail>
    requires { length graph.now.ids ≡ 2 }
{
    let mut sink = SureSink::new(alloc, 5);
    write_rows(alloc, form, graph, rows, &mut sink)?;
    Ok(sink)
}

fn written(alloc: Global, form: Form, rows: &[Row]) -> Result<SureSink, Fail> {
    let graph = two_edges(alloc)?;
    written_over(alloc, form, &graph, rows)
}

#[test]
fn a_line_for_each_node_by_rising_id(rt: HostRuntime) -> Result<(), Fail> {
    assert!(rt; written(rt.alloc(), Form::Tables, &ROWS)?.bytes() == TABLES.as_bytes());
    Ok(())
}

#[test]
fn one_line_sums_a_table_up(rt: HostRuntime) -> Result<(), Fail> {
    assert!(rt; written(rt.alloc(), Form::Summary, &SUMMED)?.bytes() == SUMMARY.as_bytes());
    Ok(())
}

// What comes of writing the table of a run that did not settle.
fn write_unsettled(alloc: Global, graph: &Graph, sink: &mut MemorySink) -> Result<(), Trouble> {
    let table = Table {
        outcome: Outcome::Unsettled,
        values: List::new(alloc),
    };
    write_table(alloc, b"head", Form::Tables, 0, graph, &table, sink)
}

// A sink that takes all of a piece, and fails at the second one.
fn failing_sink(alloc: Global) -> Result<MemorySink, Fail> {
    let mut fails = List::new(alloc);
    fails.push(2)?;
    Ok(MemorySink::new(alloc, 100, fails))
}

// A first table, and a second one, which is refused.
fn write_twice(alloc: Global, graph: &Graph, sink: &mut MemorySink) -> Result<(), Fail> {
    write_unsettled(alloc, graph, sink)?;
    match write_unsettled(alloc, graph, sink) {
        Err(Trouble::Failed) => Ok(()),
        _ => Err(Fail::new("no failure")),
    }
}

// What is written where the second piece is refused.
fn first_alone_over(alloc: Global, graph: &Graph) -> Result<MemorySink, Fail> {
    let mut sink = failing_sink(alloc)?;
    write_twice(alloc, graph, &mut sink)?;
    Ok(sink)
}

fn first_alone(alloc: Global) -> Result<MemorySink, Fail> {
    let graph = two_edges(alloc)?;
    first_alone_over(alloc, &graph)
}

#[test]
fn a_table_is_one_piece_and_a_failure_ends_it(rt: HostRuntime) -> Result<(), Fail> {
    assert!(rt; first_alone(rt.alloc())?.bytes() == "head unsettled\nend\n".as_bytes());
    Ok(())
}
