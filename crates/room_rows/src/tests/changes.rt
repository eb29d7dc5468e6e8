//! Change texts of a few lines, against answers that were worked out by hand or by a plain reader.

ghost use Rattle.std.specs.Prelude.{◌≡◌, ◌<◌, length, IfSome};

use crate::tests::small_graphs::two_edges;
use crate::tests::tables::table;
use change_text::{
    ChangeText, ReplayError, ReplayFault, ReplayStop, read_changes, replay, write_change,
};
use graph_model::{Graph, Val};
use result_tables::Table;
use std::alloc::Global;
use std::test::Fail;
use surge_outside::{List, MemorySink, NoMemory, SureSink};
use vertex_lang::Outcome;

// The first bad line of a short text, or 0.
fn bad_line(alloc: Global, text: &[u8]) -> Result<u32, Fail> {
    if text.len() > 1_000 {
        return Err(Fail::new("a long text"));
    }
    match read_changes(alloc, text) {
        Ok(_) => Ok(0),
        Err(ReplayError::Fault(ReplayFault::Line(line))) => Ok(line),
        Err(_) => Err(Fail::new("another error")),
    }
}

// ---- texts, and their first bad lines

const TEXTS: [(&str, u32); 28] = [
    ("", 0),
    ("change C.b x settled 1\nend\n", 1),
    (
        "view x settled 0\n1,0\nend\nchange x settled 0\n1,0\nend\n",
        5,
    ),
    ("view x settled 0\n1,0", 2),
    ("view x settled 0\n1,0\n", 3),
    ("view x settled 0\n1,-0\nend\n", 2),
    ("view x settled 0\n01,0\nend\n", 2),
    ("view x settled 0\n1,00\nend\n", 2),
    ("view x settled 0\n1,+5\nend\n", 2),
    (
        "view x settled 0\n9223372036854775807,9223372036854775807\nend\n",
        0,
    ),
    ("view x settled 0\n1,-9223372036854775807\nend\n", 0),
    ("view x settled 0\n9223372036854775808,0\nend\n", 2),
    ("view x settled 0\n1,-9223372036854775808\nend\n", 2),
    ("view x settled 0\n99999999999999999999999999,0\nend\n", 2),
    ("view x settled 0\n2,0\n2,0\nend\n", 3),
    ("view x settled 0\n2,0\n1,0\nend\n", 3),
    ("view x unsettled\n2,0\nend\n", 2),
    ("view x unsettled\nend\nchange x settled 1\nend\n", 3),
    ("view x settled 1\nend\nchange x unsettled\nend\n", 3),
    (
        "view x settled 1\n2,5\nend\nchange x after 1\n3,5\nend\n",
        5,
    ),
    ("view x settled 4294967295\nend\n", 0),
    ("view x settled 4294967296\nend\n", 1),
    ("view  settled 1\nend\n", 1),
    ("view x phases 7\nend\nchange x phases 4294967295\nend\n", 0),
    ("view x phases 4294967296\nend\n", 1),
    ("view a settled 1 after 2 unsettled unsettled\nend\n", 0),
    ("view x settled 1\nend", 2),
    ("view x settled 1\nend\n\n", 3),
];

// The place of the first of these texts that has another first bad line.
fn first_wrong(alloc: Global, texts: &[(&str, u32)]) -> Result<Option<usize>, Fail> {
    for (place, (text, line)) in texts.iter().enumerate() {
        if bad_line(alloc, text.as_bytes())? != *line {
            return Ok(Some(place));
        }
    }
    Ok(None)
}

#[test]
fn first_bad_lines(rt: HostRuntime) -> Result<(), Fail> {
    assert_eq!(rt; first_wrong(rt.alloc(), &TEXTS)?, None);
    Ok(())
}

// ---- a text that is cut at each byte, and whose bytes are exchanged

const BLOCKS: &str =
    "view x settled 0\n1,0\n7,-\nend\nchange x after 13\n1,-5\n7,20\nend\nview y unsettled\nend\n";

// The first bad line of each beginning of the text, or 0, as a hexadecimal digit.
const CUT: &str =
    "011111111111111112222333344440555555555555555556666677777888809999999999999999aaaa0";

// The same with the byte at each place exchanged for this one. (Both are printed by `tests/oracle/changes.py --table`.)
const EXCHANGED: [(u8, &str); 9] = [
    (
        b'0',
        "111110111111111016202330344445555555055555555056666677707888899999099999999999aaaa",
    ),
    (
        b'1',
        "111110111111111010202330344445555555055555550050600677007888899999099999999999aaaa",
    ),
    (
        b'9',
        "111110111111111013202730344445555555055555550056600677007888899999099999999999aaaa",
    ),
    (
        b'-',
        "111110111111111112202330344445555555055555555556606677777888899999099999999999aaaa",
    ),
    (
        b',',
        "111110111111111112022303344445555555055555555556066670777888899999099999999999aaaa",
    ),
    (
        b' ',
        "111100011111110112222333344445555550005555505556666677777888899990009999999999aaaa",
    ),
    (
        b'\n',
        "111111111111111102220333044405555555555555555606667077780888099999999999999990aaa0",
    ),
    (
        b'e',
        "1101101101110111122223333044455555050555505555566666777770888990990999909990990aaa",
    ),
    (
        b'~',
        "111110111111111112222333344445555555055555555556666677777888899999099999999999aaaa",
    ),
];

// A line as a hexadecimal digit.
fn digit(line: u32) -> u8 {
    match b"0123456789abcdef".get(line as usize) {
        Some(digit) => *digit,
        None => b'?',
    }
}

// The first bad line of each beginning of a text.
fn lines_of_cuts(alloc: Global, text: &[u8]) -> Result<Vec<u8>, Fail> {
    let mut lines = Vec::new(alloc);
    for count in 0..text.len() + 1 {
        let line = bad_line(alloc, &text[..count])?;
        lines.push(digit(line))?;
    }
    Ok(lines)
}

// Whether the beginnings of a text have these first bad lines.
fn has_lines_of_cuts(alloc: Global, text: &[u8], lines: &str) -> Result<bool, Fail> {
    Ok(lines_of_cuts(alloc, text)?.as_slice() == lines.as_bytes())
}

#[test]
fn a_text_that_is_cut(rt: HostRuntime) -> Result<(), Fail> {
    assert!(rt; has_lines_of_cuts(rt.alloc(), BLOCKS.as_bytes(), CUT)?);
    Ok(())
}

// A text with a byte exchanged.
fn with_byte(alloc: Global, text: &[u8], place: usize, byte: u8) -> Result<Vec<u8>, NoMemory>
    requires { place < length text.now }
{
    let mut changed = Vec::from_slice(alloc, &text[..place])?;
    changed.push(byte)?;
    changed.extend_from_slice(&text[place + 1..])?;
    Ok(changed)
}

// The first bad line of a text with the byte at each place exchanged for this one.
fn lines_with_byte(alloc: Global, text: &[u8], byte: u8) -> Result<Vec<u8>, Fail> {
    let mut lines = Vec::new(alloc);
    for place in 0..text.len() {
        let changed = with_byte(alloc, text, place, byte)?;
        let line = bad_line(alloc, changed.as_slice())?;
        lines.push(digit(line))?;
    }
    Ok(lines)
}

// Whether a text with this byte at each place has these first bad lines.
fn has_lines(alloc: Global, text: &[u8], byte: u8, lines: &str) -> Result<bool, Fail> {
    Ok(lines_with_byte(alloc, text, byte)?.as_slice() == lines.as_bytes())
}

// How many of the first rows have the right first bad lines, up to the first row that has not.
fn right_rows(alloc: Global, text: &[u8], rows: &[(u8, &str)]) -> Result<usize, Fail> {
    for (place, (byte, lines)) in rows.iter().enumerate() {
        if !has_lines(alloc, text, *byte, lines)? {
            return Ok(place);
        }
    }
    Ok(rows.len())
}

#[test]
fn bytes_that_are_exchanged(rt: HostRuntime) -> Result<(), Fail> {
    assert_eq!(rt; right_rows(rt.alloc(), BLOCKS.as_bytes(), &EXCHANGED)?, 9);
    Ok(())
}

// ---- tables as blocks, and back

// How the runs of two tables ended, and the value of the second node in each.
type Row = (Outcome, Val, Outcome, Val);

const LOW: Val = Val::Num(-5);

const HIGH: Val = Val::Num(9_223_372_036_854_775_807);

const ROWS: [Row; 6] = [
    (Outcome::Settled(1), HIGH, Outcome::Settled(4), Val::Nil),
    (Outcome::After(20), Val::Nil, Outcome::After(0), HIGH),
    (Outcome::After(20), LOW, Outcome::After(20), LOW),
    (Outcome::Phases(2), Val::Nil, Outcome::Phases(3), HIGH),
    (Outcome::Unsettled, LOW, Outcome::Settled(4), Val::Nil),
    (Outcome::Settled(4), LOW, Outcome::Unsettled, HIGH),
];

// The block of a first table, and those of the later tables, each behind the earlier one.
const WRITTEN: &str = "view C.v hops(3) settled 4
3,-
70,-5
end
change C.v hops(3) settled 4
3,-
end
change C.v hops(3) after 0
3,9223372036854775807
end
change C.v hops(3) after 20
end
change C.v hops(3) phases 3
3,9223372036854775807
end
view C.v hops(3) settled 4
3,-
70,-5
end
view C.v hops(3) unsettled
end
";

const HEAD: &[u8] = b"view C.v hops(3)";

// Writes the block of a table behind another one or none.
fn write_block(
    alloc: Global,
    graph: &Graph,
    before: Option<&Table>,
    table: &Table,
    sink: &mut SureSink,
) -> Result<(), Fail>
    requires nodes { length graph.now.ids ≡ 2 }
    requires before { IfSome before (λ before. length before.now.values ≡ 2) }
    requires table { length table.now.values ≡ 2 }
{
    if HEAD.get(..5) == Some(b"view ".as_slice()) {
        write_change(alloc, HEAD, graph, before, table, sink)?;
    }
    Ok(())
}

// Writes the block of the table with this value behind another one.
fn write_behind(
    alloc: Global,
    graph: &Graph,
    before: &Table,
    outcome: Outcome,
    value: Val,
    sink: &mut SureSink,
) -> Result<(), Fail>
    requires nodes { length graph.now.ids ≡ 2 }
    requires before { length before.now.values ≡ 2 }
{
    let table = table(alloc, outcome, LOW, value)?;
    write_block(alloc, graph, Some(before), &table, sink)
}

// Writes the block of a row.
fn write_row(alloc: Global, graph: &Graph, row: Row, sink: &mut SureSink) -> Result<(), Fail>
    requires { length graph.now.ids ≡ 2 }
{
    let (earlier, old, outcome, new) = row;
    let before = table(alloc, earlier, LOW, old)?;
    write_behind(alloc, graph, &before, outcome, new, sink)
}

// Writes the blocks of rows.
fn write_rows(alloc: Global, graph: &Graph, rows: &[Row], sink: &mut SureSink) -> Result<(), Fail>
    requires { length graph.now.ids ≡ 2 }
{
    for row in rows {
        write_row(alloc, graph, *row, sink)?;
    }
    Ok(())
}

// Writes the block of a first table.
fn write_first(alloc: Global, graph: &Graph, sink: &mut SureSink) -> Result<(), Fail>
    requires { length graph.now.ids ≡ 2 }
{
    let table = table(alloc, Outcome::Settled(4), LOW, Val::Nil)?;
    write_block(alloc, graph, None, &table, sink)
}

// A first block and those of rows, written a few bytes at a time.
fn blocks_over(alloc: Global, graph: &Graph) -> Result<SureSink, Fail>
    requires { length graph.now.ids ≡ 2 }
{
    let mut sink = SureSink::new(alloc, 5);
    write_first(alloc, graph, &mut sink)?;
    write_rows(alloc, graph, &ROWS, &mut sink)?;
    Ok(sink)
}

fn blocks(alloc: Global) -> Result<SureSink, Fail> {
    let graph = two_edges(alloc)?;
    blocks_over(alloc, &graph)
}

#[test]
fn tables_as_blocks(rt: HostRuntime) -> Result<(), Fail> {
    assert!(rt; blocks(rt.alloc())?.bytes() == WRITTEN.as_bytes());
    Ok(())
}

// The blocks of a short text.
fn changes_of(alloc: Global, text: &[u8]) -> Result<ChangeText, Fail> {
    if text.len() > 1_000 {
        return Err(Fail::new("a long text"));
    }
    Ok(read_changes(alloc, text)?)
}

// The tables of blocks, written a few bytes at a time.
fn replayed(alloc: Global, changes: &ChangeText) -> Result<SureSink, Fail> {
    let mut sink = SureSink::new(alloc, 7);
    replay(alloc, changes, &mut sink)?;
    Ok(sink)
}

// The tables of a text.
fn tables_of(alloc: Global, text: &str) -> Result<SureSink, Fail> {
    let changes = changes_of(alloc, text.as_bytes())?;
    replayed(alloc, &changes)
}

// The tables of the blocks that are cut and exchanged above.
const TABLES: &str =
    "view x settled 0\n1,0\n7,-\nend\nview x after 13\n1,-5\n7,20\nend\nview y unsettled\nend\n";

#[test]
fn tables_of_texts(rt: HostRuntime) -> Result<(), Fail> {
    assert!(rt; tables_of(rt.alloc(), "")?.bytes() == "".as_bytes());
    assert!(rt; tables_of(rt.alloc(), BLOCKS)?.bytes() == TABLES.as_bytes());
    Ok(())
}

// What is written of blocks before the third write fails.
fn interrupted(alloc: Global, changes: &ChangeText) -> Result<MemorySink, Fail> {
    let fails = List::from_vec(Vec::from_slice(alloc, &[3])?);
    let mut sink = MemorySink::new(alloc, 4, fails);
    match replay(alloc, changes, &mut sink) {
        Err(ReplayStop::Failed) => Ok(sink),
        _ => Err(Fail::new("no failure")),
    }
}

// What is written of a text before the third write fails.
fn front_of(alloc: Global, text: &str) -> Result<MemorySink, Fail> {
    let changes = changes_of(alloc, text.as_bytes())?;
    interrupted(alloc, &changes)
}

#[test]
fn a_write_that_fails(rt: HostRuntime) -> Result<(), Fail> {
    let front = front_of(rt.alloc(), "view x settled 0\n1,0\nend\n")?;
    assert!(rt; front.bytes() == "view x s".as_bytes());
    Ok(())
}
