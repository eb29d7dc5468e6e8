//! Files past their limits, made in memory.

use super::{EDGES, NODES, SCRIPT, TABLES, contents, row, sure};
use crate::Contents;
use std::alloc::{AllocError, Global};
use std::fmt::Write;
use std::test::Fail;
use surge_cli::{DataFault, DataFile, DataKind, ScriptRefusal, Status};

fn repeated(alloc: Global, text: &str, times: u32) -> Result<String, AllocError> {
    let mut all = String::new(alloc);
    for _time in 0..times {
        all.push_str(text)?;
    }
    Ok(all)
}

// The header and the ids 1 to 1,000,001.
fn many_nodes(alloc: Global) -> Result<String, AllocError> {
    let mut text = String::from_str(alloc, "id\n")?;
    for id in 1..1_000_002 {
        write!(text, "{id}\n")?;
    }
    Ok(text)
}

// The header and 4,000,001 edges.
fn many_edges(alloc: Global) -> Result<String, AllocError> {
    let thousand = repeated(alloc, "1,1\n", 1000)?;
    let most = repeated(alloc, thousand.as_str(), 4000)?;
    format!(in alloc; "src,dst\n{most}1,1\n")
}

// 2^28 + 1 bytes.
fn many_bytes(alloc: Global) -> Result<String, AllocError> {
    let block = repeated(alloc, "src,dst,y:int\n1,2,1\n2,3,1\n1,3,2\n", 4096)?;
    let mut text = repeated(alloc, block.as_str(), 2048)?;
    text.push_str("s")?;
    Ok(text)
}

// The script with a comment of blanks, of this many bytes.
fn script_of_size(alloc: Global, size: usize) -> Result<String, AllocError> {
    let mut script = format!(in alloc; "{SCRIPT}#")?;
    for _ in 0..size.saturating_sub(script.len()) {
        script.push_str(" ")?;
    }
    Ok(script)
}

// Whether these files have a fault of this kind at this record, with this line.
fn has_fault(
    rt: &HostRuntime,
    files: &Contents<'_>,
    file: DataFile,
    row_number: u32,
    kind: DataKind,
    line: &str,
) -> Result<bool, Fail> {
    let left = row(rt, files, sure(65_536))?;
    let fault = DataFault {
        file,
        row: row_number,
        column: 0,
        kind,
    };
    let is_line = left.err.as_slice() == line.as_bytes() && left.out.is_empty();
    Ok(left.status == Status::Data(fault) && is_line)
}

#[test]
fn a_script_has_at_most_2_to_the_20_bytes(rt: HostRuntime) -> Result<(), Fail> {
    let largest = script_of_size(rt.alloc(), 1_048_576)?;
    let files = contents(largest.as_str(), Some(NODES), Some(EDGES));
    let left = row(&rt, &files, sure(4096))?;
    assert_eq!(rt; left.out.as_slice(), TABLES.as_bytes());
    let larger = script_of_size(rt.alloc(), 1_048_577)?;
    let files = contents(larger.as_str(), Some(NODES), Some(EDGES));
    let left = row(&rt, &files, sure(4096))?;
    assert_eq!(rt; left.status, Status::Script(ScriptRefusal::TooLarge));
    assert_eq!(rt;
        left.err.as_slice(),
        b"surge: script: TooLarge\n".as_slice()
    );
    Ok(())
}

#[test]
fn there_are_at_most_a_million_nodes(rt: HostRuntime) -> Result<(), Fail> {
    let nodes = many_nodes(rt.alloc())?;
    let files = contents(SCRIPT, Some(nodes.as_str()), Some(EDGES));
    let line = "surge: data: nodes record 1000002 column 0: TooManyNodes\n";
    let kind = DataKind::TooManyNodes;
    assert!(rt; has_fault(&rt, &files, DataFile::Nodes, 1_000_002, kind, line)?);
    Ok(())
}

#[test]
fn there_are_at_most_four_million_edges(rt: HostRuntime) -> Result<(), Fail> {
    let edges = many_edges(rt.alloc())?;
    let files = contents(SCRIPT, Some(NODES), Some(edges.as_str()));
    let line = "surge: data: edges record 4000002 column 0: TooManyEdges\n";
    let kind = DataKind::TooManyEdges;
    assert!(rt; has_fault(&rt, &files, DataFile::Edges, 4_000_002, kind, line)?);
    Ok(())
}

#[test]
fn a_data_file_has_at_most_2_to_the_28_bytes(rt: HostRuntime) -> Result<(), Fail> {
    let bytes = many_bytes(rt.alloc())?;
    let files = contents(SCRIPT, Some(NODES), Some(bytes.as_str()));
    let line = "surge: data: edges record 0 column 0: TooLarge\n";
    assert!(rt; has_fault(&rt, &files, DataFile::Edges, 0, DataKind::TooLarge, line)?);
    Ok(())
}

#[test]
fn nodes_that_are_too_large_come_before_absent_edges(rt: HostRuntime) -> Result<(), Fail> {
    let bytes = many_bytes(rt.alloc())?;
    let files = contents(SCRIPT, Some(bytes.as_str()), None);
    let line = "surge: data: nodes record 0 column 0: TooLarge\n";
    assert!(rt; has_fault(&rt, &files, DataFile::Nodes, 0, DataKind::TooLarge, line)?);
    Ok(())
}
