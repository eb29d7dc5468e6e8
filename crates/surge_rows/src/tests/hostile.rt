//! The worked example over ends that fail, that cut, or that never end. Cut data files, texts that aren't UTF-8 or are too large,
//! and a script that isn't there are folders under `tests/runs`.

ghost use Rattle.std.specs.Prelude.{◌≡◌, ◌<◌, ◌≤◌};

use super::wants::{sink, status};
use super::{EDGES, NODES, SCRIPT, TABLES, contents, row, sure, whole};
use crate::{Contents, Ends, Left, copied, held, run_sure};
use std::fmt::Write;
use std::marker::Brand;
use std::sync::ledger::{Blank, Ledger};
use std::test::Fail;
use surge_cli::{ScriptRefusal, Status};
use surge_outside::{EndlessFiles, Steps, SureFiles, SureSink};

// Which end fails.
#[derive(Clone, Copy)]
enum End {
    Fetch,
    Write,
    Report,
}

// The ends, of which this call of one fails.
fn failing(end: End, call: u64, piece: usize) -> Ends
    ensures { result.piece ≡ piece }
{
    let sure = sure(piece);
    match end {
        End::Fetch => Ends {
            fetch: Some(call),
            ..sure
        },
        End::Write => Ends {
            write: Some(call),
            ..sure
        },
        End::Report => Ends {
            report: Some(call),
            ..sure
        },
    }
}

// How many bytes of the tables runs leave, of which each call of an end fails in turn, up to the run that is done. Each other
// run has this line.
fn lengths(rt: &HostRuntime, end: End, piece: usize, line: &str) -> Result<String, Fail>
    requires { 1 ≤ piece }
{
    let mut text = String::new(rt.alloc());
    for call in 1..100 {
        let left = row(rt, &whole(), failing(end, call, piece))?;
        if !TABLES.as_bytes().starts_with(left.out.as_slice()) {
            return Err(Fail::new("what went out is no front of the tables"));
        }
        write!(text, "{} ", left.out.len())?;
        if left.status == Status::Done && left.err.is_empty() {
            return Ok(text);
        }
        if left.err.as_slice() != line.as_bytes() {
            return Err(Fail::new("another line"));
        }
    }
    Ok(text)
}

#[test]
fn each_failing_call_leaves_a_front(rt: HostRuntime) -> Result<(), Fail> {
    // Each file is one piece and its end. A table of 47 bytes goes out in seven pieces of 7, or in one.
    let reads = lengths(&rt, End::Fetch, 4096, "surge: read fault\n")?;
    assert_eq!(rt; reads.as_str(), "0 0 0 0 0 0 141 ");
    let line = "surge: write fault\n";
    let pieces = lengths(&rt, End::Write, 7, line)?;
    assert_eq!(rt;
        pieces.as_str(),
        "0 7 14 21 28 35 42 47 54 61 68 75 82 89 94 101 108 115 122 129 136 141 "
    );
    assert_eq!(rt;
        lengths(&rt, End::Write, 4096, line)?.as_str(),
        "0 47 94 141 "
    );
    assert_eq!(rt; lengths(&rt, End::Report, 4096, "")?.as_str(), "141 ");
    Ok(())
}

#[test]
fn a_failing_report_changes_nothing_else(rt: HostRuntime) -> Result<(), Fail> {
    let files = contents("load graph G nodes 'n4", Some(NODES), Some(EDGES));
    let left = row(&rt, &files, failing(End::Report, 1, 4096))?;
    assert!(rt; left.status.number() == 5 && left.out.is_empty() && left.err.is_empty());
    Ok(())
}

// Whether a run is refused for the syntax of its script.
fn is_syntax(left: &Left) -> bool {
    let line = left.err.as_slice();
    left.status.number() == 5 && left.out.is_empty() && line.ends_with(b": Syntax\n")
}

// Each length of the script's front that is done, with how many bytes of the tables it leaves. Each other one has a fault of
// the text.
fn whole_fronts(rt: &HostRuntime) -> Result<String, Fail> {
    let mut text = String::new(rt.alloc());
    for length in 0..SCRIPT.len() + 1 {
        let files = Contents {
            script: &SCRIPT.as_bytes()[..length],
            ..whole()
        };
        let left = row(rt, &files, sure(4096))?;
        if left.status == Status::Done {
            write!(text, "{length} {} ", left.out.len())?;
        } else if !is_syntax(&left) {
            return Err(Fail::new("another answer"));
        }
    }
    Ok(text)
}

#[test]
fn a_script_is_done_up_to_the_end_of_a_statement(rt: HostRuntime) -> Result<(), Fail> {
    let fronts = whole_fronts(&rt)?;
    assert_eq!(rt; fronts.as_str(), "43 0 44 0 120 0 121 0 155 141 156 141 ");
    Ok(())
}

#[test]
fn an_endless_script_is_too_large(rt: HostRuntime) -> Result<(), Fail> {
    let mut files = EndlessFiles::new(b' ');
    let mut out = sink(&rt);
    let mut err = sink(&rt);
    let words = ["surge", "--script", "s"];
    let status = status(&rt, &words, &mut files, &mut out, &mut err)?;
    assert_eq!(rt; status, Status::Script(ScriptRefusal::TooLarge));
    assert!(rt; out.bytes().is_empty());
    assert_eq!(rt; err.bytes(), b"surge: script: TooLarge\n".as_slice());
    Ok(())
}

// Whether the whole output is written over ends that never fail, in pieces of this many bytes.
fn is_whole<L: Ledger>(rt: &HostRuntime, blank: Blank, piece: usize) -> Result<bool, Fail>
    requires piece { 1 ≤ piece }
    requires name { blank.name ≡ L.name }
    requires parts { blank.parts ≡ L.parts }
    requires some { 0 < L.parts }
{
    let mut steps = Steps::<L>::new(blank);
    let mut files = SureFiles::new(held(rt.alloc(), &whole())?, piece);
    let words = copied(rt.alloc(), &["surge", "--script", "s"])?;
    let mut out = SureSink::new(rt.alloc(), piece);
    let mut err = SureSink::new(rt.alloc(), piece);
    let status = run_sure(
        rt.alloc(),
        words.as_slice(),
        &mut files,
        &mut out,
        &mut err,
        &mut steps,
    );
    let nothing_said = status == Status::Done && err.bytes().is_empty();
    Ok(nothing_said && out.bytes() == TABLES.as_bytes())
}

#[test]
fn each_view_is_run_alone_however_the_bytes_are_cut(rt: HostRuntime) -> Result<(), Fail> {
    for piece in [1, 5, 4096] {
        assert!(rt;
            is_whole::<Brand>(&rt, Blank::new(1), piece)?,
            "pieces of {piece}"
        );
    }
    Ok(())
}
