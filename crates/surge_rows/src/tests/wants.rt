//! Ends that want memory.

ghost use Rattle.std.specs.Prelude.{◌≡◌, ◌<◌};

use super::whole;
use crate::{LackingFiles, LackingSink, copied, held};
use std::marker::Brand;
use std::sync::ledger::{Blank, Ledger};
use std::test::Fail;
use surge_cli::{Status, surge};
use surge_outside::{Files, List, MemoryFiles, MemorySink, Sink, Steps};

fn counted<L: Ledger, F: Files, O: Sink, E: Sink>(
    rt: &HostRuntime,
    blank: Blank,
    words: &[&str],
    files: &mut F,
    out: &mut O,
    err: &mut E,
) -> Result<Status, Fail>
    requires name { blank.name ≡ L.name }
    requires parts { blank.parts ≡ L.parts }
    requires some { 0 < L.parts }
{
    let mut steps = Steps::<L>::new(blank);
    let words = copied(rt.alloc(), words)?;
    Ok(surge(rt.alloc(), words.as_slice(), files, out, err, &mut steps))
}

// The status of a run over these ends.
pub(super) fn status<F: Files, O: Sink, E: Sink>(
    rt: &HostRuntime,
    words: &[&str],
    files: &mut F,
    out: &mut O,
    err: &mut E,
) -> Result<Status, Fail> {
    counted::<Brand, F, O, E>(rt, Blank::new(1), words, files, out, err)
}

pub(super) fn sink(rt: &HostRuntime) -> MemorySink {
    MemorySink::new(rt.alloc(), 4096, List::from_vec(Vec::new(rt.alloc())))
}

#[test]
fn files_that_want_memory_leave_the_output_as_it_was(rt: HostRuntime) -> Result<(), Fail> {
    let mut out = sink(&rt);
    let mut err = sink(&rt);
    let words = ["surge", "--script", "s"];
    let status = status(&rt, &words, &mut LackingFiles, &mut out, &mut err)?;
    assert_eq!(rt; status, Status::NoMemory);
    assert!(rt; out.bytes().is_empty());
    assert_eq!(rt; err.bytes(), b"surge: out of memory\n".as_slice());
    Ok(())
}

#[test]
fn a_sink_that_wants_memory_is_told(rt: HostRuntime) -> Result<(), Fail> {
    let held = held(rt.alloc(), &whole())?;
    let mut files = MemoryFiles::new(held, 4096, List::from_vec(Vec::new(rt.alloc())));
    let words = ["surge", "--script", "s"];
    let output = status(&rt, &words, &mut files, &mut LackingSink, &mut sink(&rt))?;
    assert_eq!(rt; output, Status::NoMemory);
    let words: [&str; 0] = [];
    let report = status(&rt, &words, &mut files, &mut sink(&rt), &mut LackingSink)?;
    assert_eq!(rt; report, Status::NoMemory);
    Ok(())
}
