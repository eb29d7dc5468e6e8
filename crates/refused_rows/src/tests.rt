//! A run that is kept, its works, and what memory decides of it.

ghost use Rattle.std.specs.Prelude.{◌≡◌, ◌<◌};

use quick_updates::QuickSteps;
use std::alloc::{AllocError, Global};
use std::marker::Brand;
use std::sync::ledger::{Blank, Ledger};
use surge_cli::{Status, surge};
use surge_outside::{List, SureFiles, SureSink, Text};

const FILES: [(&str, &str); 3] = [
    (
        "s",
        "load graph G nodes 'n4.csv' edges 'e1.csv';\ncreate view collection C on G [a: y <= 1], [b: y <= 2], [c: y = 2 or y = 3];\nrun hops(1) on C within 3 rounds split auto keep as K;\nshow work K;\n",
    ),
    ("n4.csv", "id\n1\n2\n3\n4\n"),
    ("e1.csv", "src,dst,y:int\n1,2,1\n2,3,1\n1,3,2\n3,4,3\n"),
];

const PRINTED: &str =
    "view C.a hops(1) settled 2\n1,0\n2,1\n3,2\n4,-\nend\nview C.b hops(1) settled 1\n1,0\n2,1\n3,1\n4,-\nend\nview C.c hops(1) settled 2\n1,0\n2,-\n3,1\n4,2\nend\nwork K\na 1 7\nb 1 3\nc 2 7\nend\n";

const LINE: &str = "surge: out of memory\n";

fn files(alloc: Global) -> Result<SureFiles, AllocError> {
    let mut held = Vec::new(alloc);
    for (name, text) in FILES {
        let name = Text::from_string(String::from_str(alloc, name)?);
        held.push((
            name,
            List::from_vec(Vec::from_slice(alloc, text.as_bytes())?),
        ))?;
    }
    Ok(SureFiles::new(List::from_vec(held), 4096))
}

fn words(alloc: Global) -> Result<Vec<String>, AllocError> {
    let mut words = Vec::new(alloc);
    for word in ["surge", "--script", "s"] {
        words.push(String::from_str(alloc, word)?)?;
    }
    Ok(words)
}

// Whether all was written where the run is done, and fronts where it wants memory. It has no other answer.
fn is_right(status: Status, out: &[u8], err: &[u8]) -> bool {
    match status {
        Status::Done => out == PRINTED.as_bytes() && err.is_empty(),
        Status::NoMemory => PRINTED.as_bytes().starts_with(out) && LINE.as_bytes().starts_with(err),
        _ => false,
    }
}

// Whether a run is right. Memory may want before it begins, too.
fn runs_right<L: Ledger>(alloc: Global, blank: Blank) -> Result<bool, AllocError>
    requires name { blank.name ≡ L.name }
    requires parts { blank.parts ≡ L.parts }
    requires some { 0 < L.parts }
{
    let mut steps = QuickSteps::<L>::new(blank);
    let mut files = files(alloc)?;
    let words = words(alloc)?;
    let mut out = SureSink::new(alloc, 4096);
    let mut err = SureSink::new(alloc, 4096);
    let status = surge(
        alloc,
        words.as_slice(),
        &mut files,
        &mut out,
        &mut err,
        &mut steps,
    );
    Ok(is_right(status, out.bytes(), err.bytes()))
}

#[test]
fn a_run_is_done_or_wants_memory(rt: HostRuntime) {
    match runs_right::<Brand>(rt.alloc(), Blank::new(1)) {
        Ok(right) => assert!(rt; right),
        Err(AllocError) => {}
    }
}
