//! The sample, of whose files nothing is asked.

use super::wants::{sink, status};
use crate::{LackingFiles, UnreadableFiles};
use std::test::Fail;
use surge_cli::Status;

const SCRIPT: &str =
    "load graph S nodes 'nodes.csv' edges 'edges.csv';\ncreate view collection W on S [w: window t from 0 to 150 width 40 step 10];\nrun dist(1, w) on W within 2000 rounds split auto;\n";

const WORDS: [&str; 5] = ["surge", "--sample", "1", "--mode", "check"];

#[test]
fn nothing_is_asked_of_files_for_the_sample(rt: HostRuntime) -> Result<(), Fail> {
    let mut files = UnreadableFiles::new();
    let mut out = sink(&rt);
    let mut err = sink(&rt);
    let status = status(&rt, &WORDS, &mut files, &mut out, &mut err)?;
    assert_eq!(rt; status, Status::Done);
    assert_eq!(rt; files.fetches(), 0);
    assert_eq!(rt; out.bytes(), SCRIPT.as_bytes());
    assert!(rt; err.bytes().is_empty());
    Ok(())
}

#[test]
fn files_that_want_memory_are_not_asked_for_the_sample(rt: HostRuntime) -> Result<(), Fail> {
    let mut out = sink(&rt);
    let mut err = sink(&rt);
    let status = status(&rt, &WORDS, &mut LackingFiles, &mut out, &mut err)?;
    assert_eq!(rt; status, Status::Done);
    assert_eq!(rt; out.bytes(), SCRIPT.as_bytes());
    assert!(rt; err.bytes().is_empty());
    Ok(())
}
