//! Whole runs of the program that need ends in memory: calls that fail in the middle, pieces cut at any place, ends that
//! want memory, files past their limits, files that are never asked, and other updaters. Runs
//! that files and words alone can make are folders under `tests/runs`.
//!
//! It stands on top of every other crate, and nothing stands on it. What it shows is what no contract says alone: that the
//! definitions mean what they are meant to, and that a run finds memory.
#![tactic(auto)]

ghost use Rattle.std.specs.Prelude.{◌≡◌, ◌<◌, ◌≤◌, Some, map, string_bytes};
ghost use Rattle.surge_cli.specs.Completing.{Completes};

mod lacking;
mod starter;
mod teller;
mod unreadable;

pub use lacking::{LackingFiles, LackingSink};
pub use starter::Starter;
use std::alloc::{AllocError, Global};
use std::sync::ledger::{Blank, Ledger};
use surge_cli::{Status, surge};
use surge_outside::{List, MemoryFiles, MemorySink, Sink, Steps, SureFiles, SureSink, Text};
pub use teller::Teller;
pub use unreadable::UnreadableFiles;
use vertex_lang::Updater;

/// What the files in memory hold, where they are there: the script `s`, the data files `n4.csv` and `e1.csv`, and a further
/// file of edges `e2.csv`.
#[derive(Clone, Copy)]
pub struct Contents<'a> {
    pub script: &'a [u8],
    pub nodes: Option<&'a [u8]>,
    pub edges: Option<&'a [u8]>,
    pub more: Option<&'a [u8]>,
}

/// What a run left: its status, and what was written.
#[derive(Drop)]
pub struct Left {
    pub status: Status,
    pub out: Vec<u8>,
    pub err: Vec<u8>,
}

/// How many bytes an end takes or gives at once, and which call of each end fails, by its number from 1.
#[derive(Clone, Copy)]
pub struct Ends {
    pub piece: usize,
    pub fetch: Option<u64>,
    pub write: Option<u64>,
    pub report: Option<u64>,
}

type Held = Vec<(Text, List<u8>)>;

// Adds the file of this name, where it is there.
fn hold(
    alloc: Global,
    held: &mut Held,
    name: &str,
    bytes: Option<&[u8]>,
) -> Result<(), AllocError> {
    if let Some(bytes) = bytes {
        held.push((
            Text::from_string(String::from_str(alloc, name)?),
            List::from_vec(Vec::from_slice(alloc, bytes)?),
        ))?;
    }
    Ok(())
}

/// The script and the data files, those that are there.
pub fn held(alloc: Global, files: &Contents<'_>) -> Result<List<(Text, List<u8>)>, AllocError> {
    let mut held = Vec::new(alloc);
    hold(alloc, &mut held, "s", Some(files.script))?;
    hold(alloc, &mut held, "n4.csv", files.nodes)?;
    hold(alloc, &mut held, "e1.csv", files.edges)?;
    hold(alloc, &mut held, "e2.csv", files.more)?;
    Ok(List::from_vec(held))
}

// The call that fails, as a list.
fn failing(alloc: Global, call: Option<u64>) -> Result<List<u64>, AllocError> {
    let mut calls = Vec::new(alloc);
    if let Some(number) = call {
        calls.push(number)?;
    }
    Ok(List::from_vec(calls))
}

/// Copies of the words of a command line.
pub fn copied(alloc: Global, words: &[&str]) -> Result<Vec<String>, AllocError> {
    let mut copies = Vec::new(alloc);
    for word in words {
        copies.push(String::from_str(alloc, word)?)?;
    }
    Ok(copies)
}

/// Runs the program with these words over files and sinks in memory.
pub fn run_memory<U: Updater>(
    alloc: Global,
    words: &[&str],
    files: &Contents<'_>,
    ends: Ends,
    updater: &mut U,
) -> Result<Left, AllocError>
    requires { 1 ≤ ends.piece }
{
    let mut files = MemoryFiles::new(held(alloc, files)?, ends.piece, failing(alloc, ends.fetch)?);
    let mut out = MemorySink::new(alloc, ends.piece, failing(alloc, ends.write)?);
    let mut err = MemorySink::new(alloc, ends.piece, failing(alloc, ends.report)?);
    let words = copied(alloc, words)?;
    let status = surge(
        alloc,
        words.as_slice(),
        &mut files,
        &mut out,
        &mut err,
        updater,
    );
    Ok(Left {
        status,
        out: Vec::from_slice(alloc, out.bytes())?,
        err: Vec::from_slice(alloc, err.bytes())?,
    })
}

/// Runs the program over files and an output in memory that never fail. So where the words, the files and the script are
/// accepted the whole output is written, or memory was wanting: no failure of an end can be answered.
pub fn run_sure<E: Sink, U: Updater>(
    alloc: Global,
    words: &[String],
    files: &mut SureFiles,
    out: &mut SureSink,
    err: &mut E,
    updater: &mut U,
) -> Status
    ensures { Completes U.answer (Some files.old.held) (map string_bytes words.now) result (Some out.old.written) (Some out.new.written) }
{
    surge(alloc, words, files, out, err, updater)
}

/// [`run_memory`] with a counter of steps as the updater.
pub fn run_counted<L: Ledger>(
    alloc: Global,
    blank: Blank,
    words: &[&str],
    files: &Contents<'_>,
    ends: Ends,
) -> Result<Left, AllocError>
    requires piece { 1 ≤ ends.piece }
    requires name { blank.name ≡ L.name }
    requires parts { blank.parts ≡ L.parts }
    requires some { 0 < L.parts }
{
    let mut steps = Steps::<L>::new(blank);
    run_memory(alloc, words, files, ends, &mut steps)
}

#[cfg(test)]
mod tests;
