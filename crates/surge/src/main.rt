//! The program: it makes the real ends and calls [`surge_cli::surge`].
#![tactic(auto)]

ghost use Rattle.std.specs.Prelude.{◌≡◌, ◌<◌};

use quick_updates::QuickSteps;
use std::marker::Brand;
use std::process::ExitCode;
use std::sync::ledger::{Blank, Ledger};
use std::{env, io};
use surge_cli::{Status, refuse_words, surge};
use surge_outside::{DiskFiles, StdSink};

fn words(rt: &HostRuntime) -> io::Result<Vec<String>> {
    let mut words = Vec::new(rt.alloc());
    for word in env::args(rt)? {
        words.push(word)?;
    }
    Ok(words)
}

// Runs over the real files and standard streams.
fn run<L: Ledger>(rt: HostRuntime, blank: Blank, words: &[String]) -> Status
    requires name { blank.name ≡ L.name }
    requires parts { blank.parts ≡ L.parts }
    requires some { 0 < L.parts }
{
    let mut steps = QuickSteps::<L>::new(blank);
    let mut out = StdSink::new(rt.stdout());
    let mut err = StdSink::new(rt.stderr());
    let alloc = rt.alloc();
    let mut files = DiskFiles::new(rt);
    surge(alloc, words, &mut files, &mut out, &mut err, &mut steps)
}

fn main(rt: HostRuntime) -> ExitCode {
    let status = match words(&rt) {
        Ok(words) => run::<Brand>(rt, Blank::new(1), words.as_slice()),
        Err(error) => refuse_words(rt.alloc(), &error, &mut StdSink::new(rt.stderr())),
    };
    ExitCode::from(status.number())
}
