//! Rows, worked out by hand. Each file has those of a theme.

ghost use Rattle.std.specs.Prelude.{◌≡◌, ◌≤◌};

mod edits;
mod faults;
mod hostile;
mod samples;
mod sizes;
mod turns;
mod updaters;
mod wants;

use crate::{Contents, Ends, Left, run_counted};
use std::marker::Brand;
use std::sync::ledger::Blank;
use std::test::Fail;

const NODES: &str = "id\n1\n2\n3\n4\n";

const EDGES: &str = "src,dst,y:int\n1,2,1\n2,3,1\n1,3,2\n3,4,3\n";

const SCRIPT: &str =
    "load graph G nodes 'n4.csv' edges 'e1.csv';\ncreate view collection C on G [a: y <= 1], [b: y <= 2], [c: y = 2 or y = 3];\nrun hops(1) on C within 10 rounds;\n";

const TABLES: &str =
    "view C.a hops(1) settled 2\n1,0\n2,1\n3,2\n4,-\nend\nview C.b hops(1) settled 1\n1,0\n2,1\n3,1\n4,-\nend\nview C.c hops(1) settled 2\n1,0\n2,-\n3,1\n4,2\nend\n";

// These files, of which those of the data may not be there.
fn contents<'a>(script: &'a str, nodes: Option<&'a str>, edges: Option<&'a str>) -> Contents<'a> {
    Contents {
        script: script.as_bytes(),
        nodes: nodes.map(|text| text.as_bytes()),
        edges: edges.map(|text| text.as_bytes()),
        more: None,
    }
}

// The three files of the worked example.
fn whole() -> Contents<'static> {
    contents(SCRIPT, Some(NODES), Some(EDGES))
}

fn sure(piece: usize) -> Ends
    ensures { result.piece ≡ piece }
{
    Ends {
        piece,
        fetch: None,
        write: None,
        report: None,
    }
}

// Runs the program with these words over these files.
fn run(rt: &HostRuntime, words: &[&str], files: &Contents<'_>, ends: Ends) -> Result<Left, Fail>
    requires { 1 ≤ ends.piece }
{
    Ok(run_counted::<Brand>(rt.alloc(), Blank::new(1), words, files, ends)?)
}

// Runs the script over these files.
fn row(rt: &HostRuntime, files: &Contents<'_>, ends: Ends) -> Result<Left, Fail>
    requires { 1 ≤ ends.piece }
{
    run(rt, &["surge", "--script", "s"], files, ends)
}
