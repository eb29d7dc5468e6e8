//! Edges that come and go: the updates are counted, and files that are inserted are asked for in their order.

ghost use Rattle.std.specs.Prelude.{◌≡◌, ◌<◌};

use super::{EDGES, NODES, TABLES, contents, row, sure};
use crate::{Contents, Ends, Teller, run_memory};
use std::marker::Brand;
use std::sync::ledger::{Blank, Ledger};
use std::test::Fail;
use surge_cli::{FileRole, Status};

const KEPT: &str =
    "form 2;\nload graph G nodes 'n4.csv' edges 'e1.csv';\ncreate view collection C on G [a: y <= 1], [b: y <= 2], [c: y = 2 or y = 3];\nrun hops(1) on C within 10 rounds keep as K;\n";

const INSERT: &str = "insert edges 'e2.csv';\n";

// An edge that no view has.
const UNSEEN: &str = "src,dst,y:int\n1,2,9\n";

// What stands behind the kept run, and how often its tables are printed. The views' own works are 7, 3 and 5, and no edit
// touches a node of them.
const EDITS: [(&str, usize); 4] = [
    ("", 1),
    ("insert edges 'e2.csv';\n", 2),
    ("insert edges 'e2.csv';\ninsert edges 'e2.csv';\n", 3),
    ("insert edges 'e2.csv';\nremove edges where y = 9;\n", 3),
];

// The files of the worked example with one to insert.
fn with_more<'a>(script: &'a str, more: &'a str) -> Contents<'a> {
    Contents {
        more: Some(more.as_bytes()),
        ..contents(script, Some(NODES), Some(EDGES))
    }
}

// Whether the script in these files prints so many tables with the updates of the views alone.
fn is_quiet<L: Ledger>(
    rt: &HostRuntime,
    blank: Blank,
    files: &Contents<'_>,
    times: usize,
) -> Result<bool, Fail>
    requires name { blank.name ≡ L.name }
    requires parts { blank.parts ≡ L.parts }
    requires some { 0 < L.parts }
{
    let mut teller = Teller::<L>::new(blank);
    let words = ["surge", "--script", "s"];
    let left = run_memory(rt.alloc(), &words, files, sure(4096), &mut teller)?;
    let mut tables = String::new(rt.alloc());
    for _ in 0..times {
        tables.push_str(TABLES)?;
    }
    Ok(left.out.as_slice() == tables.as_bytes() && teller.updates() == 15)
}

#[test]
fn an_edit_that_touches_no_node_updates_none(rt: HostRuntime) -> Result<(), Fail> {
    for (edits, times) in EDITS {
        let mut script = String::from_str(rt.alloc(), KEPT)?;
        script.push_str(edits)?;
        let files = with_more(script.as_str(), UNSEEN);
        assert!(rt;
            is_quiet::<Brand>(&rt, Blank::new(1), &files, times)?,
            "{edits}"
        );
    }
    Ok(())
}

#[test]
fn a_file_is_inserted_behind_the_data(rt: HostRuntime) -> Result<(), Fail> {
    let mut script = String::from_str(rt.alloc(), KEPT)?;
    script.push_str(INSERT)?;
    // The file is asked for last: its second fetch is the eighth.
    for (call, status) in [
        (6, Status::ReadFault),
        (8, Status::ReadFault),
        (9, Status::Done),
    ] {
        let ends = Ends {
            fetch: Some(call),
            ..sure(4096)
        };
        let left = row(&rt, &with_more(script.as_str(), UNSEEN), ends)?;
        assert_eq!(rt; left.status, status, "at fetch {call}");
    }
    let left = row(
        &rt,
        &contents(script.as_str(), Some(NODES), Some(EDGES)),
        sure(4096),
    )?;
    assert_eq!(rt; left.status, Status::Absent(FileRole::Insert(4)));
    Ok(())
}
