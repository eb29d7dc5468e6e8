//! What calls that fail do to scripts and words beside the worked example, and which calls are not made.

use super::{EDGES, NODES, SCRIPT, contents, row, run, sure, whole};
use crate::Ends;
use std::test::Fail;
use surge_cli::{FileRole, Status};

// A run that is kept, an append and an order.
const GROWING: &str =
    "load graph G nodes 'n4.csv' edges 'e1.csv';\ncreate view collection C on G [a: y <= 1], [b: y <= 2];\nrun hops(1) on C within 10 rounds keep as K;\nappend to C [c: y = 2 or y = 3], [d: y = 3];\nshow order C;\n";

// What it prints, piece by piece.
const GROWN: [&str; 5] = [
    "view C.a hops(1) settled 2\n1,0\n2,1\n3,2\n4,-\nend\n",
    "view C.b hops(1) settled 1\n1,0\n2,1\n3,1\n4,-\nend\n",
    "view C.c hops(1) settled 2\n1,0\n2,-\n3,1\n4,2\nend\n",
    "view C.d hops(1) settled 0\n1,0\n2,-\n3,-\n4,-\nend\n",
    "order C 6\nd 1\nc 1\nb 3\na 1\nend\n",
];

const CHECK: [&str; 5] = ["surge", "--script", "s", "--mode", "check"];

#[test]
fn nothing_is_read_behind_an_absent_file(rt: HostRuntime) -> Result<(), Fail> {
    // The third fetch finds no nodes file. A fourth would fail.
    let files = contents(SCRIPT, None, Some(EDGES));
    let ends = Ends {
        fetch: Some(4),
        ..sure(4096)
    };
    let left = row(&rt, &files, ends)?;
    assert_eq!(rt; left.status, Status::Absent(FileRole::Nodes));
    Ok(())
}

#[test]
fn words_that_name_no_script_read_nothing(rt: HostRuntime) -> Result<(), Fail> {
    let ends = Ends {
        fetch: Some(1),
        ..sure(4096)
    };
    let words: [&str; 0] = [];
    let left = run(&rt, &words, &whole(), ends)?;
    assert_eq!(rt; left.status, Status::Usage);
    Ok(())
}

#[test]
fn what_stands_behind_a_kept_run_goes_out_in_whole_texts(rt: HostRuntime) -> Result<(), Fail> {
    let files = contents(GROWING, Some(NODES), Some(EDGES));
    for call in 1..7 {
        let ends = Ends {
            write: Some(call),
            ..sure(4096)
        };
        let left = row(&rt, &files, ends)?;
        let mut out = String::new(rt.alloc());
        for text in GROWN.iter().take(call as usize - 1) {
            out.push_str(text)?;
        }
        assert_eq!(rt; left.out.as_slice(), out.as_bytes(), "at write {call}");
        assert!(rt; (left.status == Status::Done) == (call == 6));
    }
    Ok(())
}

#[test]
fn the_text_of_a_script_is_one_piece(rt: HostRuntime) -> Result<(), Fail> {
    for call in [1, 2] {
        let ends = Ends {
            write: Some(call),
            ..sure(4096)
        };
        let left = run(&rt, &CHECK, &whole(), ends)?;
        if call == 1 {
            assert_eq!(rt; left.status, Status::WriteFault);
            assert!(rt; left.out.is_empty());
        } else {
            assert_eq!(rt; left.status, Status::Done);
            assert_eq!(rt; left.out.as_slice(), SCRIPT.as_bytes());
        }
    }
    Ok(())
}
