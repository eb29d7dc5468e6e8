//! Turns and the summary, with a write that fails in the middle.

use super::{EDGES, NODES, TABLES, contents, run, sure, whole};
use crate::Ends;
use std::test::Fail;
use surge_cli::Status;

// Each view is a segment of its own, so that turns have three to choose from, and then two.
const SEGMENTS: &str =
    "load graph G nodes 'n4.csv' edges 'e1.csv';\ncreate view collection C on G [a: y <= 1], [b: y <= 2], [c: y = 2 or y = 3];\nrun hops(1) on C within 10 rounds split every 1;\n";

// The summary of the worked example, piece by piece.
const LINES: [&str; 3] = [
    "view C.a hops(1) settled 2 edges 2 values 3 sum 3\n",
    "view C.b hops(1) settled 1 edges 3 values 3 sum 2\n",
    "view C.c hops(1) settled 2 edges 2 values 3 sum 3\n",
];

#[test]
fn turns_change_nothing_that_is_written(rt: HostRuntime) -> Result<(), Fail> {
    let files = contents(SEGMENTS, Some(NODES), Some(EDGES));
    for turns in ["0", "1", "2", "7", "18446744073709551615"] {
        let words = ["surge", "--script", "s", "--turns", turns];
        for call in 1..5 {
            let ends = Ends {
                write: Some(call),
                ..sure(4096)
            };
            let left = run(&rt, &words, &files, ends)?;
            assert_eq!(rt;
                left.out.len(),
                (call as usize - 1) * 47,
                "turns from {turns}, write {call}"
            );
            assert!(rt; TABLES.as_bytes().starts_with(left.out.as_slice()));
            assert!(rt; (left.status == Status::Done) == (call == 4));
        }
    }
    Ok(())
}

#[test]
fn each_line_of_a_summary_is_one_piece(rt: HostRuntime) -> Result<(), Fail> {
    for call in 1..5 {
        let ends = Ends {
            write: Some(call),
            ..sure(4096)
        };
        let words = ["surge", "--script", "s", "--mode", "summary"];
        let left = run(&rt, &words, &whole(), ends)?;
        let mut out = String::new(rt.alloc());
        for line in LINES.iter().take(call as usize - 1) {
            out.push_str(line)?;
        }
        assert_eq!(rt; left.out.as_slice(), out.as_bytes(), "at write {call}");
        assert!(rt; (left.status == Status::Done) == (call == 4));
    }
    Ok(())
}
