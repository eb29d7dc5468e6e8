//! Another updater: what is printed is what it answers.

ghost use Rattle.std.specs.Prelude.{◌≡◌, ◌<◌};

use super::{sure, whole};
use crate::{Starter, run_memory};
use std::marker::Brand;
use std::sync::ledger::{Blank, Ledger};
use std::test::Fail;
use surge_cli::Status;

// Each view is settled at once, with the start values.
const STARTS: &str =
    "view C.a hops(1) settled 0\n1,0\n2,-\n3,-\n4,-\nend\nview C.b hops(1) settled 0\n1,0\n2,-\n3,-\n4,-\nend\nview C.c hops(1) settled 0\n1,0\n2,-\n3,-\n4,-\nend\n";

// Whether the start values are printed where the updater answers them.
fn prints_starts<L: Ledger>(rt: &HostRuntime, blank: Blank) -> Result<bool, Fail>
    requires name { blank.name ≡ L.name }
    requires parts { blank.parts ≡ L.parts }
    requires some { 0 < L.parts }
{
    let mut starter = Starter::<L>::new(blank);
    let words = ["surge", "--script", "s"];
    let left = run_memory(rt.alloc(), &words, &whole(), sure(4096), &mut starter)?;
    Ok(left.status == Status::Done && left.out.as_slice() == STARTS.as_bytes())
}

#[test]
fn tables_are_what_the_updater_answers(rt: HostRuntime) -> Result<(), Fail> {
    assert!(rt; prints_starts::<Brand>(&rt, Blank::new(1))?);
    Ok(())
}
