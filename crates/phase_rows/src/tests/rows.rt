//! Rows that were worked out by hand.

ghost use Rattle.std.specs.Prelude.{◌≤◌};

use crate::tests::programs::Choice;
use crate::tests::runs::{Course, Rule, run};
use edge_predicates::Cmp;
use std::alloc::Global;
use std::test::Fail;

pub(crate) const TWO: &[u8] = b"id\n1\n2\n";

/// Two edges from 1 to 2.
pub(crate) const SIDE_BY_SIDE: &[u8] = b"src,dst,k:int\n1,2,1\n1,2,2\n";

// Whether a run on views of two nodes gives this text.
fn gives(
    alloc: Global,
    edges: &[u8],
    views: &[Rule],
    choice: Choice,
    rounds: u32,
    phases: u32,
    want: &str,
) -> Result<bool, Fail>
    requires rounds { 1 ≤ rounds }
    requires limit { rounds ≤ 1_000_000 }
    requires phases { 1 ≤ phases }
    requires few { phases ≤ 1_000 }
{
    let course = Course {
        choice,
        rounds,
        phases,
    };
    match run(alloc, TWO, edges, views, course)? {
        Some(text) => Ok(text.as_str() == want),
        None => Ok(false),
    }
}

/// The first edge, and both.
pub(crate) const ONE_AND_TWO: &[Rule] = &[(Cmp::Eq, 1), (Cmp::Ge, 1)];

#[test]
fn the_second_phase_begins_with_the_values_of_the_first(rt: HostRuntime) -> Result<(), Fail> {
    let text = "Phases(2) 1 3; Phases(2) 1 5; 16";
    assert!(rt;
        gives(
            rt.alloc(),
            SIDE_BY_SIDE,
            ONE_AND_TWO,
            Choice::Grow,
            2,
            2,
            text
        )?
    );
    let text = "Phases(1) 1 2; Phases(1) 1 3; 8";
    assert!(rt;
        gives(
            rt.alloc(),
            SIDE_BY_SIDE,
            ONE_AND_TWO,
            Choice::Grow,
            2,
            1,
            text
        )?
    );
    // A phase goes no further than the round that changes nothing.
    let text = "Phases(5) 1 6; Phases(5) 1 11; 40";
    assert!(rt;
        gives(
            rt.alloc(),
            SIDE_BY_SIDE,
            ONE_AND_TWO,
            Choice::Grow,
            1_000_000,
            5,
            text
        )?
    );
    Ok(())
}

#[test]
fn a_phase_of_one_round_that_changes_something(rt: HostRuntime) -> Result<(), Fail> {
    let text = "Unsettled; Unsettled; 4";
    assert!(rt;
        gives(
            rt.alloc(),
            SIDE_BY_SIDE,
            ONE_AND_TWO,
            Choice::Grow,
            1,
            2,
            text
        )?
    );
    Ok(())
}

#[test]
fn distances_that_fall_for_ever(rt: HostRuntime) -> Result<(), Fail> {
    let edges = b"src,dst,w:int\n1,2,-1\n2,1,0\n";
    assert!(rt;
        gives(
            rt.alloc(),
            edges,
            &[(Cmp::Le, 0)],
            Choice::Distances,
            100,
            2,
            "Unsettled; 200"
        )?
    );
    Ok(())
}

// No update is computed on the second view, which has the edges of the first; nor does the third share the run of the first.
#[test]
fn views_that_are_alike(rt: HostRuntime) -> Result<(), Fail> {
    let views = &[(Cmp::Eq, 1), (Cmp::Lt, 2), (Cmp::Ge, 1), (Cmp::Le, 1)];
    let text = "Phases(2) 1 3; Phases(2) 1 3; Phases(2) 1 5; Phases(2) 1 3; 24";
    assert!(rt; gives(rt.alloc(), SIDE_BY_SIDE, views, Choice::Grow, 2, 2, text)?);
    let text = "Unsettled; Unsettled; Unsettled; Unsettled; 6";
    assert!(rt; gives(rt.alloc(), SIDE_BY_SIDE, views, Choice::Grow, 1, 2, text)?);
    Ok(())
}

// The first round of the first phase changes nothing, so the phase ends where it began, and so would each later one.
#[test]
fn phases_that_move_nothing(rt: HostRuntime) -> Result<(), Fail> {
    let none = &[(Cmp::Gt, 2)];
    assert!(rt;
        gives(
            rt.alloc(),
            SIDE_BY_SIDE,
            none,
            Choice::Grow,
            2,
            3,
            "Phases(3) 1 1; 2"
        )?
    );
    // The second phase of a hop count does so.
    assert!(rt;
        gives(
            rt.alloc(),
            SIDE_BY_SIDE,
            ONE_AND_TWO,
            Choice::Hops,
            2,
            1_000,
            "Phases(1000) 0 1; Phases(1000) 0 1; 12"
        )?
    );
    Ok(())
}

// The node 2 begins with 1, 2 and 3. In the third phase each round adds to its value.
#[test]
fn the_third_phase_goes_on(rt: HostRuntime) -> Result<(), Fail> {
    let one = &[(Cmp::Eq, 1)];
    assert!(rt;
        gives(
            rt.alloc(),
            SIDE_BY_SIDE,
            one,
            Choice::GrowAtFirst,
            2,
            2,
            "Phases(2) 1 3; 8"
        )?
    );
    assert!(rt;
        gives(
            rt.alloc(),
            SIDE_BY_SIDE,
            one,
            Choice::GrowAtFirst,
            2,
            3,
            "Unsettled; 12"
        )?
    );
    assert!(rt;
        gives(
            rt.alloc(),
            SIDE_BY_SIDE,
            one,
            Choice::GrowAtFirst,
            2,
            4,
            "Unsettled; 12"
        )?
    );
    Ok(())
}

// There is no view, or no edge.
#[test]
fn nothing_to_run_on(rt: HostRuntime) -> Result<(), Fail> {
    assert!(rt; gives(rt.alloc(), SIDE_BY_SIDE, &[], Choice::Grow, 2, 2, "0")?);
    assert!(rt;
        gives(
            rt.alloc(),
            b"src,dst,k:int\n",
            ONE_AND_TWO,
            Choice::Grow,
            2,
            2,
            "Phases(2) 1 1; Phases(2) 1 1; 2"
        )?
    );
    Ok(())
}
