//! Worked examples of joins.

ghost use Rattle.std.specs.Prelude.{◌==◌, if◌then◌else◌, Some, None};

use crate::tests::inputs::{MINUS_ONE, Nested, at, batch, has};
use crate::tests::steps::{apart, first_step, in_turn, settle};
use diff_join::{Join, Pairing};
use flow_core::{NoCalls, Side};
use lattice_time::{Pair, Position, Round, Time};
use std::alloc::Global;
use std::test::Fail;
use surge_outside::NoMemory;
use weighted::{Batch, Weight};

/// Both values.
#[derive(Drop)]
struct Both;

impl Pairing<u32, u32, u32> for Both {
    type Output = (u32, u32);

    ghost gives = { λ _ _ a b. Some (a, b) };

    fn pair(&self, key: u32, a: u32, b: u32) -> Option<(u32, u32)> {
        Some((a, b))
    }
}

/// The key, where both values are equal.
#[derive(Drop)]
struct Level;

impl Pairing<u32, u32, u32> for Level {
    type Output = u32;

    ghost gives = { λ _ key a b. if a == b then Some key else None };

    fn pair(&self, key: u32, a: u32, b: u32) -> Option<u32> {
        if a == b { Some(key) } else { None }
    }
}

/// A key with a value on one of two sides.
type Row = Side<(u32, u32), (u32, u32)>;

/// The join of both values, at its first step.
fn paired<T: Time>(alloc: Global, t: T, delta: &Batch<Row>) -> Result<Batch<(u32, u32)>, NoMemory> {
    let mut join: Join<u32, u32, u32, Both, T, NoCalls> = Join::new(alloc, Both);
    first_step(&mut join, t, delta, &mut NoCalls)
}

/// Whether rows of both sides meet in one step.
fn meets<T: Time>(alloc: Global, t: T) -> Result<bool, NoMemory> {
    let rows = [
        (Side::Left((1, 7)), Weight(2)),
        (Side::Left((2, 5)), Weight(1)),
        (Side::Right((1, 9)), MINUS_ONE),
        (Side::Right((3, 5)), Weight(1)),
    ];
    let made = paired(alloc, t, &batch(alloc, &rows)?)?;
    Ok(has(&made, &[((7, 9), Weight(u64::MAX - 1))]))
}

#[test]
fn both_sides_of_one_step_meet(rt: HostRuntime) -> Result<(), Fail> {
    assert!(rt; meets(rt.alloc(), Position(0))?);
    assert!(rt; meets(rt.alloc(), at(2, 3))?);
    Ok(())
}

/// The join of the keys of equal values, at its first step.
fn levels(alloc: Global, delta: &Batch<Row>) -> Result<Batch<u32>, NoMemory> {
    let mut join: Join<u32, u32, u32, Level, Position, NoCalls> = Join::new(alloc, Level);
    first_step(&mut join, Position(1), delta, &mut NoCalls)
}

#[test]
fn a_pairing_may_give_nothing(rt: HostRuntime) -> Result<(), Fail> {
    let rows = [
        (Side::Left((1, 7)), Weight(1)),
        (Side::Left((2, 8)), Weight(3)),
        (Side::Right((1, 9)), Weight(1)),
        (Side::Right((2, 8)), Weight(2)),
    ];
    let made = levels(rt.alloc(), &batch(rt.alloc(), &rows)?)?;
    assert!(rt; has(&made, &[(2, Weight(6))]));
    Ok(())
}

/// A left row at (0, 1), a right row of the same key at (1, 0), and what is due then.
fn at_apart_times(alloc: Global) -> Result<(bool, Option<(Nested, Batch<(u32, u32)>)>), NoMemory> {
    let mut join: Join<u32, u32, u32, Both, Nested, NoCalls> = Join::new(alloc, Both);
    let left = batch(alloc, &[(Side::Left((1, 7)), Weight(1))])?;
    let right = batch(alloc, &[(Side::Right((1, 9)), Weight(1))])?;
    let first = Pair {
        outer: Position(0),
        inner: Round(1),
    };
    let second = Pair {
        outer: Position(1),
        inner: Round(0),
    };
    let made = apart(&mut join, first, &left, second, &right, &mut NoCalls)?;
    let empty = match made {
        Some((early, late)) => early.is_empty() && late.is_empty(),
        None => false,
    };
    let last = settle(&mut join, &Batch::empty(alloc), &mut NoCalls)?;
    Ok((empty, last))
}

#[test]
fn a_product_is_due_at_the_least_upper_bound(rt: HostRuntime) -> Result<(), Fail> {
    let (empty, last) = at_apart_times(rt.alloc())?;
    assert!(rt; empty);
    match last {
        Some((due, made)) => {
            assert!(rt; due == at(1, 1));
            assert!(rt; has(&made, &[((7, 9), Weight(1))]));
        }
        None => assert!(rt; false, "a product waits for its time"),
    }
    Ok(())
}

/// A left row, and after a seal a right row of the same key.
fn sealed_between(alloc: Global) -> Result<Option<Batch<(u32, u32)>>, NoMemory> {
    let mut join: Join<u32, u32, u32, Both, Position, NoCalls> = Join::new(alloc, Both);
    let left = batch(alloc, &[(Side::Left((1, 7)), Weight(1))])?;
    let right = batch(alloc, &[(Side::Right((1, 9)), MINUS_ONE)])?;
    let made = in_turn(
        &mut join,
        Position(1),
        &left,
        Position(2),
        &right,
        &mut NoCalls,
    )?;
    match made {
        Some((_, late)) => Ok(Some(late)),
        None => Ok(None),
    }
}

#[test]
fn a_seal_keeps_what_was_fed(rt: HostRuntime) -> Result<(), Fail> {
    match sealed_between(rt.alloc())? {
        Some(late) => assert!(rt; has(&late, &[((7, 9), MINUS_ONE)])),
        None => assert!(rt; false, "nothing is due after the first step"),
    }
    Ok(())
}
