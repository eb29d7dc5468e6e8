//! Joins at random times, against the same join computed pair by pair from all that was fed.

ghost use Rattle.std.specs.Prelude.{◌==◌, Some, None, if◌then◌else◌};

use super::runs::{Runs, steps_of, thirty_are_right};
use diff_join::{Join, Pairing};
use flow_core::{NoCalls, Side};
use flow_rows::{Draws, Grid, Reference};
use std::alloc::Global;
use std::test::Fail;
use surge_outside::{List, NoMemory};
use weighted::{Batch, Weight};

/// The input of a join: values of three keys on both sides.
pub(super) type Sides = Side<(u32, u32), (u32, u32)>;

/// Gives the sides' values of each key, but nothing where they are equal.
#[derive(Drop)]
pub(super) struct Unequal;

impl Pairing<u32, u32, u32> for Unequal {
    type Output = (u32, u32);

    ghost gives = { λ _ k a b. if a == b then None else Some (a, b) };

    fn pair(&self, key: u32, a: u32, b: u32) -> Option<(u32, u32)> {
        if a == b { None } else { Some((a, b)) }
    }
}

/// The join of both sides, computed pair by pair.
#[derive(Drop)]
pub(super) struct PairByPair;

// Adds what one entry of the left side gives with each of the right side.
fn push_products(
    into: &mut List<((u32, u32), Weight)>,
    left: ((u32, u32), Weight),
    fed: &Batch<Sides>,
) -> Result<(), NoMemory> {
    let ((key, a), weight) = left;
    for (record, other) in fed.as_slice() {
        match *record {
            Side::Right((k, b)) => {
                if k == key && a != b {
                    into.push(((a, b), weight.times(*other)))?;
                }
            }
            Side::Left(_) => {}
        }
    }
    Ok(())
}

impl Reference for PairByPair {
    type Input = Sides;

    type Output = (u32, u32);

    fn input(&self, draws: &mut Draws) -> Sides {
        let (key, value) = (draws.draw(3), draws.draw(4));
        if draws.draw(2) == 0 {
            Side::Left((key, value))
        } else {
            Side::Right((key, value))
        }
    }

    fn output(&self, alloc: Global, fed: &Batch<Sides>) -> Result<Batch<(u32, u32)>, NoMemory> {
        let mut products = List::new(alloc);
        for (record, weight) in fed.as_slice() {
            match *record {
                Side::Left(value) => push_products(&mut products, (value, *weight), fed)?,
                Side::Right(_) => {}
            }
        }
        Batch::from_entries(products)
    }
}

/// The join that is tested.
pub(super) type TestJoin<T> = Join<u32, u32, u32, Unequal, T, NoCalls>;

/// Runs of the join.
#[derive(Drop)]
struct Joins;

impl Runs for Joins {
    fn steps<T: Grid>(&self, alloc: Global, seed: u64) -> Result<Option<usize>, NoMemory> {
        let join: TestJoin<T> = Join::new(alloc, Unequal);
        steps_of(alloc, join, &PairByPair, seed)
    }
}

#[test]
fn joins_at_random_times(rt: HostRuntime) -> Result<(), Fail> {
    assert!(rt; thirty_are_right(rt.alloc(), &Joins)?);
    Ok(())
}
