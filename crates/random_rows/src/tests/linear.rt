//! The operators that keep nothing at random times, in one dataflow, against the same computed record by record.

ghost use Rattle.std.specs.Prelude.{◌+◌, ◌%◌, ◌^◌, ◌==◌, ◌∷◌, [], not};

use super::runs::{Runs, steps_of, thirty_are_right};
use flow_core::{Chain, Concat, Each, Expand, Filter, FlatMap, Fork, Keep, Map, NoCalls, Quiet};
use flow_rows::{Draws, Grid, Reference};
use std::alloc::Global;
use std::test::Fail;
use surge_outside::{List, NoMemory};
use weighted::{Batch, Weight};

/// The next number.
#[derive(Drop)]
struct Next;

impl Each<u32, u32> for Next {
    ghost gives = { λ _ a. (a + 1) % 2 ^ 32 };

    fn apply(&self, a: u32) -> u32 {
        a.wrapping_add(1)
    }
}

/// Whether a number is not 2.
#[derive(Drop)]
struct NotTwo;

impl Keep<u32> for NotTwo {
    ghost keeps = { λ _ a. not (a == 2) };

    fn keep(&self, a: &u32) -> bool {
        *a != 2
    }
}

/// A number and the next one.
#[derive(Drop)]
struct WithNext;

impl Expand<u32, u32> for WithNext {
    ghost gives = { λ _ a. a ∷ (a + 1) % 2 ^ 32 ∷ [] };

    fn expand(&self, a: u32, into: &mut List<u32>) -> Result<(), NoMemory> {
        into.push(a)?;
        into.push(a.wrapping_add(1))
    }
}

/// Of a number and the next one, those that are not 2, and the number after each.
#[derive(Drop)]
struct RecordByRecord;

// Adds a number where it is not 2, and the next one.
fn push_both(into: &mut List<(u32, Weight)>, number: u32, weight: Weight) -> Result<(), NoMemory> {
    if number != 2 {
        into.push((number, weight))?;
    }
    into.push((number.wrapping_add(1), weight))
}

impl Reference for RecordByRecord {
    type Input = u32;

    type Output = u32;

    fn input(&self, draws: &mut Draws) -> u32 {
        draws.draw(4)
    }

    fn output(&self, alloc: Global, fed: &Batch<u32>) -> Result<Batch<u32>, NoMemory> {
        let mut made = List::new(alloc);
        for (number, weight) in fed.as_slice() {
            push_both(&mut made, *number, *weight)?;
            push_both(&mut made, number.wrapping_add(1), *weight)?;
        }
        Batch::from_entries(made)
    }
}

/// Runs of the operators in one dataflow.
#[derive(Drop)]
struct Linear;

impl Runs for Linear {
    fn steps<T: Grid>(&self, alloc: Global, seed: u64) -> Result<Option<usize>, NoMemory> {
        let with_next: FlatMap<WithNext, u32, u32, T, NoCalls> = FlatMap::new(alloc, WithNext);
        let next: Map<Next, u32, u32, T, NoCalls> = Map::new(alloc, Next);
        let not_two: Filter<NotTwo, u32, T, NoCalls> = Filter::new(alloc, NotTwo);
        let both = Fork::new(alloc, next, Quiet::new::<T, NoCalls>(not_two));
        let sum: Concat<u32, T, NoCalls> = Concat::new(alloc);
        let flow = Chain::new(with_next, Chain::new(both, sum));
        steps_of(alloc, flow, &RecordByRecord, seed)
    }
}

#[test]
fn linear_operators_at_random_times(rt: HostRuntime) -> Result<(), Fail> {
    assert!(rt; thirty_are_right(rt.alloc(), &Linear)?);
    Ok(())
}
