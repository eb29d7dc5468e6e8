//! Reduces at random times, alone and behind a join, against the same computed key by key from all that was fed.

ghost use Rattle.std.specs.Prelude.{refl};
ghost use Rattle.flow_core.specs.Runs.{IsFresh};
ghost use Rattle.random_rows.specs.Logic.{least_and_count};

use super::joins::{PairByPair, Sides, TestJoin, Unequal};
use super::runs::{Runs, steps_of, thirty_are_right};
use diff_join::Join;
use diff_reduce::{KeyLogic, Reduce};
use flow_core::{Chain, NoCalls, Operator, Quiet};
use flow_rows::{Draws, Grid, Reference, run};
use lattice_time::Time;
use std::alloc::Global;
use std::test::Fail;
use surge_outside::{List, NoMemory};
use weighted::{Batch, Weight};

/// The least value of a key, as often as the key has values.
#[derive(Drop)]
struct LeastAndCount;

impl KeyLogic<NoCalls> for LeastAndCount {
    type Key = u32;

    type Value = u32;

    type Output = (u32, u64);

    ghost gives = { λ _ k words. least_and_count words };

    ghost nothing = { λ _ _. refl };

    fn eval(
        &self,
        key: u32,
        words: &[(u32, Weight)],
        into: &mut List<((u32, u64), Weight)>,
        updater: &mut NoCalls,
    ) -> Result<(), NoMemory> {
        if let Some((value, weight)) = words.first() {
            into.push(((*value, weight.0), Weight(words.len() as u64)))?;
        }
        Ok(())
    }
}

/// The same of each key, computed from all that was fed.
#[derive(Drop)]
pub(super) struct KeyByKey;

// The least entry of a key, and how many entries it has.
fn entries_of(fed: &Batch<(u32, u32)>, key: u32) -> (Option<(u32, Weight)>, u64) {
    let mut least = None;
    let mut count = 0u64;
    for ((k, value), weight) in fed.as_slice() {
        if *k == key {
            if least.is_none() {
                least = Some((*value, *weight));
            }
            count = count.wrapping_add(1);
        }
    }
    (least, count)
}

// What is made of the keys 0 to 3.
fn by_key(alloc: Global, fed: &Batch<(u32, u32)>) -> Result<Batch<(u32, (u32, u64))>, NoMemory> {
    let mut made = List::new(alloc);
    for key in 0..4 {
        if let (Some((value, weight)), count) = entries_of(fed, key) {
            made.push(((key, (value, weight.0)), Weight(count)))?;
        }
    }
    Batch::from_entries(made)
}

impl Reference for KeyByKey {
    type Input = (u32, u32);

    type Output = (u32, (u32, u64));

    fn input(&self, draws: &mut Draws) -> (u32, u32) {
        (draws.draw(3), draws.draw(4))
    }

    fn output(
        &self,
        alloc: Global,
        fed: &Batch<(u32, u32)>,
    ) -> Result<Batch<(u32, (u32, u64))>, NoMemory> {
        by_key(alloc, fed)
    }
}

/// A join and then a reduce of what it made.
#[derive(Drop)]
struct Both;

impl Reference for Both {
    type Input = Sides;

    type Output = (u32, (u32, u64));

    fn input(&self, draws: &mut Draws) -> Sides {
        PairByPair.input(draws)
    }

    fn output(
        &self,
        alloc: Global,
        fed: &Batch<Sides>,
    ) -> Result<Batch<(u32, (u32, u64))>, NoMemory> {
        by_key(alloc, &PairByPair.output(alloc, fed)?)
    }
}

/// The reduce that is tested.
type TestReduce<T> = Reduce<LeastAndCount, T, NoCalls>;

/// An operator that tells how many keys it evaluated.
trait Counting {
    fn evaluated(&self) -> u64;
}

impl<T: Time> Counting for TestReduce<T> {
    fn evaluated(&self) -> u64 {
        self.evaluations()
    }
}

impl<T: Time> Counting for Quiet<TestReduce<T>> {
    fn evaluated(&self) -> u64 {
        self.inner().evaluations()
    }
}

// How many steps a new reduce takes from a seed, and how many keys it evaluates, or None where something that it made is
// wrong.
fn counted<
    T: Grid,
    O: Operator<T, NoCalls, Input = (u32, u32), Output = (u32, (u32, u64))> + Counting + Drop,
>(alloc: Global, operator: O, seed: u64) -> Result<Option<(usize, u64)>, NoMemory>
    requires { IsFresh O.stands O.due O.seal O.spent T.least operator }
{
    let mut operator = operator;
    let Some(steps) = run(alloc, &mut operator, &KeyByKey, seed, &mut NoCalls)? else {
        return Ok(None);
    };
    Ok(Some((steps, operator.evaluated())))
}

// The same of one that is made quiet.
fn counted_quietly<T: Grid>(alloc: Global, seed: u64) -> Result<Option<(usize, u64)>, NoMemory> {
    let reduce: TestReduce<T> = Reduce::new(alloc, LeastAndCount);
    counted(alloc, Quiet::new::<T, NoCalls>(reduce), seed)
}

/// Runs of reduces, and of those that are made quiet, which take as many steps and evaluate as many keys.
#[derive(Drop)]
struct Reduces;

impl Runs for Reduces {
    fn steps<T: Grid>(&self, alloc: Global, seed: u64) -> Result<Option<usize>, NoMemory> {
        let reduce: TestReduce<T> = Reduce::new(alloc, LeastAndCount);
        let Some(counts) = counted(alloc, reduce, seed)? else {
            return Ok(None);
        };
        if counted_quietly::<T>(alloc, seed)? == Some(counts) {
            Ok(Some(counts.0))
        } else {
            Ok(None)
        }
    }
}

/// Runs of reduces behind joins.
#[derive(Drop)]
struct JoinedReduces;

impl Runs for JoinedReduces {
    fn steps<T: Grid>(&self, alloc: Global, seed: u64) -> Result<Option<usize>, NoMemory> {
        let join: TestJoin<T> = Join::new(alloc, Unequal);
        let reduce: TestReduce<T> = Reduce::new(alloc, LeastAndCount);
        steps_of(alloc, Chain::new(join, reduce), &Both, seed)
    }
}

#[test]
fn reduces_and_quiet_ones_at_random_times(rt: HostRuntime) -> Result<(), Fail> {
    assert!(rt; thirty_are_right(rt.alloc(), &Reduces)?);
    Ok(())
}

#[test]
fn a_join_and_then_a_reduce_at_random_times(rt: HostRuntime) -> Result<(), Fail> {
    assert!(rt; thirty_are_right(rt.alloc(), &JoinedReduces)?);
    Ok(())
}
