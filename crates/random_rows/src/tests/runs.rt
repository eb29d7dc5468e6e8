//! Runs from one seed after the other, at each kind of time.

ghost use Rattle.flow_core.specs.Runs.{IsFresh};

use flow_core::{NoCalls, Operator};
use flow_rows::{Grid, Reference, run};
use lattice_time::{Pair, Position, Round, Version};
use std::alloc::Global;
use surge_outside::NoMemory;

/// Pairs, and pairs in pairs.
type Place = Pair<Version, Position>;

type Deep = Pair<Place, Round>;

/// A kind of operator that is run at random times.
pub(super) trait Runs {
    /// How many steps a run of a new one takes from a seed, or None where something that it made is wrong.
    fn steps<T: Grid>(&self, alloc: Global, seed: u64) -> Result<Option<usize>, NoMemory>;
}

/// How many steps a run of this new operator takes from a seed, or None where something that it made is wrong.
pub(super) fn steps_of<
    T: Grid,
    O: Operator<T, NoCalls> + Drop,
    E: Reference<Input = O::Input, Output = O::Output>,
>(alloc: Global, operator: O, reference: &E, seed: u64) -> Result<Option<usize>, NoMemory>
    requires { IsFresh O.stands O.due O.seal O.spent T.least operator }
{
    let mut operator = operator;
    run(alloc, &mut operator, reference, seed, &mut NoCalls)
}

// Whether the runs from the first seeds are right at times of a kind, and take so many steps at least, each and all.
fn are_right<T: Grid, R: Runs>(
    alloc: Global,
    runs: &R,
    seeds: u64,
    each: usize,
    all: usize,
) -> Result<bool, NoMemory> {
    let mut total = 0usize;
    for seed in 0..seeds {
        let Some(steps) = runs.steps::<T>(alloc, seed)? else {
            return Ok(false);
        };
        if steps < each {
            return Ok(false);
        }
        total = total.wrapping_add(steps);
    }
    Ok(total >= all)
}

/// Whether thirty runs are right at each kind of time: with more than 30 steps at versions, and more than 100 at pairs.
pub(super) fn thirty_are_right<R: Runs>(alloc: Global, runs: &R) -> Result<bool, NoMemory> {
    let at_versions = are_right::<Version, R>(alloc, runs, 30, 0, 31)?;
    let at_places = are_right::<Place, R>(alloc, runs, 30, 0, 101)?;
    let at_deep = are_right::<Deep, R>(alloc, runs, 30, 0, 101)?;
    Ok(at_versions && at_places && at_deep)
}

/// Whether a few runs are right at each kind of time, with more than one step each: four at versions and at pairs, and
/// this many at pairs in pairs.
pub(super) fn some_are_right<R: Runs>(
    alloc: Global,
    runs: &R,
    deep: u64,
) -> Result<bool, NoMemory> {
    let at_versions = are_right::<Version, R>(alloc, runs, 4, 2, 0)?;
    let at_places = are_right::<Place, R>(alloc, runs, 4, 2, 0)?;
    let at_deep = are_right::<Deep, R>(alloc, runs, deep, 2, 0)?;
    Ok(at_versions && at_places && at_deep)
}
