//! Grids of times.

use crate::history::Draws;
use lattice_time::{Pair, Position, Round, Time, Version};
use std::alloc::Global;
use surge_outside::{List, NoMemory};

/// Times whose numbers are small.
pub trait Grid: Time {
    /// Each time whose numbers are up to 5.
    fn all(alloc: Global) -> Result<List<Self>, NoMemory>;

    /// A time whose numbers are below 5, the small ones more often.
    fn drawn(draws: &mut Draws) -> Self;
}

impl Grid for Version {
    fn all(alloc: Global) -> Result<List<Version>, NoMemory> {
        let mut times = List::new(alloc);
        for i in 0..6 {
            times.push(Version(i))?;
        }
        Ok(times)
    }

    fn drawn(draws: &mut Draws) -> Version {
        Version(draws.early())
    }
}

impl Grid for Position {
    fn all(alloc: Global) -> Result<List<Position>, NoMemory> {
        let mut times = List::new(alloc);
        for i in 0..6 {
            times.push(Position(i))?;
        }
        Ok(times)
    }

    fn drawn(draws: &mut Draws) -> Position {
        Position(draws.early())
    }
}

impl Grid for Round {
    fn all(alloc: Global) -> Result<List<Round>, NoMemory> {
        let mut times = List::new(alloc);
        for i in 0..6 {
            times.push(Round(i))?;
        }
        Ok(times)
    }

    fn drawn(draws: &mut Draws) -> Round {
        Round(draws.early())
    }
}

// Adds the pairs of an outer time with each of some inner ones.
fn push_pairs<A: Time, B: Time>(
    times: &mut List<Pair<A, B>>,
    outer: A,
    inners: &[B],
) -> Result<(), NoMemory> {
    for inner in inners {
        times.push(Pair {
            outer,
            inner: *inner,
        })?;
    }
    Ok(())
}

impl<A: Grid, B: Grid> Grid for Pair<A, B> {
    fn all(alloc: Global) -> Result<List<Pair<A, B>>, NoMemory> {
        let mut times = List::new(alloc);
        let inners = B::all(alloc)?;
        let outers = A::all(alloc)?;
        for outer in outers.as_slice() {
            push_pairs(&mut times, *outer, inners.as_slice())?;
        }
        Ok(times)
    }

    fn drawn(draws: &mut Draws) -> Pair<A, B> {
        let outer = A::drawn(draws);
        let inner = B::drawn(draws);
        Pair { outer, inner }
    }
}
