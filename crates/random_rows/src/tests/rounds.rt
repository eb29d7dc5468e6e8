//! Loops over pairs, computed round by round from all that was fed.

use super::bodies::{Body, Pairs};
use diff_iterate::LoopInput;
use flow_rows::{Draws, Reference};
use lattice_time::Round;
use std::alloc::Global;
use surge_outside::{List, NoMemory};
use weighted::{Batch, Weight};

/// A loop of three rounds. Each round applies the body so many times, one after the other.
#[derive(Drop)]
pub(super) struct Rounds {
    pub(super) body: Body,
    pub(super) times: u32,
}

/// A loop whose rounds apply the body once.
pub(super) fn once(body: Body) -> Rounds {
    Rounds { body, times: 1 }
}

impl Reference for Rounds {
    type Input = Pairs;

    type Output = (Round, (u32, u32));

    fn input(&self, draws: &mut Draws) -> Pairs {
        let pair = (draws.draw(3), draws.draw(4));
        if draws.draw(2) == 0 {
            LoopInput::Fixed(pair)
        } else {
            LoopInput::Moving(pair)
        }
    }

    fn output(
        &self,
        alloc: Global,
        fed: &Batch<Pairs>,
    ) -> Result<Batch<(Round, (u32, u32))>, NoMemory> {
        let mut made = List::new(alloc);
        let mut now = moving_of(alloc, fed)?;
        push_at(&mut made, 0, &now)?;
        for round in 1..4 {
            let next = applied(alloc, self, fed, &now)?;
            push_change(&mut made, round, &now, &next)?;
            now = next;
        }
        Batch::from_entries(made)
    }
}

// What one round makes of a collection.
fn applied(
    alloc: Global,
    rounds: &Rounds,
    fed: &Batch<Pairs>,
    now: &Batch<(u32, u32)>,
) -> Result<Batch<(u32, u32)>, NoMemory> {
    let mut next = rounds.body.output(alloc, &with_moving(alloc, fed, now)?)?;
    for _ in 1..rounds.times {
        next = rounds.body.output(alloc, &with_moving(alloc, fed, &next)?)?;
    }
    Ok(next)
}

// The moving part of what was fed.
fn moving_of(alloc: Global, fed: &Batch<Pairs>) -> Result<Batch<(u32, u32)>, NoMemory> {
    let mut made = List::new(alloc);
    for (record, weight) in fed.as_slice() {
        if let LoopInput::Moving(pair) = *record {
            made.push((pair, *weight))?;
        }
    }
    Batch::from_entries(made)
}

// The fixed part of what was fed, with another moving part.
fn with_moving(
    alloc: Global,
    fed: &Batch<Pairs>,
    now: &Batch<(u32, u32)>,
) -> Result<Batch<Pairs>, NoMemory> {
    let mut made = List::new(alloc);
    for (record, weight) in fed.as_slice() {
        if let LoopInput::Fixed(_) = *record {
            made.push((*record, *weight))?;
        }
    }
    push_moving(&mut made, now)?;
    Batch::from_entries(made)
}

// Adds a collection as a moving part.
fn push_moving(made: &mut List<(Pairs, Weight)>, now: &Batch<(u32, u32)>) -> Result<(), NoMemory> {
    for (record, weight) in now.as_slice() {
        made.push((LoopInput::Moving(*record), *weight))?;
    }
    Ok(())
}

// Adds a collection at a round.
fn push_at(
    made: &mut List<((Round, (u32, u32)), Weight)>,
    round: u32,
    batch: &Batch<(u32, u32)>,
) -> Result<(), NoMemory> {
    for (record, weight) in batch.as_slice() {
        made.push(((Round(round), *record), *weight))?;
    }
    Ok(())
}

// Adds a change from one collection to another at a round.
fn push_change(
    made: &mut List<((Round, (u32, u32)), Weight)>,
    round: u32,
    old: &Batch<(u32, u32)>,
    new: &Batch<(u32, u32)>,
) -> Result<(), NoMemory> {
    push_at(made, round, new)?;
    push_at(made, round, &old.negate()?)
}
