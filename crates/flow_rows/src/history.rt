//! What an operator was fed and made, and what it should have made.

ghost use Rattle.std.specs.Prelude.{◌<◌, ◌%◌};

use lattice_time::Time;
use std::alloc::Global;
use surge_outside::{List, NoMemory, Record};
use weighted::{Batch, Weight};

/// A record with its weight, at a time.
pub type Timed<T, R> = (T, (R, Weight));

/// Numbers drawn one after the other (Knuth's linear congruential generator).
#[derive(Drop)]
pub struct Draws {
    pub state: u64,
}

impl Draws {
    /// The next number, below a bound.
    pub fn draw(&mut self, below: u32) -> u32
        requires { 0 < below }
        ensures { result < below }
    {
        let state = self.state.wrapping_mul(6_364_136_223_846_793_005);
        self.state = state.wrapping_add(1_442_695_040_888_963_407);
        ((self.state >> 33) as u32) % below
    }

    /// A number below five, the small ones more often.
    pub fn early(&mut self) -> u32 {
        self.draw(5).min(self.draw(5)).min(self.draw(5))
    }
}

/// What is drawn as the input of an operator, and its function, computed anew from all that was fed.
pub trait Reference {
    type Input: Record;

    type Output: Record;

    fn input(&self, draws: &mut Draws) -> Self::Input;

    fn output(
        &self,
        alloc: Global,
        fed: &Batch<Self::Input>,
    ) -> Result<Batch<Self::Output>, NoMemory>;
}

/// A batch of up to four records, each taken away or added once or twice.
pub fn drawn<E: Reference>(
    alloc: Global,
    reference: &E,
    draws: &mut Draws,
) -> Result<Batch<E::Input>, NoMemory> {
    let mut entries = List::new(alloc);
    for _ in 0..draws.draw(5) {
        let record = reference.input(draws);
        let weight = Weight((draws.draw(4) as u64).wrapping_sub(1));
        entries.push((record, weight))?;
    }
    Batch::from_entries(entries)
}

/// Adds the entries of a batch, at a time.
pub fn note<T: Time, R: Record>(
    entries: &mut List<Timed<T, R>>,
    batch: &Batch<R>,
    t: T,
) -> Result<(), NoMemory> {
    for entry in batch.as_slice() {
        entries.push((t, *entry))?;
    }
    Ok(())
}

/// The sum of the entries at or below a time.
pub fn sum_to<T: Time, R: Record>(
    alloc: Global,
    entries: &List<Timed<T, R>>,
    t: T,
) -> Result<Batch<R>, NoMemory> {
    let mut sum = List::new(alloc);
    for (s, entry) in entries.as_slice() {
        if s.leq(&t) {
            sum.push(*entry)?;
        }
    }
    Batch::from_entries(sum)
}

/// Whether both batches have the same entries.
pub fn same<R: Record>(first: &Batch<R>, second: &Batch<R>) -> bool {
    if first.len() != second.len() {
        return false;
    }
    for i in 0..first.len() {
        let (record, weight) = first.entry(i);
        let (other, other_weight) = second.entry(i);
        if record.cmp(&other).is_ne() || weight.0 != other_weight.0 {
            return false;
        }
    }
    true
}
