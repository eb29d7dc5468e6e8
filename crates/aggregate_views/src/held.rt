//! A sum of batches that come one after another.

ghost use Rattle.std.specs.Prelude.{◌≡◌, ◌≤◌, [], ◌++◌, length, IfOk, OnOk};
ghost use Rattle.weighted.specs.Alike.{Alike};
ghost use Rattle.weighted.specs.Batches.{IsBatch};

use std::alloc::Global;
use std::marker::Model;
use surge_outside::{NoMemory, Record};
use weighted::Batch;

/// A sum of batches, kept in layers, each at least twice as long as the next newer one: so over many batches each entry
/// costs the logarithm of the number of all. Contracts see the entries of all layers.
#[derive(Drop)]
pub(crate) struct Held<R: Record> {
    alloc: Global,
    layers: Vec<Batch<R>>,
}

impl<R: Record> Model for Held<R> {
    ghost use Rattle.std.specs.Prelude.{ℕ, List};
    ghost use Rattle.weighted.specs.Batches.{joined};

    ghost Value = { List (R × ℕ) };

    ghost view = { λ h. joined h.layers.items };
}

/// How many of the oldest layers stay as they are when a batch of `len` entries comes: as many as that what the others and
/// the batch come to is at most half of the last one that stays.
fn stay<R: Record>(layers: &[Batch<R>], len: usize) -> usize
    ensures { result ≤ length layers.now }
{
    let mut stay = layers.len();
    let mut sum = len;
    while stay > 0 {
        let last = layers[stay - 1].len();
        if sum <= last / 2 {
            return stay;
        }
        stay -= 1;
        sum = sum.saturating_add(last);
    }
    stay
}

/// The sum of two batches. Where the first has no entry it is the second, and costs nothing.
///
/// Errors: out of memory.
fn sum_of<R: Record>(first: Batch<R>, second: Batch<R>) -> Result<Batch<R>, NoMemory>
    ensures { IfOk result (λ sum. Alike sum (first ++ second)) }
{
    if first.is_empty() {
        return Ok(second);
    }
    Ok(first.add(&second)?)
}

impl<R: Record> Held<R> {
    /// The sum of no batch. It takes no memory.
    pub(crate) fn new(alloc: Global) -> Held<R>
        ensures { result ≡ [] }
    {
        Held {
            alloc,
            layers: Vec::new(alloc),
        }
    }

    /// How many entries all layers have.
    pub(crate) fn len(&self) -> usize {
        let mut len = 0usize;
        for layer in self.layers.as_slice() {
            len = len.saturating_add(layer.len());
        }
        len
    }

    /// Adds a batch.
    ///
    /// Errors: out of memory.
    pub(crate) fn add(&mut self, more: Batch<R>) -> Result<(), NoMemory>
        ensures { OnOk result (Alike self.new (self.old ++ more)) }
    {
        if more.is_empty() {
            return Ok(());
        }
        let kept = stay(self.layers.as_slice(), more.len());
        let others = Batch::merge(self.alloc, &self.layers[kept..])?;
        let newest = sum_of(others, more)?;
        self.layers.truncate(kept);
        self.layers.push(newest)?;
        Ok(())
    }

    /// The sum in normal form.
    ///
    /// Errors: out of memory.
    pub(crate) fn sum(&self) -> Result<Batch<R>, NoMemory>
        ensures alike { IfOk result (λ batch. Alike batch self.now) }
        ensures batch { IfOk result (λ batch. IsBatch R.cmp batch) }
    {
        Batch::merge(self.alloc, self.layers.as_slice())
    }
}
