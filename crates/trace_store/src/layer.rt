//! One layer of a trace.

ghost use Rattle.std.specs.Prelude.{◌≡◌, ◌+◌, ◌<◌, ◌≤◌, ◌==◌, [], ◌∷◌, ◌++◌, length, drop, slice_get, IfOk};
ghost use Rattle.weighted.specs.Batches.{IsBatch};
ghost use Rattle.weighted.specs.Normal.{normal, trimmed};

use chunk_list::ChunkList;
use std::alloc::Global;
use std::cmp::Ordering;
use std::marker::Model;
use surge_outside::{NoMemory, Record};
use weighted::Weight;

/// Entries of a record and its weight: records strictly rise, no weight is zero. Contracts see the list of entries.
#[derive(Drop)]
pub struct Layer<R: Record> {
    entries: ChunkList<(R, Weight)>,
}

impl<R: Record> Model for Layer<R> {
    ghost use Rattle.std.specs.Prelude.{List, ℕ};
    ghost use Rattle.weighted.specs.Batches.{IsBatch};

    ghost Value = { List (R × ℕ) };

    ghost view = { λ l. l.entries.items };

    ghost invariant = { λ l. IsBatch R.cmp l.entries.items };
}

/// Adds an entry at the end unless its weight is zero.
fn push_unless_zero<R: Record>(entries: &mut ChunkList<(R, Weight)>, entry: (R, Weight))
    requires { 0 < entries.old.spare }
    ensures items { entries.new.items ≡ entries.old.items ++ trimmed (entry ∷ []) }
    ensures spare { entries.old.spare ≤ entries.new.spare + 1 }
{
    if !entry.1.is_zero() {
        entries.push(entry);
    }
}

/// Adds the entries of a layer from a place on.
fn push_rest<R: Record>(entries: &mut ChunkList<(R, Weight)>, layer: &Layer<R>, from: usize)
    requires from { from ≤ length layer.now }
    requires room { length (drop from layer.now) ≤ entries.old.spare }
    ensures items { entries.new.items ≡ entries.old.items ++ drop from layer.now }
    ensures spare { entries.new.spare + length (drop from layer.now) ≡ entries.old.spare }
{
    for i in from..layer.len() {
        entries.push(layer.get(i));
    }
}

/// Writes the sum of two layers into a list with no entry and with room for the entries of both, by one walk along both.
fn merge<R: Record>(entries: &mut ChunkList<(R, Weight)>, left: &Layer<R>, right: &Layer<R>)
    requires empty { entries.old.items ≡ [] }
    requires room { length left.now + length right.now ≤ entries.old.spare }
    requires left { IsBatch R.cmp left.now }
    requires right { IsBatch R.cmp right.now }
    ensures { entries.new.items ≡ normal R.cmp (left.now ++ right.now) }
{
    let mut i = 0;
    let mut j = 0;
    while i < left.len() && j < right.len() {
        let x = left.get(i);
        let y = right.get(j);
        match x.0.cmp(&y.0) {
            Ordering::Less => {
                entries.push(x);
                i += 1;
            }
            Ordering::Greater => {
                entries.push(y);
                j += 1;
            }
            Ordering::Equal => {
                push_unless_zero(entries, (x.0, x.1.add(y.1)));
                i += 1;
                j += 1;
            }
        }
    }
    push_rest(entries, left, i);
    push_rest(entries, right, j);
}

impl<R: Record> Layer<R> {
    /// The layer with no entry. It takes no memory.
    pub(crate) fn empty(alloc: Global) -> Layer<R>
        ensures { result ≡ [] }
    {
        Layer {
            entries: ChunkList::new(alloc),
        }
    }

    /// The layer of entries that are in normal form. It takes no memory.
    pub(crate) fn from_entries(entries: ChunkList<(R, Weight)>) -> Layer<R>
        requires { IsBatch R.cmp entries.items }
        ensures { result ≡ entries.items }
    {
        Layer { entries }
    }

    /// How many entries there are.
    pub(crate) fn len(&self) -> usize
        ensures value { result ≡ length self.now }
        ensures batch { IsBatch R.cmp self.now }
    {
        self.entries.len()
    }

    /// The entry at a place, from 0.
    pub(crate) fn get(&self, i: usize) -> (R, Weight)
        requires { i < length self.now }
        ensures { slice_get self.now i ≡ Some result }
    {
        self.entries.get(i)
    }

    /// The sum of two layers. It takes all its memory first, and time in proportion to their entries.
    ///
    /// Errors: out of memory.
    pub(crate) fn merged(&self, alloc: Global, other: &Layer<R>) -> Result<Layer<R>, NoMemory>
        ensures value { IfOk result (λ layer. layer ≡ normal R.cmp (self.now ++ other.now)) }
        ensures batch { IfOk result (λ layer. IsBatch R.cmp layer) }
    {
        let Some(room) = self.len().checked_add(other.len()) else {
            return Err(NoMemory);
        };
        let mut entries = ChunkList::new(alloc);
        entries.reserve(room)?;
        merge(&mut entries, self, other);
        Ok(Layer { entries })
    }
}
