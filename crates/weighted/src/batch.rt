//! Collections in normal form.

ghost use Rattle.std.specs.Prelude.{◌≡◌, ◌≢◌, ◌<◌, ◌==◌, [], ◌++◌, length, slice_get, IfOk};
ghost use Rattle.std.specs.List.Sorted.{IsSortedByKey};
ghost use Rattle.weighted.specs.Alike.{Alike, negated};
ghost use Rattle.weighted.specs.Batches.{IsBatch, joined};
ghost use Rattle.weighted.specs.Normal.{normal};

use crate::consolidate::consolidate;
use crate::gather::gather;
use crate::join::join;
use crate::weight::Weight;
use std::alloc::Global;
use std::marker::Model;
use surge_outside::{List, NoMemory, Record};

/// A collection in normal form: entries of a record and its weight, records strictly rising in their order, no weight
/// zero. Contracts see the list of entries.
#[derive(Drop)]
pub struct Batch<R: Record> {
    entries: Vec<(R, Weight)>,
}

impl<R: Record> Model for Batch<R> {
    ghost use Rattle.std.specs.Prelude.{List, ℕ};
    ghost use Rattle.weighted.specs.Batches.{IsBatch};

    ghost Value = { List (R × ℕ) };

    ghost view = { λ b. b.entries.items };

    ghost invariant = { λ b. IsBatch R.cmp b.entries.items };
}

impl<R: Record> Batch<R> {
    /// The batch with no entry. It takes no memory.
    pub fn empty(alloc: Global) -> Batch<R>
        ensures { result ≡ [] }
    {
        Batch {
            entries: Vec::new(alloc),
        }
    }

    /// The collection of entries that stand in the order of their records, a record any number of times. It adds up and
    /// drops entries where they stand, and takes no memory.
    pub fn from_sorted(entries: List<(R, Weight)>) -> Batch<R>
        requires { IsSortedByKey (λ e. e.0) R.cmp entries }
        ensures value { result ≡ normal R.cmp entries }
        ensures alike { Alike result entries }
        ensures batch { IsBatch R.cmp result }
    {
        Batch::from_sorted_vec(entries.into_vec())
    }

    fn from_sorted_vec(mut entries: Vec<(R, Weight)>) -> Batch<R>
        requires { IsSortedByKey (λ e. e.0) R.cmp entries.items }
        ensures value { result ≡ normal R.cmp entries.items }
        ensures alike { Alike result entries.items }
        ensures batch { IsBatch R.cmp result }
    {
        let kept = consolidate(entries.as_mut_slice());
        entries.truncate(kept);
        Batch { entries }
    }

    /// The batch of entries that are in normal form: records strictly rising in their order, no weight zero. It takes no
    /// memory and does no work.
    pub fn from_rising(entries: List<(R, Weight)>) -> Batch<R>
        requires { IsBatch R.cmp entries }
        ensures value { result ≡ entries }
        ensures batch { IsBatch R.cmp result }
    {
        Batch {
            entries: entries.into_vec(),
        }
    }

    /// The collection of any entries: for each record the sum of its weights modulo 2^64, where that isn't zero. The
    /// entries may come in any order, a record any number of times. It sorts them where they stand.
    ///
    /// Errors: out of memory.
    pub fn from_entries(entries: List<(R, Weight)>) -> Result<Batch<R>, NoMemory>
        ensures value { IfOk result (λ batch. batch ≡ normal R.cmp entries) }
        ensures alike { IfOk result (λ batch. Alike batch entries) }
        ensures batch { IfOk result (λ batch. IsBatch R.cmp batch) }
    {
        let mut entries = entries.into_vec();
        entries.sort_unstable_by_key(|entry| entry.0);
        Ok(Batch::from_sorted_vec(entries))
    }

    /// How many entries there are.
    pub fn len(&self) -> usize
        ensures value { result ≡ length self.now }
        ensures batch { IsBatch R.cmp self.now }
    {
        self.entries.len()
    }

    /// Whether there is no entry.
    pub fn is_empty(&self) -> bool
        ensures { result ≡ (length self.now == 0) }
    {
        self.entries.is_empty()
    }

    /// The entry at a place, from 0. Its weight is not zero. It takes no memory.
    pub fn entry(&self, i: usize) -> (R, Weight)
        requires { i < length self.now }
        ensures value { slice_get self.now i ≡ Some result }
        ensures weight { result.1 ≢ 0 }
    {
        self.entries[i]
    }

    /// The entries by rising record, lent.
    pub fn as_slice(&self) -> &[(R, Weight)]
        ensures value { result.now ≡ self.now }
        ensures batch { IsBatch R.cmp self.now }
    {
        self.entries.as_slice()
    }

    /// The entries by rising record, as a list of their own. It takes no memory.
    pub fn into_entries(self) -> List<(R, Weight)>
        ensures value { result ≡ self }
        ensures batch { IsBatch R.cmp result }
    {
        let Batch { entries } = self;
        List::from_vec(entries)
    }

    /// The sum of two collections, by one walk along both.
    ///
    /// Errors: out of memory.
    pub fn add(&self, other: &Batch<R>) -> Result<Batch<R>, NoMemory>
        ensures value { IfOk result (λ batch. batch ≡ normal R.cmp (self.now ++ other.now)) }
        ensures alike { IfOk result (λ batch. Alike batch (self.now ++ other.now)) }
        ensures batch { IfOk result (λ batch. IsBatch R.cmp batch) }
    {
        let alloc = *self.entries.allocator();
        let entries = join(alloc, self.as_slice(), other.as_slice())?;
        Ok(Batch { entries })
    }

    /// What takes the collection away: the same records, each with the weight that gives zero when it is added.
    ///
    /// Errors: out of memory.
    pub fn negate(&self) -> Result<Batch<R>, NoMemory>
        ensures value { IfOk result (λ batch. batch ≡ negated self.now) }
        ensures normal { IfOk result (λ batch. batch ≡ normal R.cmp (negated self.now)) }
        ensures batch { IfOk result (λ batch. IsBatch R.cmp batch) }
    {
        let mut entries = Vec::new(*self.entries.allocator());
        for (record, weight) in self.as_slice() {
            entries.push((*record, weight.negate()))?;
        }
        Ok(Batch { entries })
    }

    /// The sum of any number of collections, merged two at a time by halves. It takes time in proportion to the number of
    /// entries times the logarithm of the number of batches.
    ///
    /// Errors: out of memory.
    pub fn merge(alloc: Global, batches: &[Batch<R>]) -> Result<Batch<R>, NoMemory>
        ensures value { IfOk result (λ batch. batch ≡ normal R.cmp (joined batches.now)) }
        ensures alike { IfOk result (λ batch. Alike batch (joined batches.now)) }
        ensures batch { IfOk result (λ batch. IsBatch R.cmp batch) }
    {
        let entries = gather(alloc, batches)?;
        Ok(Batch::from_sorted_vec(entries))
    }
}
