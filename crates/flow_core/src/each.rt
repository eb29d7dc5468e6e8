//! Functions of records.

ghost use Rattle.std.specs.Prelude.{◌≡◌, ◌++◌, OnOk};
ghost use Rattle.weighted.specs.Batches.{IsBatch};
ghost use Rattle.weighted.specs.WordLaws.{mapped};

use surge_outside::{NoMemory, Record};
use weighted::{Batch, Weight};

/// A function of records: what it answers is a function of the object and the argument. It takes no memory.
pub trait Each<A, B> {
    /// The function.
    ghost gives: { Self → A → B };

    /// The function's value at `a`.
    fn apply(&self, a: A) -> B
        ensures { result ≡ gives self.now a };
}

/// Adds what a function gives for each record of a batch, with the record's weight, in the order of the batch.
pub(crate) fn push_each<A: Record, B: Record, E: Each<A, B>>(
    entries: &mut Vec<(B, Weight)>,
    each: &E,
    batch: &Batch<A>,
) -> Result<(), NoMemory>
    ensures entries { OnOk result (entries.new.items ≡ entries.old.items ++ mapped (E.gives each.now) batch.now) }
    ensures batch { OnOk result (IsBatch A.cmp batch.now) }
{
    for (record, weight) in batch.as_slice() {
        entries.push((each.apply(*record), *weight))?;
    }
    Ok(())
}
