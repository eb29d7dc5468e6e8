//! The weights of all pairs of a few groups, pair by pair in a table.

ghost use Rattle.std.specs.Prelude.{◌≡◌, ◌+◌, ◌%◌, ◌^◌, ◌<◌, ◌≤◌, ◌++◌, length, if◌then◌else◌, IfOk, OnOk};
ghost use Rattle.weighted.specs.Words.{minus};
ghost use Rattle.aggregate_views.specs.Tables.{no_weights, pair_entries, table_entries, weights_with};

use crate::encoding::{Entry, Pair};
use crate::part::{Part, signed_weight};
use std::alloc::Global;
use surge_outside::NoMemory;
use weighted::Weight;

/// The weights of the parts of a pair.
#[derive(Clone, Copy, Debug)]
pub(crate) struct PartWeights {
    pub(crate) count: u64,
    pub(crate) low: u64,
    pub(crate) high: u64,
}

impl PartWeights {
    /// All 0.
    pub(crate) fn new() -> PartWeights
        ensures { result ≡ no_weights }
    {
        PartWeights {
            count: 0,
            low: 0,
            high: 0,
        }
    }

    /// With those of an edge that comes, or without those of one that goes.
    pub(crate) fn with(self, comes: bool, edge: PartWeights) -> PartWeights
        ensures { result ≡ weights_with self comes edge }
    {
        PartWeights {
            count: sum_with(self.count, comes, edge.count),
            low: sum_with(self.low, comes, edge.low),
            high: sum_with(self.high, comes, edge.high),
        }
    }
}

// The sum with a weight that comes, or without one that goes.
fn sum_with(sum: u64, comes: bool, weight: u64) -> u64
    ensures { result ≡ (sum + (if comes then weight else minus weight)) % 2 ^ 64 }
{
    Weight(sum).add(signed_weight(comes, weight)).0
}

/// Adds the entries of a pair at the end. The one error is want of memory.
fn push_pair(entries: &mut Vec<Entry>, pair: Pair, weights: PartWeights) -> Result<(), NoMemory>
    ensures { OnOk result (entries.new.items ≡ entries.old.items ++ pair_entries pair weights) }
{
    entries.push(((pair, Part::Count), Weight(weights.count)))?;
    entries.push(((pair, Part::Low), Weight(weights.low)))?;
    entries.push(((pair, Part::High), Weight(weights.high)))?;
    Ok(())
}

/// The weights of a table of so many groups as entries, by rising pairs. The one error is want of memory.
pub(crate) fn entries_of_table(
    alloc: Global,
    groups: usize,
    table: &[PartWeights],
) -> Result<Vec<Entry>, NoMemory>
    requires some { 0 < groups }
    requires few { length table.now ≤ 4_000_000 }
    ensures { IfOk result (λ entries. entries.items ≡ table_entries groups 0 table.now) }
{
    let mut entries = Vec::with_capacity(alloc, table.len() * 3)?;
    for (n, weights) in table.iter().enumerate() {
        let pair = ((n / groups) as u32, (n % groups) as u32);
        push_pair(&mut entries, pair, *weights)?;
    }
    Ok(entries)
}
