//! The sum of two batches, by one walk along both.

ghost use Rattle.std.specs.Prelude.{◌≡◌, [], ◌∷◌, ◌++◌, IfOk, OnOk};
ghost use Rattle.weighted.specs.Batches.{IsBatch};
ghost use Rattle.weighted.specs.Normal.{normal, trimmed};

use crate::weight::Weight;
use std::alloc::Global;
use std::cmp::Ordering;
use surge_outside::{NoMemory, Record};

/// Adds an entry at the end unless its weight is zero.
fn push_unless_zero<R: Record>(
    entries: &mut Vec<(R, Weight)>,
    entry: (R, Weight),
) -> Result<(), NoMemory>
    ensures { OnOk result (entries.new.items ≡ entries.old.items ++ trimmed (entry ∷ [])) }
{
    if !entry.1.is_zero() {
        entries.push(entry)?;
    }
    Ok(())
}

/// The entries of the sum of two batches, from those of each.
pub(crate) fn join<R: Record>(
    alloc: Global,
    left: &[(R, Weight)],
    right: &[(R, Weight)],
) -> Result<Vec<(R, Weight)>, NoMemory>
    requires left { IsBatch R.cmp left.now }
    requires right { IsBatch R.cmp right.now }
    ensures { IfOk result (λ entries. entries.items ≡ normal R.cmp (left.now ++ right.now)) }
{
    let mut entries = Vec::new(alloc);
    let mut i = 0;
    let mut j = 0;
    while i < left.len() && j < right.len() {
        let x = left[i];
        let y = right[j];
        match x.0.cmp(&y.0) {
            Ordering::Less => {
                entries.push(x)?;
                i += 1;
            }
            Ordering::Greater => {
                entries.push(y)?;
                j += 1;
            }
            Ordering::Equal => {
                push_unless_zero(&mut entries, (x.0, x.1.add(y.1)))?;
                i += 1;
                j += 1;
            }
        }
    }
    entries.extend_from_slice(&left[i..])?;
    entries.extend_from_slice(&right[j..])?;
    Ok(entries)
}
