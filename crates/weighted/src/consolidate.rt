//! Adding up sorted entries in place.

ghost use Rattle.std.specs.Prelude.{◌≡◌, ◌+◌, ◌<◌, ◌≤◌, [], ◌∷◌, ◌++◌, length, take, drop};
ghost use Rattle.std.specs.List.Sorted.{IsSortedByKey};
ghost use Rattle.weighted.specs.Normal.{normal, trimmed};

use crate::weight::Weight;
use surge_outside::Record;

/// Writes an entry at place `kept` unless its weight is zero, and answers how many entries are kept then.
fn keep<R: Record>(entries: &mut [(R, Weight)], kept: usize, entry: (R, Weight)) -> usize
    requires { kept < length entries.old }
    ensures bound { result ≤ kept + 1 }
    ensures front { take result entries.new ≡ take kept entries.old ++ trimmed (entry ∷ []) }
    ensures back { drop (kept + 1) entries.new ≡ drop (kept + 1) entries.old }
{
    if entry.1.is_zero() {
        return kept;
    }
    entries[kept] = entry;
    kept + 1
}

/// Adds up the weights of each record where equal records stand side by side, and drops zero sums, in place. Answers how
/// many entries are left, at the front. It takes no memory.
pub(crate) fn consolidate<R: Record>(entries: &mut [(R, Weight)]) -> usize
    requires sorted { IsSortedByKey (λ e. e.0) R.cmp entries.old }
    ensures bound { result ≤ length entries.new }
    ensures front { take result entries.new ≡ normal R.cmp entries.old }
{
    if entries.is_empty() {
        return 0;
    }
    let mut held = entries[0];
    let mut kept = 0;
    for i in 1..entries.len() {
        let next = entries[i];
        if next.0.cmp(&held.0).is_eq() {
            held.1 = held.1.add(next.1);
        } else {
            kept = keep(entries, kept, held);
            held = next;
        }
    }
    keep(entries, kept, held)
}
