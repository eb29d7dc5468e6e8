//! The keys that a step evaluates.

ghost use Rattle.std.specs.Prelude.{◌≡◌, ◌++◌, IfOk, OnOk, filter, map};
ghost use Rattle.std.specs.List.{Contains};
ghost use Rattle.std.specs.Ordering.{is_eq};
ghost use Rattle.std.specs.List.Sorted.{IsStrictlySortedBy};

use crate::pairs::Pairs;
use crate::sets::make_set;
use lattice_time::Time;
use std::alloc::Global;
use surge_outside::{List, NoMemory, Record};
use weighted::Weight;

/// Adds the key of each entry.
fn push_fed<K: Record, V: Record>(
    keys: &mut List<K>,
    delta: &[((K, V), Weight)],
) -> Result<(), NoMemory>
    ensures { OnOk result (keys.new ≡ keys.old ++ map (λ e. e.0.0) delta.now) }
{
    for entry in delta {
        keys.push(entry.0.0)?;
    }
    Ok(())
}

/// The keys of entries and those that are due at a time, each once, rising.
pub(crate) fn keys_at<K: Record, V: Record, T: Time>(
    alloc: Global,
    delta: &[((K, V), Weight)],
    due: &Pairs<T, K>,
    t: &T,
) -> Result<Vec<K>, NoMemory>
    ensures rising { IfOk result (λ keys. IsStrictlySortedBy K.cmp keys.items) }
    ensures each { IfOk result (λ keys. (k : K) → Contains (map (λ e. e.0.0) delta.now ++ map (λ d. d.1) (filter (λ d. is_eq (T.cmp d.0 t.now)) due.now)) k → Contains keys.items k) }
    ensures only { IfOk result (λ keys. (k : K) → Contains keys.items k → Contains (map (λ e. e.0.0) delta.now ++ map (λ d. d.1) (filter (λ d. is_eq (T.cmp d.0 t.now)) due.now)) k) }
{
    let mut named = List::new(alloc);
    push_fed(&mut named, delta)?;
    due.push_seconds(t, &mut named)?;
    let mut keys = named.into_vec();
    make_set(&mut keys);
    Ok(keys)
}
