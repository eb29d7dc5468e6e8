//! The entries of one key in a layer.

ghost use Rattle.std.specs.Prelude.{◌≡◌, ℕ, ◌<◌, ◌≤◌, ◌-◌, ◌++◌, true, false, length, IsTrue, OnOk, map, take, drop, get_or};
ghost use Rattle.std.specs.List.{AllWithin};
ghost use Rattle.std.specs.Ordering.{is_eq, is_lt, is_ne};
ghost use Rattle.weighted.specs.Normal.{Rising};
ghost use Rattle.weighted.specs.SumLaws.{filtered};
ghost use Rattle.weighted.specs.WordLaws.{mapped};
ghost use Rattle.trace_store.specs.Traces.{trace_cmp};

use crate::layer::Layer;
use lattice_time::Time;
use surge_outside::{List, NoMemory, Record};
use weighted::Weight;

/// A key, a value and a time, with their weight.
pub(crate) type Entry<K, V, T> = (((K, V), T), Weight);

/// A layer of keys with values at times.
pub(crate) type Entries<K, V, T> = Layer<((K, V), T)>;

/// How many entries of a layer have a smaller key, found by halving what stands between two places.
fn start_within<K: Record, V: Record, T: Time>(
    layer: &Entries<K, V, T>,
    key: &K,
    from: usize,
    to: usize,
) -> usize
    requires rising { Rising (trace_cmp K.cmp V.cmp T.cmp) layer.now }
    requires bound { (from ≤ to) × (to ≤ length layer.now) }
    requires before { AllWithin (λ e. is_lt (K.cmp e.0.0.0 key.now) ≡ true) layer.now 0 from }
    requires from { AllWithin (λ e. is_lt (K.cmp e.0.0.0 key.now) ≡ false) layer.now to (length layer.now) }
    ensures bound { result ≤ length layer.now }
    ensures before { AllWithin (λ e. is_lt (K.cmp e.0.0.0 key.now) ≡ true) layer.now 0 result }
    ensures from { AllWithin (λ e. is_lt (K.cmp e.0.0.0 key.now) ≡ false) layer.now result (length layer.now) }
{
    let mut low = from;
    let mut high = to;
    while low < high {
        let middle = low + (high - low) / 2;
        if layer.get(middle).0.0.0.cmp(key).is_lt() {
            low = middle + 1;
        } else {
            high = middle;
        }
    }
    low
}

/// Where a search that began at a place and has come to another looks next: as far again, or at the last place.
fn reach(from: usize, low: usize, len: usize) -> usize
    requires { (from ≤ low) × (low < len) }
    ensures { (low ≤ result) × (result < len) }
{
    let came = low - from;
    if came < len - low {
        low + came
    } else {
        len - 1
    }
}

/// How many entries of a layer have a smaller key, at least as many as stand before a place, found by ever longer steps and
/// then by halving: it takes time in proportion to the logarithm of how far it goes (Bentley and Yao, "An almost optimal
/// algorithm for unbounded searching", 1976).
fn gallop<K: Record, V: Record, T: Time>(layer: &Entries<K, V, T>, key: &K, from: usize) -> usize
    requires rising { Rising (trace_cmp K.cmp V.cmp T.cmp) layer.now }
    requires bound { from ≤ length layer.now }
    requires before { AllWithin (λ e. is_lt (K.cmp e.0.0.0 key.now) ≡ true) layer.now 0 from }
    ensures bound { result ≤ length layer.now }
    ensures before { AllWithin (λ e. is_lt (K.cmp e.0.0.0 key.now) ≡ true) layer.now 0 result }
    ensures from { AllWithin (λ e. is_lt (K.cmp e.0.0.0 key.now) ≡ false) layer.now result (length layer.now) }
{
    let mut low = from;
    while low < layer.len() {
        let last = reach(from, low, layer.len());
        if layer.get(last).0.0.0.cmp(key).is_ge() {
            return start_within(layer, key, low, last);
        }
        low = last + 1;
    }
    low
}

/// Whether each entry before a place has a smaller key. It looks at the last of them alone.
fn is_behind<K: Record, V: Record, T: Time>(layer: &Entries<K, V, T>, key: &K, place: usize) -> bool
    requires { Rising (trace_cmp K.cmp V.cmp T.cmp) layer.now }
    ensures { IsTrue result → (place ≤ length layer.now) × AllWithin (λ e. is_lt (K.cmp e.0.0.0 key.now) ≡ true) layer.now 0 place }
{
    if place == 0 {
        return true;
    }
    if layer.len() < place {
        return false;
    }
    layer.get(place - 1).0.0.0.cmp(key).is_lt()
}

/// How many entries of a layer have a smaller key. A place behind some of them is where the search begins; where it stands
/// behind another entry, all are searched.
fn start_from<K: Record, V: Record, T: Time>(
    layer: &Entries<K, V, T>,
    key: &K,
    place: usize,
) -> usize
    requires { Rising (trace_cmp K.cmp V.cmp T.cmp) layer.now }
    ensures bound { result ≤ length layer.now }
    ensures before { AllWithin (λ e. is_lt (K.cmp e.0.0.0 key.now) ≡ true) layer.now 0 result }
    ensures from { AllWithin (λ e. is_lt (K.cmp e.0.0.0 key.now) ≡ false) layer.now result (length layer.now) }
{
    if is_behind(layer, key, place) {
        return gallop(layer, key, place);
    }
    start_within(layer, key, 0, layer.len())
}

/// The first place from one on whose entry has another key, or the number of entries.
fn end_of<K: Record, V: Record, T: Time>(layer: &Entries<K, V, T>, key: &K, start: usize) -> usize
    requires { start ≤ length layer.now }
    ensures bound { (start ≤ result) × (result ≤ length layer.now) }
    ensures run { AllWithin (λ e. is_ne (K.cmp e.0.0.0 key.now) ≡ false) layer.now start result }
    ensures end { result < length layer.now → (d : ((K × V) × T) × ℕ) → is_ne (K.cmp (get_or layer.now result d).0.0.0 key.now) ≡ true }
{
    let mut end = start;
    while end < layer.len() {
        if layer.get(end).0.0.0.cmp(key).is_ne() {
            return end;
        }
        end += 1;
    }
    end
}

/// Where the entries of a key stand in a layer: the first place, and the first place behind them. It takes time in
/// proportion to the logarithm of how far the first one stands from the place at which it begins, or of the number of all
/// entries where that place is behind the first one, and to the number of those of the key.
pub(crate) fn run_from<K: Record, V: Record, T: Time>(
    layer: &Entries<K, V, T>,
    key: &K,
    place: usize,
) -> (usize, usize)
    ensures bound { (result.0 ≤ result.1) × (result.1 ≤ length layer.now) }
    ensures run { take (result.1 - result.0) (drop result.0 layer.now) ≡ filtered (λ r. is_eq (K.cmp r.0.0 key.now)) layer.now }
{
    let _len = layer.len();
    let start = start_from(layer, key, place);
    (start, end_of(layer, key, start))
}

/// The same, where all entries are searched.
fn run_of<K: Record, V: Record, T: Time>(layer: &Entries<K, V, T>, key: &K) -> (usize, usize)
    ensures bound { (result.0 ≤ result.1) × (result.1 ≤ length layer.now) }
    ensures run { take (result.1 - result.0) (drop result.0 layer.now) ≡ filtered (λ r. is_eq (K.cmp r.0.0 key.now)) layer.now }
{
    run_from(layer, key, usize::MAX)
}

/// Adds the entries that stand from a place up to another, in their order.
pub(crate) fn push_run<K: Record, V: Record, T: Time>(
    entries: &mut List<Entry<K, V, T>>,
    layer: &Entries<K, V, T>,
    run: (usize, usize),
) -> Result<(), NoMemory>
    requires { (run.0 ≤ run.1) × (run.1 ≤ length layer.now) }
    ensures { OnOk result (entries.new ≡ entries.old ++ take (run.1 - run.0) (drop run.0 layer.now)) }
{
    for i in run.0..run.1 {
        entries.push(layer.get(i))?;
    }
    Ok(())
}

/// Adds the entries of a key, in their order.
pub(crate) fn push_entries<K: Record, V: Record, T: Time>(
    entries: &mut List<Entry<K, V, T>>,
    layer: &Entries<K, V, T>,
    key: &K,
) -> Result<(), NoMemory>
    ensures { OnOk result (entries.new ≡ entries.old ++ filtered (λ r. is_eq (K.cmp r.0.0 key.now)) layer.now) }
{
    push_run(entries, layer, run_of(layer, key))
}

/// Adds the values of a key at times at or below one, in the order of its entries, each with its weight.
pub(crate) fn push_values<K: Record, V: Record, T: Time>(
    values: &mut List<(V, Weight)>,
    layer: &Entries<K, V, T>,
    key: &K,
    t: &T,
) -> Result<(), NoMemory>
    ensures { OnOk result (values.new ≡ values.old ++ mapped (λ r. r.0.1) (filtered (λ r. T.leq r.1 t.now) (filtered (λ r. is_eq (K.cmp r.0.0 key.now)) layer.now))) }
{
    let (start, end) = run_of(layer, key);
    for i in start..end {
        let entry = layer.get(i);
        if entry.0.1.leq(t) {
            values.push((entry.0.0.1, entry.1))?;
        }
    }
    Ok(())
}

/// Adds the times of entries, in their order.
pub(crate) fn push_times<K: Record, V: Record, T: Time>(
    times: &mut Vec<T>,
    entries: &[Entry<K, V, T>],
) -> Result<(), NoMemory>
    ensures { OnOk result (times.new.items ≡ times.old.items ++ map (λ e. e.0.1) entries.now) }
{
    for entry in entries {
        times.push(entry.0.1)?;
    }
    Ok(())
}
