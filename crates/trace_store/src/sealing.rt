//! The entries of a layer at later times.

ghost use Rattle.std.specs.Prelude.{◌≡◌, ℕ, ◌+◌, ◌-◌, ◌<◌, ◌≤◌, ◌++◌, true, false, length, take, drop, get_or, IfOk, OnOk};
ghost use Rattle.std.specs.List.{AllWithin};
ghost use Rattle.std.specs.Ordering.{is_ne};
ghost use Rattle.weighted.specs.Batches.{IsBatch, joined};
ghost use Rattle.weighted.specs.Normal.{normal};
ghost use Rattle.weighted.specs.WordLaws.{mapped};
ghost use Rattle.trace_store.specs.Traces.{in_turn, later, trace_cmp};

use crate::layer::Layer;
use crate::layers::merge_onto;
use crate::lookup::{Entries, Entry};
use chunk_list::ChunkList;
use lattice_time::Time;
use std::alloc::Global;
use std::mem;
use surge_outside::{List, NoMemory, Record};
use weighted::{Batch, Weight};

/// The first place behind one whose entry has another key or value, or the number of entries.
fn group_end<K: Record, V: Record, T: Time>(
    layer: &Entries<K, V, T>,
    pair: (K, V),
    start: usize,
) -> usize
    requires { start < length layer.now }
    ensures bound { (start < result) × (result ≤ length layer.now) }
    ensures group { AllWithin (λ e. is_ne (in_turn K.cmp V.cmp e.0.0 pair) ≡ false) layer.now (start + 1) result }
    ensures end { result < length layer.now → (d : ((K × V) × T) × ℕ) → is_ne (in_turn K.cmp V.cmp (get_or layer.now result d).0.0 pair) ≡ true }
{
    let len = layer.len();
    let mut end = start + 1;
    while end < len {
        if layer.get(end).0.0.cmp(&pair).is_ne() {
            return end;
        }
        end += 1;
    }
    end
}

/// Replaces what is in `times` by the times of some entries, each read as its least upper bound with `f`, summed.
fn sum_times<K: Record, V: Record, T: Time>(
    alloc: Global,
    times: &mut List<(T, Weight)>,
    layer: &Entries<K, V, T>,
    start: usize,
    end: usize,
    f: &T,
) -> Result<(), NoMemory>
    requires { (start ≤ end) × (end ≤ length layer.now) }
    ensures value { OnOk result (times.new ≡ normal T.cmp (mapped (λ r. T.lub r.1 f.now) (take (end - start) (drop start layer.now)))) }
{
    let mut read = mem::replace(times, List::new(alloc));
    read.clear();
    for i in start..end {
        let entry = layer.get(i);
        read.push((entry.0.1.lub(f), entry.1))?;
    }
    *times = Batch::from_entries(read)?.into_entries();
    Ok(())
}

/// Adds a key and a value at each of some times.
fn push_times<K: Record, V: Record, T: Time>(
    made: &mut ChunkList<Entry<K, V, T>>,
    pair: (K, V),
    times: &[(T, Weight)],
)
    requires { length times.now ≤ made.old.spare }
    ensures items { made.new.items ≡ made.old.items ++ mapped (λ s. (pair, s)) times.now }
    ensures spare { made.new.spare + length times.now ≡ made.old.spare }
{
    for (time, weight) in times {
        made.push(((pair, *time), *weight));
    }
}

/// Adds a key and a value, whose entries stand from `start` up to `end`, at the least upper bounds of its times with `f`.
fn push_group<K: Record, V: Record, T: Time>(
    alloc: Global,
    made: &mut ChunkList<Entry<K, V, T>>,
    times: &mut List<(T, Weight)>,
    layer: &Entries<K, V, T>,
    start: usize,
    end: usize,
    f: &T,
) -> Result<(), NoMemory>
    requires bound { (start < end) × (end ≤ length layer.now) }
    requires batch { IsBatch (trace_cmp K.cmp V.cmp T.cmp) layer.now }
    requires room { length layer.now - start ≤ made.old.spare }
    ensures items { OnOk result ((e : ((K × V) × T) × ℕ) → e ≡ get_or layer.now start e → made.new.items ≡ made.old.items ++ mapped (λ s. (e.0.0, s)) (normal T.cmp (mapped (λ r. T.lub r.1 f.now) (take (end - start) (drop start layer.now))))) }
    ensures room { OnOk result (length layer.now - end ≤ made.new.spare) }
{
    let ((pair, time), weight) = layer.get(start);
    if end - start == 1 {
        made.push(((pair, time.lub(f)), weight));
        return Ok(());
    }
    sum_times(alloc, times, layer, start, end, f)?;
    push_times(made, pair, times.as_slice());
    Ok(())
}

/// The entries with each time read as its least upper bound with `f`, summed. Entries of one key and value stay side by
/// side, so only their times are put in order again. It takes time in proportion to the entries, times the logarithm of
/// the most times of one key and value.
///
/// Errors: out of memory.
fn sealed<K: Record, V: Record, T: Time>(
    alloc: Global,
    layer: &Entries<K, V, T>,
    f: &T,
) -> Result<Entries<K, V, T>, NoMemory>
    ensures value { IfOk result (λ new. new ≡ normal (trace_cmp K.cmp V.cmp T.cmp) (mapped (later T.lub f.now) layer.now)) }
{
    let mut made = ChunkList::new(alloc);
    made.reserve(layer.len())?;
    let mut times = List::new(alloc);
    let mut start = 0;
    while start < layer.len() {
        let end = group_end(layer, layer.get(start).0.0, start);
        push_group(alloc, &mut made, &mut times, layer, start, end, f)?;
        start = end;
    }
    Ok(Layer::from_entries(made))
}

/// All layers in one, with each time read as its least upper bound with `f`, summed.
///
/// Errors: out of memory.
pub(crate) fn one_layer<K: Record, V: Record, T: Time>(
    alloc: Global,
    layers: &[Entries<K, V, T>],
    f: &T,
) -> Result<Entries<K, V, T>, NoMemory>
    ensures { IfOk result (λ new. new ≡ normal (trace_cmp K.cmp V.cmp T.cmp) (mapped (later T.lub f.now) (joined layers.now))) }
{
    if layers.len() == 1 {
        return sealed(alloc, &layers[0], f);
    }
    let merged = merge_onto(alloc, layers, Layer::empty(alloc))?;
    sealed(alloc, &merged, f)
}
