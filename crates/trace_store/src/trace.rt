//! Traces.

ghost use Rattle.std.specs.Prelude.{◌≡◌, ◌+◌, ◌≤◌, ◌^◌, [], ◌++◌, length, map, OnOk, OnErr, IsTrue, if◌then◌else◌};
ghost use Rattle.std.specs.List.{Contains};
ghost use Rattle.std.specs.List.Sorted.{IsStrictlySortedBy};
ghost use Rattle.std.specs.Ordering.{is_eq};
ghost use Rattle.weighted.specs.Alike.{Alike};
ghost use Rattle.weighted.specs.Batches.{IsBatch};
ghost use Rattle.weighted.specs.Normal.{normal};
ghost use Rattle.weighted.specs.SumLaws.{filtered};
ghost use Rattle.weighted.specs.WordLaws.{mapped};
ghost use Rattle.trace_store.specs.Stored.{stored};
ghost use Rattle.trace_store.specs.Traces.{IsTimeOf, accumulated, at_time, later, trace_cmp, values_of};

use crate::cursor::Cursor;
use crate::layers::{merge_onto, put_layer, stay};
use crate::lookup::{Entries, push_entries, push_run, push_times, push_values};
use crate::sealing::one_layer;
use crate::stamped::stamped;
use lattice_time::Time;
use std::alloc::Global;
use std::marker::Model;
use std::mem;
use surge_outside::{List, NoMemory, Record};
use weighted::{Batch, Weight};

/// A finite map from a key, a value and a time to a weight other than zero, modulo 2^64. It keeps the allocator that it
/// was made with, and its entries in sorted layers, each at least twice as long as the next newer one (O'Neil, Cheng,
/// Gawlick and O'Neil, "The log-structured merge-tree", 1996).
#[derive(Drop)]
pub struct Trace<K: Record, V: Record, T: Time> {
    alloc: Global,
    layers: Vec<Entries<K, V, T>>,
    entries: usize,
}

impl<K: Record, V: Record, T: Time> Model for Trace<K, V, T> {
    ghost use Rattle.std.specs.Prelude.{◌≡◌, length};
    ghost use Rattle.weighted.specs.Batches.{joined};
    ghost use Rattle.weighted.specs.Normal.{normal};
    ghost use Rattle.trace_store.specs.Layers.{AreHalving};
    ghost use Rattle.trace_store.specs.Stored.{Stored, stored};
    ghost use Rattle.trace_store.specs.Traces.{trace_cmp};

    ghost Value = { Stored ((K × V) × T) };

    ghost view = { λ t. stored (normal (trace_cmp K.cmp V.cmp T.cmp) (joined t.layers.items)) t.entries (length t.layers.items) };

    ghost invariant = { λ t. (t.entries ≡ length (joined t.layers.items)) × AreHalving t.layers.items };
}

impl<K: Record, V: Record, T: Time> Trace<K, V, T> {
    /// The trace with no entry. It takes no memory.
    pub fn new(alloc: Global) -> Trace<K, V, T>
        ensures { result ≡ stored [] 0 0 }
    {
        Trace {
            alloc,
            layers: Vec::new(alloc),
            entries: 0,
        }
    }

    /// How many entries are kept. An entry of a key, a value and a time counts in each layer that has one. It takes no
    /// memory.
    pub fn entries(&self) -> usize
        ensures value { result ≡ self.now.entries }
        ensures bound { length self.now.items ≤ result }
    {
        self.entries
    }

    /// In how many layers they are kept. It takes no memory.
    pub fn layers(&self) -> usize
        ensures value { result ≡ self.now.layers }
        ensures bound { 2 ^ result ≤ self.now.entries + 1 }
    {
        self.layers.len()
    }

    /// Adds a batch at a time. It takes all its memory before it changes anything. A batch with no entry costs nothing;
    /// over many calls each entry costs the logarithm of the number of all entries.
    ///
    /// Errors: out of memory; the trace is then as it was.
    pub fn insert(&mut self, batch: &Batch<(K, V)>, t: T) -> Result<(), NoMemory>
        ensures value { OnOk result (self.new.items ≡ normal (trace_cmp K.cmp V.cmp T.cmp) (self.old.items ++ mapped (at_time t) batch.now)) }
        ensures alike { OnOk result (Alike self.new.items (self.old.items ++ mapped (at_time t) batch.now)) }
        ensures sums { OnOk result ((u : T) → Alike (accumulated T.leq u self.new.items) (accumulated T.leq u self.old.items ++ (if T.leq t u then batch.now else []))) }
        ensures entries { OnOk result (self.new.entries ≤ self.old.entries + length batch.now) }
        ensures err { OnErr result (self.new ≡ self.old) }
    {
        let alloc = self.alloc;
        if batch.is_empty() {
            return Ok(());
        }
        let Some(total) = self.entries.checked_add(batch.len()) else {
            return Err(NoMemory);
        };
        let newest = stamped(alloc, batch, t)?;
        let (kept, sum) = stay(self.layers.as_slice(), batch.len());
        let merged = merge_onto(alloc, &self.layers[kept..], newest)?;
        let entries = total - sum + merged.len();
        put_layer(&mut self.layers, kept, merged)?;
        self.entries = entries;
        Ok(())
    }

    /// Replaces what is in `into` by the values of a key at a time, rising: each with the sum of its weights at all times
    /// at or below that time, where the sum is not zero. It takes time in proportion to the key's own entries, times the
    /// logarithm of their number, and to the square of the logarithm of the number of all entries, and memory only for
    /// `into` to grow.
    ///
    /// Errors: out of memory; `into` is then any list.
    pub fn accumulate(&self, key: K, t: T, into: &mut List<(V, Weight)>) -> Result<(), NoMemory>
        ensures value { OnOk result (into.new ≡ normal V.cmp (values_of K.cmp key (accumulated T.leq t self.now.items))) }
        ensures alike { OnOk result (Alike into.new (values_of K.cmp key (accumulated T.leq t self.now.items))) }
        ensures batch { OnOk result (IsBatch V.cmp into.new) }
    {
        let mut values = mem::replace(into, List::new(self.alloc));
        values.clear();
        for layer in self.layers.as_slice() {
            push_values(&mut values, layer, &key, &t)?;
        }
        *into = Batch::from_entries(values)?.into_entries();
        Ok(())
    }

    /// Replaces what is in `into` by the entries of a key in normal form: its values at their times, in the order of values
    /// and times, each with its weight. It takes time as `accumulate`, and memory only for `into` to grow.
    ///
    /// Errors: out of memory; `into` is then any list.
    pub fn entries_of(&self, key: K, into: &mut List<(((K, V), T), Weight)>) -> Result<(), NoMemory>
        ensures { OnOk result (into.new ≡ filtered (λ r. is_eq (K.cmp r.0.0 key)) self.now.items) }
    {
        let mut entries = mem::replace(into, List::new(self.alloc));
        entries.clear();
        for layer in self.layers.as_slice() {
            push_entries(&mut entries, layer, &key)?;
        }
        *into = Batch::from_entries(entries)?.into_entries();
        Ok(())
    }

    /// The same as `entries_of`. The values of these entries are those of the key, and their times those at which some value
    /// of it has a weight. Where keys come in rising order, each search goes on from the place at which the one before
    /// with this cursor ended: it takes time in proportion to the logarithm of the distance, for each layer.
    ///
    /// Errors: out of memory; `into` is then any list.
    pub fn seek_entries(
        &self,
        cursor: &mut Cursor,
        key: K,
        into: &mut List<(((K, V), T), Weight)>,
    ) -> Result<(), NoMemory>
        ensures entries { OnOk result (into.new ≡ filtered (λ r. is_eq (K.cmp r.0.0 key)) self.now.items) }
        ensures values { OnOk result ((t : T) → values_of K.cmp key (accumulated T.leq t self.now.items) ≡ mapped (λ r. r.0.1) (filtered (λ r. T.leq r.1 t) into.new)) }
        ensures only { OnOk result ((s : T) → Contains (map (λ e. e.0.1) into.new) s → IsTimeOf (trace_cmp K.cmp V.cmp T.cmp) self.now.items key s) }
        ensures each { OnOk result ((s : T) → IsTimeOf (trace_cmp K.cmp V.cmp T.cmp) self.now.items key s → Contains (map (λ e. e.0.1) into.new) s) }
    {
        let mut entries = mem::replace(into, List::new(self.alloc));
        entries.clear();
        cursor.rewind();
        for layer in self.layers.as_slice() {
            let run = cursor.run_of(layer, &key)?;
            push_run(&mut entries, layer, run)?;
        }
        *into = Batch::from_entries(entries)?.into_entries();
        Ok(())
    }

    /// Replaces what is in `into` by the times at which some value of a key has a weight, each once, rising in their
    /// total order. It takes time as `accumulate`, and memory for the key's entries.
    ///
    /// Errors: out of memory; `into` is then any list.
    pub fn times_of(&self, key: K, into: &mut List<T>) -> Result<(), NoMemory>
        ensures rising { OnOk result (IsStrictlySortedBy T.cmp into.new) }
        ensures only { OnOk result ((s : T) → Contains into.new s → IsTimeOf (trace_cmp K.cmp V.cmp T.cmp) self.now.items key s) }
        ensures each { OnOk result ((s : T) → IsTimeOf (trace_cmp K.cmp V.cmp T.cmp) self.now.items key s → Contains into.new s) }
    {
        let mut held = List::new(self.alloc);
        self.entries_of(key, &mut held)?;
        let mut times = mem::replace(into, List::new(self.alloc)).into_vec();
        times.clear();
        push_times(&mut times, held.as_slice())?;
        times.sort_unstable();
        times.dedup();
        *into = List::from_vec(times);
        Ok(())
    }

    /// Reads each time as its least upper bound with `f`, adds up what comes to one time, drops what sums to zero, and
    /// leaves all in one layer. What is accumulated at a time at or above `f` stays the same. It takes all its memory before
    /// it changes anything, and time in proportion to the number of entries.
    ///
    /// Errors: out of memory; the trace is then as it was.
    pub fn seal(&mut self, f: T) -> Result<(), NoMemory>
        ensures value { OnOk result (self.new.items ≡ normal (trace_cmp K.cmp V.cmp T.cmp) (mapped (later T.lub f) self.old.items)) }
        ensures alike { OnOk result (Alike self.new.items (mapped (later T.lub f) self.old.items)) }
        ensures sums { OnOk result ((t : T) → IsTrue (T.leq f t) → Alike (accumulated T.leq t self.new.items) (accumulated T.leq t self.old.items)) }
        ensures entries { OnOk result (self.new.entries ≡ length self.new.items) }
        ensures layers { OnOk result (self.new.layers ≤ 1) }
        ensures err { OnErr result (self.new ≡ self.old) }
    {
        let one = one_layer(self.alloc, self.layers.as_slice(), &f)?;
        let entries = one.len();
        put_layer(&mut self.layers, 0, one)?;
        self.entries = entries;
        Ok(())
    }
}
