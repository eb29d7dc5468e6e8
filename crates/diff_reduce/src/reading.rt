//! What a trace has of one key.

ghost use Rattle.std.specs.Prelude.{◌≡◌, ◌∷◌, ◌++◌, [], map, OnOk};
ghost use Rattle.std.specs.List.{Contains};
ghost use Rattle.weighted.specs.Batches.{IsBatch};
ghost use Rattle.weighted.specs.Normal.{normal};
ghost use Rattle.weighted.specs.SumLaws.{filtered};
ghost use Rattle.weighted.specs.WordLaws.{mapped};
ghost use Rattle.trace_store.specs.Traces.{IsTimeOf, accumulated, trace_cmp, values_of};

use lattice_time::Time;
use std::alloc::Global;
use std::mem;
use surge_outside::{List, NoMemory, Record};
use trace_store::{Cursor, Trace};
use weighted::{Batch, Weight};

/// The entries of a key that were read last, and the key's values at a time; and where the search for them ended.
#[derive(Drop)]
pub(crate) struct Reading<K: Record, V: Record, T: Time> {
    cursor: Cursor,
    pub(crate) entries: List<(((K, V), T), Weight)>,
    pub(crate) values: List<(V, Weight)>,
}

/// Adds the value of an entry with its weight, where its time is at or below `t`.
fn push_if_timely<K: Record, V: Record, T: Time>(
    values: &mut List<(V, Weight)>,
    entry: &(((K, V), T), Weight),
    t: &T,
) -> Result<(), NoMemory>
    ensures { OnOk result (values.new ≡ values.old ++ mapped (λ r. r.0.1) (filtered (λ r. T.leq r.1 t.now) (entry.now ∷ []))) }
{
    if entry.0.1.leq(t) {
        values.push((entry.0.0.1, entry.1))?;
    }
    Ok(())
}

/// Adds the values of entries at times at or below one, each with its weight.
fn push_values<K: Record, V: Record, T: Time>(
    values: &mut List<(V, Weight)>,
    entries: &[(((K, V), T), Weight)],
    t: &T,
) -> Result<(), NoMemory>
    ensures { OnOk result (values.new ≡ values.old ++ mapped (λ r. r.0.1) (filtered (λ r. T.leq r.1 t.now) entries.now)) }
{
    for entry in entries {
        push_if_timely(values, entry, t)?;
    }
    Ok(())
}

/// Puts entries in normal form where they stand.
///
/// Errors: out of memory.
pub(crate) fn normalize<R: Record>(
    alloc: Global,
    entries: &mut List<(R, Weight)>,
) -> Result<(), NoMemory>
    ensures value { OnOk result (entries.new ≡ normal R.cmp entries.old) }
    ensures batch { OnOk result (IsBatch R.cmp entries.new) }
{
    let all = mem::replace(entries, List::new(alloc));
    *entries = Batch::from_entries(all)?.into_entries();
    Ok(())
}

impl<K: Record, V: Record, T: Time> Reading<K, V, T> {
    /// No key was read yet. It takes no memory.
    pub(crate) fn new(alloc: Global) -> Reading<K, V, T> {
        Reading {
            cursor: Cursor::new(alloc),
            entries: List::new(alloc),
            values: List::new(alloc),
        }
    }

    /// Reads the entries of a key, and its values at a time, rising, with their sums that are not zero.
    ///
    /// Errors: out of memory.
    pub(crate) fn read(
        &mut self,
        alloc: Global,
        trace: &Trace<K, V, T>,
        key: K,
        t: T,
    ) -> Result<(), NoMemory>
        ensures values { OnOk result (self.new.values ≡ normal V.cmp (values_of K.cmp key (accumulated T.leq t trace.now.items))) }
        ensures batch { OnOk result (IsBatch V.cmp self.new.values) }
        ensures only { OnOk result ((s : T) → Contains (map (λ e. e.0.1) self.new.entries) s → IsTimeOf (trace_cmp K.cmp V.cmp T.cmp) trace.now.items key s) }
        ensures each { OnOk result ((s : T) → IsTimeOf (trace_cmp K.cmp V.cmp T.cmp) trace.now.items key s → Contains (map (λ e. e.0.1) self.new.entries) s) }
    {
        trace.seek_entries(&mut self.cursor, key, &mut self.entries)?;
        self.values.clear();
        push_values(&mut self.values, self.entries.as_slice(), &t)?;
        normalize(alloc, &mut self.values)
    }
}
