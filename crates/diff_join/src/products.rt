//! Products of differences with the entries of a trace.

ghost use Rattle.std.specs.Prelude.{◌≡◌, [], ◌∷◌, ◌++◌, OnOk, IsTrue};
ghost use Rattle.std.specs.Ordering.{is_eq};
ghost use Rattle.weighted.specs.SumLaws.{filtered, paired, wrapped};
ghost use Rattle.diff_join.specs.Joins.{AreHeld, at_bound, given, one, pairs, timed, unkeyed};
ghost use Rattle.diff_join.specs.StepLaws.{products_of};

use crate::pairing::Pairing;
use lattice_time::Time;
use std::alloc::Global;
use surge_outside::{List, NoMemory, Record};
use trace_store::{Cursor, Trace};
use weighted::{Batch, Weight};

/// Adds a record at a time, where there is one.
fn push_one<T: Time, O: Record>(
    products: &mut Vec<((T, O), Weight)>,
    time: T,
    output: Option<O>,
    weight: Weight,
) -> Result<(), NoMemory>
    ensures { OnOk result (products.new.items ≡ products.old.items ++ one (timed time output) weight) }
{
    if let Some(output) = output {
        products.push(((time, output), weight))?;
    }
    Ok(())
}

/// Adds what a pairing gives for a difference at `t` with each of some entries, at the least upper bound of both times
/// and with the product of both weights.
fn push_products<K: Record, V: Record, W: Record, T: Time, F: Pairing<K, V, W>>(
    products: &mut Vec<((T, F::Output), Weight)>,
    pairing: &F,
    t: T,
    difference: ((K, V), Weight),
    entries: &[(((K, W), T), Weight)],
) -> Result<(), NoMemory>
    ensures { OnOk result (products.new.items ≡ products.old.items ++ wrapped (given (at_bound T.lub (unkeyed (F.gives pairing.now)) t) (paired difference.0 difference.1 entries.now))) }
{
    let ((key, value), weight) = difference;
    for ((record, time), other) in entries {
        let output = pairing.pair(key, value, record.1);
        push_one(products, time.lub(&t), output, weight.times(*other))?;
    }
    Ok(())
}

/// Whether this is the key that is held.
fn is_held<K: Record>(held: Option<K>, key: K) -> bool
    ensures { IsTrue result → held ≡ Some key }
{
    match held {
        Some(last) => last.cmp(&key).is_eq(),
        None => false,
    }
}

/// Replaces what is in `entries` by those of a key, unless it is the one that is held, whose entries they are.
///
/// Errors: out of memory.
fn hold<K: Record, W: Record, T: Time>(
    trace: &Trace<K, W, T>,
    cursor: &mut Cursor,
    key: K,
    held: &mut Option<K>,
    entries: &mut List<(((K, W), T), Weight)>,
) -> Result<(), NoMemory>
    requires { AreHeld K.cmp trace.now.items held.old entries.old }
    ensures held { OnOk result (held.new ≡ Some key) }
    ensures entries { OnOk result (entries.new ≡ filtered (λ r. is_eq (K.cmp r.0.0 key)) trace.now.items) }
{
    if is_held(*held, key) {
        return Ok(());
    }
    trace.seek_entries(cursor, key, entries)?;
    *held = Some(key);
    Ok(())
}

/// Adds what a pairing gives for the differences of a batch at `t` with the entries of a trace. It looks up each key of
/// the batch once, from where it found the one before.
pub(crate) fn push_all<K: Record, V: Record, W: Record, T: Time, F: Pairing<K, V, W>>(
    alloc: Global,
    products: &mut Vec<((T, F::Output), Weight)>,
    pairing: &F,
    t: T,
    batch: &Batch<(K, V)>,
    trace: &Trace<K, W, T>,
) -> Result<(), NoMemory>
    ensures { OnOk result (products.new.items ≡ products.old.items ++ products_of T.lub (pairs K.cmp (F.gives pairing.now)) t batch.now trace.now.items) }
{
    let mut entries = List::new(alloc);
    let mut cursor = Cursor::new(alloc);
    let mut held = None;
    for difference in batch.as_slice() {
        hold(trace, &mut cursor, difference.0.0, &mut held, &mut entries)?;
        push_products(products, pairing, t, *difference, entries.as_slice())?;
    }
    Ok(())
}
