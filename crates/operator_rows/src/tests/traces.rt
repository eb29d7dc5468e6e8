//! Worked examples of traces.

use crate::tests::inputs::{MINUS_ONE, Nested, at, batch};
use lattice_time::{Position, Round, Time, Version};
use std::alloc::Global;
use std::test::Fail;
use surge_outside::List;
use trace_store::{Cursor, Trace};
use weighted::Weight;

/// Whether these are the values of a key at a time.
fn gives<T: Time>(
    alloc: Global,
    trace: &Trace<u32, u32, T>,
    key: u32,
    t: T,
    wanted: &[(u32, Weight)],
) -> Result<bool, Fail> {
    let mut values = List::new(alloc);
    values.push((99, Weight(99)))?;
    trace.accumulate(key, t, &mut values)?;
    Ok(values.as_slice() == wanted)
}

/// Whether these are the times of a key.
fn comes_at<T: Time>(
    alloc: Global,
    trace: &Trace<u32, u32, T>,
    key: u32,
    wanted: &List<T>,
) -> Result<bool, Fail> {
    let mut times = List::new(alloc);
    times.push(T::least())?;
    trace.times_of(key, &mut times)?;
    Ok(times.as_slice() == wanted.as_slice())
}

/// The list of one time.
fn once<T: Time>(alloc: Global, t: T) -> Result<List<T>, Fail> {
    let mut times = List::new(alloc);
    times.push(t)?;
    Ok(times)
}

/// The list of two times.
fn twice<T: Time>(alloc: Global, s: T, t: T) -> Result<List<T>, Fail> {
    let mut times = once(alloc, s)?;
    times.push(t)?;
    Ok(times)
}

/// Two keys at a first time, and of one of them a change at a second time.
fn fed<T: Time>(alloc: Global, first: T, second: T) -> Result<Trace<u32, u32, T>, Fail> {
    let mut trace = Trace::new(alloc);
    let entries = [
        ((2, 9), Weight(1)),
        ((1, 8), Weight(2)),
        ((1, 7), Weight(1)),
    ];
    trace.insert(&batch(alloc, &entries)?, first)?;
    let change = [((1, 7), MINUS_ONE), ((1, 5), Weight(3))];
    trace.insert(&batch(alloc, &change)?, second)?;
    trace.insert(&batch(alloc, &[])?, second)?;
    Ok(trace)
}

/// Whether each call answers well where the first time is below the second one.
fn answers<T: Time>(alloc: Global, first: T, second: T) -> Result<bool, Fail> {
    let trace = fed(alloc, first, second)?;
    let before = gives(alloc, &trace, 1, first, &[(7, Weight(1)), (8, Weight(2))])?;
    let after = gives(alloc, &trace, 1, second, &[(5, Weight(3)), (8, Weight(2))])?;
    let other = gives(alloc, &trace, 2, second, &[(9, Weight(1))])?;
    let absent = gives(alloc, &trace, 3, second, &[])?;
    let both = comes_at(alloc, &trace, 1, &twice(alloc, first, second)?)?;
    let one = comes_at(alloc, &trace, 2, &once(alloc, first)?)?;
    let none = comes_at(alloc, &trace, 3, &List::new(alloc))?;
    Ok(before && after && other && absent && both && one && none)
}

/// Whether they do once the trace is sealed at the second time.
fn answers_sealed<T: Time>(alloc: Global, first: T, second: T) -> Result<bool, Fail> {
    let mut trace = fed(alloc, first, second)?;
    trace.seal(second)?;
    let before = gives(alloc, &trace, 1, first, &[])?;
    let after = gives(alloc, &trace, 1, second, &[(5, Weight(3)), (8, Weight(2))])?;
    let times = comes_at(alloc, &trace, 1, &once(alloc, second)?)?;
    Ok(before && after && times)
}

/// Whether they do before a seal and behind one.
fn both_answer<T: Time>(alloc: Global, first: T, second: T) -> Result<bool, Fail> {
    let before = answers(alloc, first, second)?;
    let behind = answers_sealed(alloc, first, second)?;
    Ok(before && behind)
}

#[test]
fn each_kind_of_time(rt: HostRuntime) -> Result<(), Fail> {
    assert!(rt; both_answer(rt.alloc(), Position(2), Position(5))?);
    assert!(rt; both_answer(rt.alloc(), Round(0), Round(u32::MAX))?);
    assert!(rt; both_answer(rt.alloc(), Version(1), Version(2))?);
    assert!(rt; both_answer(rt.alloc(), at(1, 1), at(2, 1))?);
    Ok(())
}

/// Changes of two values of key 1, at one time.
type Change<T> = (T, [(u32, Weight); 2]);

/// No change of a value.
const SAME: (u32, Weight) = (0, Weight(0));

/// Inserts changes at their time.
fn insert<T: Time>(
    alloc: Global,
    trace: &mut Trace<u32, u32, T>,
    change: Change<T>,
) -> Result<(), Fail> {
    let (t, [first, second]) = change;
    let entries = [((1, first.0), first.1), ((1, second.0), second.1)];
    trace.insert(&batch(alloc, &entries)?, t)?;
    Ok(())
}

/// The trace of changes.
fn trace_of<T: Time>(alloc: Global, changes: &[Change<T>]) -> Result<Trace<u32, u32, T>, Fail> {
    let mut trace = Trace::new(alloc);
    for change in changes {
        insert(alloc, &mut trace, *change)?;
    }
    Ok(trace)
}

/// The same, sealed at a time.
fn sealed<T: Time>(
    alloc: Global,
    changes: &[Change<T>],
    seal: T,
) -> Result<Trace<u32, u32, T>, Fail> {
    let mut trace = trace_of(alloc, changes)?;
    trace.seal(seal)?;
    Ok(trace)
}

#[test]
fn sealed_times_keep_their_rounds(rt: HostRuntime) -> Result<(), Fail> {
    let alloc = rt.alloc();
    let trace = sealed(alloc, &[(at(0, 2), [(7, Weight(1)), SAME])], at(3, 0))?;
    assert!(rt; gives(alloc, &trace, 1, at(3, 1), &[])?);
    assert!(rt; gives(alloc, &trace, 1, at(3, 2), &[(7, Weight(1))])?);
    assert!(rt; comes_at(alloc, &trace, 1, &once(alloc, at(3, 2))?)?);
    Ok(())
}

#[test]
fn a_time_that_is_not_below_does_not_count(rt: HostRuntime) -> Result<(), Fail> {
    let alloc = rt.alloc();
    let changes = [
        (at(0, 5), [(7, Weight(1)), SAME]),
        (at(1, 1), [(7, Weight(2)), SAME]),
    ];
    let trace = trace_of(alloc, &changes)?;
    // (0, 5) is not below (1, 2)
    assert!(rt; gives(alloc, &trace, 1, at(1, 2), &[(7, Weight(2))])?);
    assert!(rt; gives(alloc, &trace, 1, at(1, 5), &[(7, Weight(3))])?);
    assert!(rt; comes_at(alloc, &trace, 1, &twice(alloc, at(0, 5), at(1, 1))?)?);
    Ok(())
}

/// Whether key 1 has these times behind changes.
fn come_at(alloc: Global, changes: &[Change<Nested>], wanted: &[Nested]) -> Result<bool, Fail> {
    let trace = trace_of(alloc, changes)?;
    let mut times = List::new(alloc);
    trace.times_of(1, &mut times)?;
    Ok(times.as_slice() == wanted)
}

#[test]
fn weights_cancel(rt: HostRuntime) -> Result<(), Fail> {
    let alloc = rt.alloc();
    let changes = [
        (at(0, 2), [(7, Weight(1)), SAME]),
        (at(0, 2), [(7, MINUS_ONE), SAME]),
        (at(0, 2), [(7, Weight(1)), (8, MINUS_ONE)]),
        (at(1, 2), [(7, MINUS_ONE), (8, Weight(1))]),
    ];
    // at one time
    assert!(rt; come_at(alloc, &changes[..2], &[])?);
    // two values don't cancel
    assert!(rt; come_at(alloc, &changes[..3], &[at(0, 2)])?);
    assert!(rt; come_at(alloc, &changes, &[at(0, 2), at(1, 2)])?);
    // once both times are one
    let trace = sealed(alloc, &changes, at(1, 0))?;
    assert!(rt; comes_at(alloc, &trace, 1, &List::new(alloc))?);
    Ok(())
}

/// Whether these are the entries of a key.
fn has_entries(
    alloc: Global,
    trace: &Trace<u32, u32, Position>,
    key: u32,
    wanted: &[(((u32, u32), Position), Weight)],
) -> Result<bool, Fail> {
    let mut entries = List::new(alloc);
    entries.push((((9, 9), Position(9)), Weight(9)))?;
    trace.entries_of(key, &mut entries)?;
    Ok(entries.as_slice() == wanted)
}

#[test]
fn entries_of_a_key_come_in_order(rt: HostRuntime) -> Result<(), Fail> {
    let trace = fed(rt.alloc(), Position(2), Position(5))?;
    let wanted = [
        (((1, 5), Position(5)), Weight(3)),
        (((1, 7), Position(2)), Weight(1)),
        (((1, 7), Position(5)), MINUS_ONE),
        (((1, 8), Position(2)), Weight(2)),
    ];
    assert!(rt; has_entries(rt.alloc(), &trace, 1, &wanted)?);
    assert!(rt; has_entries(rt.alloc(), &trace, 3, &[])?);
    Ok(())
}

/// Whether a cursor that comes from any key finds the entries of these keys, one after the other.
fn finds(alloc: Global, trace: &Trace<u32, u32, Position>, keys: &[u32]) -> Result<bool, Fail> {
    let mut cursor = Cursor::new(alloc);
    let mut found = List::new(alloc);
    let mut wanted = List::new(alloc);
    for key in keys {
        trace.seek_entries(&mut cursor, *key, &mut found)?;
        trace.entries_of(*key, &mut wanted)?;
        if found.as_slice() != wanted.as_slice() {
            return Ok(false);
        }
    }
    Ok(true)
}

/// The keys 0 to 39, each with the value 2, and their doubles with the value 1.
fn forty_keys(alloc: Global) -> Result<Trace<u32, u32, Position>, Fail> {
    let mut trace = Trace::new(alloc);
    for key in 0..40 {
        let entries = [((key * 2, 1), Weight(1)), ((key, 2), Weight(1))];
        trace.insert(&batch(alloc, &entries)?, Position(key))?;
    }
    Ok(trace)
}

#[test]
fn keys_are_found_in_any_order(rt: HostRuntime) -> Result<(), Fail> {
    let trace = forty_keys(rt.alloc())?;
    assert!(rt; trace.layers() > 1);
    assert!(rt; finds(rt.alloc(), &trace, &[0, 1, 2, 7, 30, 31, 41, 78, 79])?);
    assert!(rt; finds(rt.alloc(), &trace, &[40, 40, 3, 4, 90, 5, 78, 0])?);
    Ok(())
}

fn is_empty(trace: &Trace<u32, u32, Position>) -> bool {
    trace.entries() == 0 && trace.layers() == 0
}

#[test]
fn what_cancels_is_dropped_by_a_seal(rt: HostRuntime) -> Result<(), Fail> {
    let alloc = rt.alloc();
    let changes = [
        (Position(1), [(7, Weight(1)), SAME]),
        (Position(2), [(7, MINUS_ONE), SAME]),
    ];
    assert!(rt; is_empty(&Trace::new(alloc)));
    assert!(rt; trace_of(alloc, &changes)?.entries() <= 2);
    let trace = sealed(alloc, &changes, Position(3))?;
    assert!(rt; is_empty(&trace));
    assert!(rt; gives(alloc, &trace, 1, Position(3), &[])?);
    Ok(())
}

/// The keys 0 to 99, each with the value 1 at a time of its own, and of key 7 as many values more.
fn hundred_keys(alloc: Global) -> Result<Trace<u32, u32, Position>, Fail> {
    let mut trace = Trace::new(alloc);
    for key in 0..100u32 {
        let entries = [((key, 1), Weight(1)), ((7, key), Weight(1))];
        trace.insert(&batch(alloc, &entries)?, Position(key))?;
    }
    Ok(trace)
}

/// Whether each of these keys but 7 has the value 1.
fn each_gives_one(alloc: Global, trace: &Trace<u32, u32, Position>) -> Result<bool, Fail> {
    for key in 0..100u32 {
        if key != 7 && !gives(alloc, trace, key, Position(99), &[(1, Weight(1))])? {
            return Ok(false);
        }
    }
    Ok(true)
}

#[test]
fn layers_are_few(rt: HostRuntime) -> Result<(), Fail> {
    let mut trace = hundred_keys(rt.alloc())?;
    assert!(rt; trace.entries() == 200 && trace.layers() <= 7);
    assert!(rt; each_gives_one(rt.alloc(), &trace)?);
    trace.seal(Position(50))?;
    assert!(rt; trace.entries() == 199 && trace.layers() == 1);
    Ok(())
}
