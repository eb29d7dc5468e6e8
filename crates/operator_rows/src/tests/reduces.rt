//! Worked examples of a reduce that counts.

ghost use Rattle.std.specs.Prelude.{◌≡◌, ◌==◌, ◌∷◌, [], false, length, if◌then◌else◌, refl, IsTrue};
ghost use Rattle.flow_core.specs.Runs.{IsFresh};

use crate::tests::inputs::{MINUS_ONE, Nested, at, batch, has, have};
use crate::tests::steps::{apart, settle};
use diff_reduce::{KeyLogic, Reduce};
use flow_core::{NoCalls, Operator};
use lattice_time::{Pair, Position, Round, Time};
use std::alloc::Global;
use std::test::Fail;
use surge_outside::{Counted, List, NoMemory};
use weighted::{Batch, Weight};

const MINUS_TWO: Weight = Weight(u64::MAX - 1);

/// How many values a key has.
#[derive(Drop)]
struct CountValues;

impl<U: Counted> KeyLogic<U> for CountValues {
    type Key = u32;

    type Value = u32;

    type Output = u64;

    ghost gives = { λ _ _ words. if length words == 0 then [] else (length words, 1) ∷ [] };

    ghost nothing = { λ _ _. refl };

    fn eval(
        &self,
        key: u32,
        words: &[(u32, Weight)],
        into: &mut List<(u64, Weight)>,
        updater: &mut U,
    ) -> Result<(), NoMemory> {
        if words.is_empty() {
            return Ok(());
        }
        into.push((words.len() as u64, Weight(1)))
    }
}

type Counts = Reduce<CountValues, Nested, NoCalls>;

/// Keys with their counts.
type Made = Batch<(u32, u64)>;

/// A change at each of two times, a seal, and a change at a third time, or None where something is due before the seal.
fn around_seal<T: Time, U: Counted, O: Operator<T, U>>(
    operator: &mut O,
    first: (T, &Batch<O::Input>),
    second: (T, &Batch<O::Input>),
    seal: T,
    last: (T, &Batch<O::Input>),
    updater: &mut U,
) -> Result<Option<(Batch<O::Output>, Batch<O::Output>, Batch<O::Output>)>, NoMemory>
    requires fresh { IsFresh O.stands O.due O.seal O.spent T.least operator.old }
    requires apart { T.leq second.0 first.0 ≡ false }
    requires last_apart { (T.leq last.0 first.0 ≡ false) × (T.leq last.0 second.0 ≡ false) }
    requires below { IsTrue (T.leq seal last.0) }
{
    first.0.proper();
    second.0.proper();
    seal.proper();
    let one = operator.step(first.0, first.1, updater)?;
    if operator.next_due().is_some() {
        return Ok(None);
    }
    let two = operator.step(second.0, second.1, updater)?;
    if operator.next_due().is_some() {
        return Ok(None);
    }
    operator.seal(seal)?;
    let three = operator.step(last.0, last.1, updater)?;
    Ok(Some((one, two, three)))
}

/// What two steps and one that is due make, when the last comes, and how many evaluations there were.
#[derive(Drop)]
struct Course {
    both: Option<(Made, Made)>,
    last: Option<(Nested, Made)>,
    due: Option<Nested>,
    evaluations: u64,
}

/// A value of key 1 at (0, 1), another at (1, 0), and then what is due.
fn at_apart_times(alloc: Global) -> Result<Course, NoMemory> {
    let mut counts: Counts = Reduce::new(alloc, CountValues);
    let one = batch(alloc, &[((1, 5), Weight(1))])?;
    let other = batch(alloc, &[((1, 6), Weight(1))])?;
    let first = Pair {
        outer: Position(0),
        inner: Round(1),
    };
    let second = Pair {
        outer: Position(1),
        inner: Round(0),
    };
    let both = apart(&mut counts, first, &one, second, &other, &mut NoCalls)?;
    let last = settle(&mut counts, &Batch::empty(alloc), &mut NoCalls)?;
    Ok(Course {
        both,
        last,
        due: counts.next_due(),
        evaluations: counts.evaluations(),
    })
}

#[test]
fn a_bound_of_two_times_is_due(rt: HostRuntime) -> Result<(), Fail> {
    let Course {
        both,
        last,
        due,
        evaluations,
    } = at_apart_times(rt.alloc())?;
    let one = [((1, 1), Weight(1))];
    assert!(rt; have(&both, &one, &one));
    match last {
        Some((t, made)) => {
            assert!(rt; t == at(1, 1));
            assert!(rt; has(&made, &[((1, 1), MINUS_TWO), ((1, 2), Weight(1))]));
        }
        None => assert!(rt; false, "the bound of both times is due"),
    }
    assert!(rt; due.is_none() && evaluations == 3);
    Ok(())
}

/// A value of key 1 at (0, 0), another at (0, 1), a seal at (1, 0), and the other less at (1, 1).
fn around(alloc: Global) -> Result<(Option<(Made, Made, Made)>, u64), NoMemory> {
    let mut counts: Counts = Reduce::new(alloc, CountValues);
    let one = batch(alloc, &[((1, 5), Weight(1))])?;
    let other = batch(alloc, &[((1, 6), Weight(1))])?;
    let less = batch(alloc, &[((1, 6), MINUS_ONE)])?;
    let first = Pair {
        outer: Position(0),
        inner: Round(0),
    };
    let second = Pair {
        outer: Position(0),
        inner: Round(1),
    };
    let seal = Pair {
        outer: Position(1),
        inner: Round(0),
    };
    let last = Pair {
        outer: Position(1),
        inner: Round(1),
    };
    let made = around_seal(
        &mut counts,
        (first, &one),
        (second, &other),
        seal,
        (last, &less),
        &mut NoCalls,
    )?;
    Ok((made, counts.evaluations()))
}

#[test]
fn a_seal_keeps_what_was_made(rt: HostRuntime) -> Result<(), Fail> {
    let (made, evaluations) = around(rt.alloc())?;
    match made {
        Some((one, two, three)) => {
            assert!(rt; has(&one, &[((1, 1), Weight(1))]));
            assert!(rt; has(&two, &[((1, 1), MINUS_ONE), ((1, 2), Weight(1))]));
            assert!(rt; has(&three, &[((1, 1), Weight(1)), ((1, 2), MINUS_ONE)]));
        }
        None => assert!(rt; false, "nothing is due before the seal"),
    }
    assert!(rt; evaluations == 3);
    Ok(())
}
