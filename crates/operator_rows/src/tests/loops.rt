//! Worked examples of loops, through functions that know of a loop only that it is an operator.

ghost use Rattle.std.specs.Prelude.{◌≡◌, ◌≤◌, false, IsTrue};
ghost use Rattle.flow_core.specs.Runs.{IsFresh};
ghost use Rattle.operator_rows.specs.Rows.{next_or_same, next_up_to_five};

use crate::tests::inputs::{has, once_each};
use diff_iterate::{Iterate, LoopInput};
use flow_core::{Each, Map, NoCalls, Operator};
use lattice_time::{Pair, Position, Round, Time, Version};
use std::alloc::Global;
use std::test::Fail;
use surge_outside::{Counted, NoMemory};
use weighted::{Batch, Weight};

/// The next number of a moving one, and a fixed one as it is.
#[derive(Drop)]
struct Next;

impl Each<LoopInput<u32, u32>, u32> for Next {
    ghost gives = { λ _ input. next_or_same input };

    fn apply(&self, input: LoopInput<u32, u32>) -> u32 {
        match input {
            LoopInput::Fixed(x) => x,
            LoopInput::Moving(x) => x.wrapping_add(1),
        }
    }
}

/// The next number of a moving one, but no more than five.
#[derive(Drop)]
struct UpToFive;

impl Each<LoopInput<u32, u32>, u32> for UpToFive {
    ghost gives = { λ _ input. next_up_to_five input };

    fn apply(&self, input: LoopInput<u32, u32>) -> u32 {
        match input {
            LoopInput::Fixed(x) => x,
            LoopInput::Moving(x) => x.wrapping_add(1).min(5),
        }
    }
}

/// A map as the body of a loop.
type Body<E, T> = Map<E, LoopInput<u32, u32>, u32, Pair<T, Round>, NoCalls>;

/// A loop of a map.
fn looped<E: Each<LoopInput<u32, u32>, u32>, T: Time>(
    alloc: Global,
    each: E,
    rounds: u32,
) -> Iterate<Body<E, T>, T, NoCalls>
    requires some { 1 ≤ rounds }
    requires few { rounds ≤ 1000000 }
    ensures { let it = ⟦<Iterate<Body<E, T>, T, NoCalls> as Operator<T, NoCalls>>⟧ in IsFresh it.stands it.due it.seal it.spent T.least result }
{
    let body: Body<E, T> = Map::new(alloc, each);
    Iterate::new(alloc, body, rounds)
}

/// A step of a new operator, and a seal behind it, or None where something is due after the step.
fn step_and_seal<T: Time, U: Counted, O: Operator<T, U>>(
    operator: &mut O,
    t: T,
    delta: &Batch<O::Input>,
    f: T,
    updater: &mut U,
) -> Result<Option<Batch<O::Output>>, NoMemory>
    requires { IsFresh O.stands O.due O.seal O.spent T.least operator.old }
{
    t.proper();
    f.proper();
    let made = operator.step(t, delta, updater)?;
    if operator.next_due().is_some() {
        return Ok(None);
    }
    operator.seal(f)?;
    Ok(Some(made))
}

/// Three steps of a new operator, or None where something is due between them.
fn three_steps<T: Time, U: Counted, O: Operator<T, U>>(
    operator: &mut O,
    times: (T, T, T),
    deltas: (&Batch<O::Input>, &Batch<O::Input>, &Batch<O::Input>),
    updater: &mut U,
) -> Result<Option<(Batch<O::Output>, Batch<O::Output>, Batch<O::Output>)>, NoMemory>
    requires fresh { IsFresh O.stands O.due O.seal O.spent T.least operator.old }
    requires second { T.leq times.1 times.0 ≡ false }
    requires third { T.leq times.2 times.0 ≡ false }
    requires last { T.leq times.2 times.1 ≡ false }
{
    times.0.proper();
    times.1.proper();
    times.2.proper();
    let first = operator.step(times.0, deltas.0, updater)?;
    if operator.next_due().is_some() {
        return Ok(None);
    }
    let second = operator.step(times.1, deltas.1, updater)?;
    if operator.next_due().is_some() {
        return Ok(None);
    }
    let third = operator.step(times.2, deltas.2, updater)?;
    Ok(Some((first, second, third)))
}

/// A record at a round, that comes.
fn comes(round: u32, x: u32) -> ((Round, u32), Weight) {
    ((Round(round), x), Weight(1))
}

/// A record at a round, that goes.
fn goes(round: u32, x: u32) -> ((Round, u32), Weight) {
    ((Round(round), x), Weight(u64::MAX))
}

/// Whether a loop that starts with one number makes this, where it is stepped once and sealed.
fn makes<E: Each<LoopInput<u32, u32>, u32> + Drop>(
    alloc: Global,
    each: E,
    rounds: u32,
    start: u32,
    wanted: &[((Round, u32), Weight)],
) -> Result<bool, NoMemory>
    requires some { 1 ≤ rounds }
    requires few { rounds ≤ 1000000 }
{
    let delta = once_each(alloc, &[LoopInput::Moving(start)])?;
    let mut steps = looped::<E, Position>(alloc, each, rounds);
    let made = step_and_seal(&mut steps, Position(0), &delta, Position(1), &mut NoCalls)?;
    match made {
        Some(made) => Ok(has(&made, wanted) && !steps.is_spent()),
        None => Ok(false),
    }
}

#[test]
fn two_rounds_and_a_seal(rt: HostRuntime) -> Result<(), Fail> {
    let wanted = [
        comes(0, 0),
        goes(1, 0),
        comes(1, 1),
        goes(2, 1),
        comes(2, 2),
    ];
    assert!(rt; makes(rt.alloc(), Next, 2, 0, &wanted)?);
    Ok(())
}

#[test]
fn rounds_after_the_last_change_cost_nothing(rt: HostRuntime) -> Result<(), Fail> {
    let wanted = [
        comes(0, 3),
        goes(1, 3),
        comes(1, 4),
        goes(2, 4),
        comes(2, 5),
    ];
    assert!(rt; makes(rt.alloc(), UpToFive, 1_000_000, 3, &wanted)?);
    Ok(())
}

/// A time of an outer dataflow that has two counts.
type Outer = Pair<Version, Position>;

/// What steps of one number each make.
type Made = Batch<(Round, u32)>;

/// A moving number at (0, 1), a fixed one at (1, 0), and nothing at (1, 1).
fn at_apart_times(alloc: Global) -> Result<Option<(Made, Made, Made)>, NoMemory> {
    let moving = once_each(alloc, &[LoopInput::Moving(0)])?;
    let fixed = once_each(alloc, &[LoopInput::Fixed(5)])?;
    let nothing = Batch::empty(alloc);
    let mut steps = looped::<Next, Outer>(alloc, Next, 1);
    let first = Pair {
        outer: Version(0),
        inner: Position(1),
    };
    let second = Pair {
        outer: Version(1),
        inner: Position(0),
    };
    let third = Pair {
        outer: Version(1),
        inner: Position(1),
    };
    three_steps(
        &mut steps,
        (first, second, third),
        (&moving, &fixed, &nothing),
        &mut NoCalls,
    )
}

#[test]
fn times_that_are_not_comparable(rt: HostRuntime) -> Result<(), Fail> {
    match at_apart_times(rt.alloc())? {
        Some((first, second, third)) => {
            assert!(rt; has(&first, &[comes(0, 0), goes(1, 0), comes(1, 1)]));
            assert!(rt; has(&second, &[comes(1, 5)]));
            assert!(rt; third.is_empty());
        }
        None => assert!(rt; false, "nothing is due to a loop of a map"),
    }
    Ok(())
}
