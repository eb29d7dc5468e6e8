//! Steps and seals at times that are only known when they come.

ghost use Rattle.std.specs.Prelude.{◌≡◌, false, IsTrue, OnOk, IfOk};
ghost use Rattle.flow_core.specs.Runs.{IsFresh, NoneAbove, Every};
ghost use Rattle.flow_rows.specs.Driven.{Drives};

use crate::history::{Timed, note};
use flow_core::Operator;
use lattice_time::Time;
use std::alloc::Global;
use surge_outside::{Counted, List, NoMemory, Record};
use weighted::Batch;

/// What is fed at a time.
#[derive(Drop)]
pub struct Fed<T: Time, I: Record> {
    pub at: T,
    pub delta: Batch<I>,
}

/// Whether no earlier time is at or above this one.
pub fn may_step<T: Time>(times: &[T], t: T) -> bool
    ensures { IsTrue result → NoneAbove T.leq t times.now }
{
    for s in times {
        if t.leq(s) {
            return false;
        }
    }
    true
}

// Whether nothing is due before this time in the total order.
fn is_next<T: Time, U: Counted, O: Operator<T, U>>(operator: &O, t: T) -> bool
    requires { O.spent operator.now ≡ false }
    ensures { IsTrue result → Every (λ d. IsTrue (T.leq d t) → d ≡ t) (O.due operator.now) }
{
    match operator.next_due() {
        Some(due) => due.cmp(&t).is_ge(),
        None => true,
    }
}

/// Steps the operator at a time, if its contract allows that; None where it doesn't.
pub fn take_step<T: Time, U: Counted, O: Operator<T, U>>(
    operator: &mut O,
    times: &mut List<T>,
    seal: T,
    t: T,
    delta: &Batch<O::Input>,
    updater: &mut U,
) -> Result<Option<Batch<O::Output>>, NoMemory>
    requires { Drives O.stands O.seal O.spent operator.old times.old seal }
    ensures { OnOk result (Drives O.stands O.seal O.spent operator.new times.new seal) }
{
    if !seal.leq(&t) || !may_step(times.as_slice(), t) || !is_next(operator, t) {
        return Ok(None);
    }
    let made = operator.step(t, delta, updater)?;
    times.push(t)?;
    Ok(Some(made))
}

/// Seals the operator at a time, if its contract allows that, and answers the seal.
pub fn take_seal<T: Time, U: Counted, O: Operator<T, U>>(
    operator: &mut O,
    times: &List<T>,
    seal: T,
    f: T,
) -> Result<T, NoMemory>
    requires { Drives O.stands O.seal O.spent operator.old times.now seal }
    ensures { IfOk result (λ seal. Drives O.stands O.seal O.spent operator.new times.now seal) }
{
    if operator.next_due().is_some() || !seal.leq(&f) {
        return Ok(seal);
    }
    operator.seal(f)?;
    Ok(f)
}

// Seals the operator at a time, if that is asked and its contract allows it, and answers the seal.
fn take_seal_if<T: Time, U: Counted, O: Operator<T, U>>(
    operator: &mut O,
    times: &List<T>,
    seal: T,
    f: T,
    asked: bool,
) -> Result<T, NoMemory>
    requires { Drives O.stands O.seal O.spent operator.old times.now seal }
    ensures { IfOk result (λ seal. Drives O.stands O.seal O.spent operator.new times.now seal) }
{
    if !asked {
        return Ok(seal);
    }
    take_seal(operator, times, seal, f)
}

/// Steps a new operator through changes, one behind the other, and seals it behind each where that is asked: what it
/// made, each entry with its time, or None where its contract doesn't allow a step.
pub fn driven<T: Time, U: Counted, O: Operator<T, U>>(
    alloc: Global,
    operator: &mut O,
    changes: &[Fed<T, O::Input>],
    seals: bool,
    updater: &mut U,
) -> Result<Option<List<Timed<T, O::Output>>>, NoMemory>
    requires { IsFresh O.stands O.due O.seal O.spent T.least operator.old }
{
    let mut times = List::new(alloc);
    let mut seal = T::least();
    let mut made: List<Timed<T, O::Output>> = List::new(alloc);
    for change in changes {
        let t = change.at;
        let Some(new) = take_step(operator, &mut times, seal, t, &change.delta, updater)? else {
            return Ok(None);
        };
        note(&mut made, &new, t)?;
        seal = take_seal_if(operator, &times, seal, t, seals)?;
    }
    Ok(Some(made))
}
