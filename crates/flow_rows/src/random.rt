//! Runs at random times.

ghost use Rattle.std.specs.Prelude.{◌≡◌, false, IfOk, OnOk};
ghost use Rattle.std.specs.Option.{IfSome};
ghost use Rattle.flow_core.specs.Runs.{IsFresh};
ghost use Rattle.flow_rows.specs.Driven.{Drives};

use crate::drive::{take_seal, take_step};
use crate::grid::Grid;
use crate::history::{Draws, Reference, Timed, drawn, note, same, sum_to};
use flow_core::Operator;
use lattice_time::Time;
use std::alloc::Global;
use surge_outside::{Counted, List, NoMemory, Record};
use weighted::Batch;

/// All that an operator was fed and made.
#[derive(Drop)]
pub struct History<T: Time, I: Record, O: Record> {
    pub fed: List<Timed<T, I>>,
    pub made: List<Timed<T, O>>,
}

/// Steps the operator at a time that is drawn or due, with a batch that is drawn, if its contract allows that.
fn turn<T: Grid, U: Counted, O: Operator<T, U>, E: Reference<Input = O::Input, Output = O::Output>>(
    alloc: Global,
    operator: &mut O,
    reference: &E,
    draws: &mut Draws,
    times: &mut List<T>,
    seal: T,
    history: &mut History<T, O::Input, O::Output>,
    updater: &mut U,
) -> Result<(), NoMemory>
    requires { Drives O.stands O.seal O.spent operator.old times.old seal }
    ensures { OnOk result (Drives O.stands O.seal O.spent operator.new times.new seal) }
{
    let mut t = T::drawn(draws);
    if let Some(due) = operator.next_due() {
        if draws.draw(2) == 0 {
            t = due;
        }
    }
    let delta = drawn(alloc, reference, draws)?;
    let made = take_step(operator, times, seal, t, &delta, updater)?;
    if let Some(made) = made {
        note(&mut history.fed, &delta, t)?;
        note(&mut history.made, &made, t)?;
    }
    Ok(())
}

/// Steps the operator where it is due, until nothing is, and so many times at most.
fn settle<T: Grid, U: Counted, O: Operator<T, U>>(
    alloc: Global,
    operator: &mut O,
    times: &mut List<T>,
    seal: T,
    history: &mut History<T, O::Input, O::Output>,
    updater: &mut U,
) -> Result<(), NoMemory>
    requires { Drives O.stands O.seal O.spent operator.old times.old seal }
    ensures { OnOk result (Drives O.stands O.seal O.spent operator.new times.new seal) }
{
    let nothing = Batch::empty(alloc);
    for _ in 0..100 {
        let Some(t) = operator.next_due() else {
            return Ok(());
        };
        if let Some(made) = take_step(operator, times, seal, t, &nothing, updater)? {
            note(&mut history.made, &made, t)?;
        }
    }
    Ok(())
}

/// Whether what was made is the function of what was fed, at each time of the grid at or above the seal.
fn holds<T: Grid, E: Reference>(
    alloc: Global,
    reference: &E,
    history: &History<T, E::Input, E::Output>,
    seal: T,
) -> Result<bool, NoMemory> {
    let times = T::all(alloc)?;
    for t in times.as_slice() {
        if seal.leq(t) {
            let fed = sum_to(alloc, &history.fed, *t)?;
            let made = sum_to(alloc, &history.made, *t)?;
            if !same(&made, &reference.output(alloc, &fed)?) {
                return Ok(false);
            }
        }
    }
    Ok(true)
}

/// Some turns, then steps until nothing is due, then a seal: whether all that was made is right before it and after it.
fn phase<
    T: Grid,
    U: Counted,
    O: Operator<T, U>,
    E: Reference<Input = O::Input, Output = O::Output>,
>(
    alloc: Global,
    operator: &mut O,
    reference: &E,
    draws: &mut Draws,
    times: &mut List<T>,
    seal: T,
    history: &mut History<T, O::Input, O::Output>,
    updater: &mut U,
) -> Result<Option<T>, NoMemory>
    requires { Drives O.stands O.seal O.spent operator.old times.old seal }
    ensures { IfOk result (λ sealed. IfSome sealed (λ f. Drives O.stands O.seal O.spent operator.new times.new f)) }
{
    for _ in 0..20 {
        turn(
            alloc, operator, reference, draws, times, seal, history, updater,
        )?;
    }
    settle(alloc, operator, times, seal, history, updater)?;
    if operator.next_due().is_some() || !holds(alloc, reference, history, seal)? {
        return Ok(None);
    }
    let f = seal.lub(&T::drawn(draws));
    Ok(Some(take_seal(operator, times, seal, f)?))
}

/// A run of three phases from this seed, over a new operator: how many steps it took, and None where something that was
/// made is wrong.
pub fn run<
    T: Grid,
    U: Counted,
    O: Operator<T, U>,
    E: Reference<Input = O::Input, Output = O::Output>,
>(
    alloc: Global,
    operator: &mut O,
    reference: &E,
    seed: u64,
    updater: &mut U,
) -> Result<Option<usize>, NoMemory>
    requires { IsFresh O.stands O.due O.seal O.spent T.least operator.old }
{
    let mut draws = Draws { state: seed };
    let mut times = List::new(alloc);
    let mut seal = T::least();
    let mut history = History {
        fed: List::new(alloc),
        made: List::new(alloc),
    };
    for _ in 0..3 {
        let sealed = phase(
            alloc,
            operator,
            reference,
            &mut draws,
            &mut times,
            seal,
            &mut history,
            updater,
        )?;
        match sealed {
            Some(f) => seal = f,
            None => return Ok(None),
        }
    }
    Ok(Some(times.len()))
}
