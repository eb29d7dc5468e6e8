//! Steps and seals of any operator, through functions that know of it only that it is one.

ghost use Rattle.std.specs.Prelude.{◌≡◌, ◌++◌, false, IsTrue, IfOk, OnOk};
ghost use Rattle.std.specs.Option.{IfSome};
ghost use Rattle.weighted.specs.Alike.{Alike};
ghost use Rattle.flow_core.specs.Runs.{Run, IsFresh};

use flow_core::Operator;
use lattice_time::Time;
use surge_outside::{Counted, NoMemory};
use weighted::Batch;

/// The first step of a new operator makes its function of what it is fed.
pub(crate) fn first_step<T: Time, U: Counted, O: Operator<T, U>>(
    operator: &mut O,
    t: T,
    delta: &Batch<O::Input>,
    updater: &mut U,
) -> Result<Batch<O::Output>, NoMemory>
    requires { IsFresh O.stands O.due O.seal O.spent T.least operator.old }
    ensures { IfOk result (λ made. Alike made (O.apply operator.old delta.now)) }
{
    t.proper();
    operator.step(t, delta, updater)
}

/// Two steps with a seal between them, or None where something is due after the first: what both make sums to the
/// function of what both were fed.
pub(crate) fn in_turn<T: Time, U: Counted, O: Operator<T, U>>(
    operator: &mut O,
    first: T,
    delta: &Batch<O::Input>,
    second: T,
    more: &Batch<O::Input>,
    updater: &mut U,
) -> Result<Option<(Batch<O::Output>, Batch<O::Output>)>, NoMemory>
    requires fresh { IsFresh O.stands O.due O.seal O.spent T.least operator.old }
    requires below { IsTrue (T.leq first second) }
    requires apart { T.leq second first ≡ false }
    ensures { IfOk result (λ made. IfSome made (λ both. Alike (both.0 ++ both.1) (O.apply operator.old (delta.now ++ more.now)))) }
{
    first.proper();
    second.proper();
    let early = operator.step(first, delta, updater)?;
    if operator.next_due().is_some() {
        return Ok(None);
    }
    operator.seal(second)?;
    let late = operator.step(second, more, updater)?;
    Ok(Some((early, late)))
}

/// Steps at two times of which the second is not at or below the first, or None where something is due between them.
pub(crate) fn apart<T: Time, U: Counted, O: Operator<T, U>>(
    operator: &mut O,
    first: T,
    delta: &Batch<O::Input>,
    second: T,
    more: &Batch<O::Input>,
    updater: &mut U,
) -> Result<Option<(Batch<O::Output>, Batch<O::Output>)>, NoMemory>
    requires fresh { IsFresh O.stands O.due O.seal O.spent T.least operator.old }
    requires apart { T.leq second first ≡ false }
    ensures run { OnOk result ((run : Run T O.Input O.Output) × O.stands operator.new run) }
    ensures live { OnOk result (O.spent operator.new ≡ false) }
{
    first.proper();
    second.proper();
    let early = operator.step(first, delta, updater)?;
    if operator.next_due().is_some() {
        return Ok(None);
    }
    let late = operator.step(second, more, updater)?;
    Ok(Some((early, late)))
}

/// One more step with no change, at the least time that is due, or None where nothing is.
pub(crate) fn settle<T: Time, U: Counted, O: Operator<T, U>>(
    operator: &mut O,
    nothing: &Batch<O::Input>,
    updater: &mut U,
) -> Result<Option<(T, Batch<O::Output>)>, NoMemory>
    requires run { (run : Run T O.Input O.Output) × O.stands operator.old run }
    requires live { O.spent operator.old ≡ false }
    ensures { OnOk result (O.spent operator.new ≡ false) }
{
    match operator.next_due() {
        Some(t) => {
            let made = operator.step(t, nothing, updater)?;
            Ok(Some((t, made)))
        }
        None => Ok(None),
    }
}
