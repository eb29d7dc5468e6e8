//! One step of a loop: its body, round by round.

ghost use Rattle.std.specs.Prelude.{◌≡◌, ℕ, ◌+◌, ◌-◌, ◌<◌, ◌≤◌, ◌⊎◌, false, IsTrue, List, [], IfOk, OnOk};
ghost use Rattle.weighted.specs.Alike.{Alike};
ghost use Rattle.flow_core.specs.Runs.{Run, Every, Member, times_of};
ghost use Rattle.loop_theory.specs.Loops.{NoOuterAbove};
ghost use Rattle.loop_theory.specs.Underway.{Underway};

use crate::busy::busy_round;
use crate::parts::{moving_batch, moving_part, push_round};
use flow_core::Operator;
use lattice_time::{Pair, Round, Time};
use loop_theory::LoopInput;
use std::alloc::Global;
use surge_outside::{Counted, List, NoMemory, Record};
use weighted::{Batch, Weight};

/// Round 0: feeds the body what came in, adds to the entries what the loop makes at rounds 0 and 1, and answers the
/// change that round 1 is to be fed: what the body made, with the moving part taken away.
fn begin_lap<
    T: Time,
    U: Counted,
    F: Record,
    X: Record,
    B: Operator<Pair<T, Round>, U, Input = LoopInput<F, X>, Output = X>,
>(
    alloc: Global,
    body: &mut B,
    t: T,
    delta: &Batch<LoopInput<F, X>>,
    entries: &mut Vec<((Round, X), Weight)>,
    updater: &mut U,
) -> Result<Batch<X>, NoMemory>
where
    LoopInput<F, X>: Record,
    requires entries { entries.old.items ≡ [] }
    requires run { (run : Run (Pair T Round) (LoopInput F X) X) × B.stands body.old run × NoOuterAbove T.leq t (times_of run.steps) }
    requires due { Every (λ d. IsTrue (T.leq d.outer t) → d.outer ≡ t) (B.due body.old) }
    requires seal { IsTrue (T.leq (B.seal body.old).outer t) }
    requires level { (B.seal body.old).inner.0 ≡ 0 }
    requires live { B.spent body.old ≡ false }
    ensures lap { IfOk result (λ change. Underway T.leq (B.stands body.old) (B.stands body.new) t delta.now 1 change entries.new.items (B.charge body.new - B.charge body.old)) }
    ensures due { OnOk result (Every (λ d. Member d (B.due body.old) ⊎ IsTrue (T.leq t d.outer)) (B.due body.new)) }
    ensures seal { OnOk result (B.seal body.new ≡ B.seal body.old) }
    ensures level { B.spent body.new ≡ false → (B.seal body.new).inner.0 ≡ 0 }
    ensures live { OnOk result (B.spent body.new ≡ false) }
    ensures apply { B.apply body.new ≡ B.apply body.old }
    ensures kept { B.kept body.new ≡ B.kept body.old }
    ensures charge { B.charge body.old ≤ B.charge body.new }
    ensures calls { U.calls updater.old ≤ U.calls updater.new }
    ensures cost { U.calls updater.new + B.charge body.old ≤ U.calls updater.old + B.charge body.new }
{
    let moved = moving_part(alloc, delta)?;
    let time = Pair {
        outer: t,
        inner: Round(0),
    };
    let made = body.step(time, delta, updater)?;
    let gone = moved.negate()?;
    let change = made.add(&gone)?;
    push_round(entries, Round(0), &moved)?;
    push_round(entries, Round(1), &change)?;
    Ok(change)
}

/// All rounds of one step of the loop, and what it makes.
pub(crate) fn take_lap<
    T: Time,
    U: Counted,
    F: Record,
    X: Record,
    B: Operator<Pair<T, Round>, U, Input = LoopInput<F, X>, Output = X>,
>(
    alloc: Global,
    body: &mut B,
    rounds: u32,
    t: T,
    delta: &Batch<LoopInput<F, X>>,
    updater: &mut U,
) -> Result<Batch<(Round, X)>, NoMemory>
where
    LoopInput<F, X>: Record,
    requires rounds { 0 < rounds }
    requires run { (run : Run (Pair T Round) (LoopInput F X) X) × B.stands body.old run × NoOuterAbove T.leq t (times_of run.steps) }
    requires due { Every (λ d. IsTrue (T.leq d.outer t) → d.outer ≡ t) (B.due body.old) }
    requires seal { IsTrue (T.leq (B.seal body.old).outer t) }
    requires level { (B.seal body.old).inner.0 ≡ 0 }
    requires live { B.spent body.old ≡ false }
    ensures lap { IfOk result (λ made. (change : List (X × ℕ)) × Underway T.leq (B.stands body.old) (B.stands body.new) t delta.now rounds change made (B.charge body.new - B.charge body.old)) }
    ensures due { OnOk result (Every (λ d. Member d (B.due body.old) ⊎ IsTrue (T.leq t d.outer)) (B.due body.new)) }
    ensures seal { OnOk result (B.seal body.new ≡ B.seal body.old) }
    ensures level { B.spent body.new ≡ false → (B.seal body.new).inner.0 ≡ 0 }
    ensures live { OnOk result (B.spent body.new ≡ false) }
    ensures apply { B.apply body.new ≡ B.apply body.old }
    ensures kept { B.kept body.new ≡ B.kept body.old }
    ensures charge { B.charge body.old ≤ B.charge body.new }
    ensures calls { U.calls updater.old ≤ U.calls updater.new }
    ensures cost { U.calls updater.new + B.charge body.old ≤ U.calls updater.old + B.charge body.new }
{
    let mut entries = Vec::new(alloc);
    let mut change = begin_lap(alloc, body, t, delta, &mut entries, updater)?;
    let mut round = busy_round(body, t, 1, rounds, &change);
    while round < rounds {
        let feed = moving_batch(alloc, &change)?;
        let time = Pair {
            outer: t,
            inner: Round(round),
        };
        let made = body.step(time, &feed, updater)?;
        push_round(&mut entries, Round(round + 1), &made)?;
        let next = busy_round(body, t, round + 1, rounds, &made);
        change = made;
        round = next;
    }
    Batch::from_entries(List::from_vec(entries))
}
