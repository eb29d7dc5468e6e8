//! Which rounds of a lap need to be taken.

ghost use Rattle.std.specs.Prelude.{◌≡◌, ℕ, ◌<◌, ◌≤◌, false, []};
ghost use Rattle.std.specs.declared.cmp.Ordering.TheVariants.{Greater};
ghost use Rattle.std.specs.Ordering.{nat_cmp, ordering_then};
ghost use Rattle.flow_core.specs.Runs.{NoneBelow};
ghost use Rattle.loop_theory.specs.Loops.{pair_leq, pair_of};

use flow_core::Operator;
use lattice_time::{Pair, Round, Time};
use std::cmp::Ordering;
use surge_outside::{Counted, Record};
use weighted::Batch;

/// The first round at `t`, from `round` on, that is not below the least due time in the order of a dictionary; `rounds`
/// where there is none before it.
fn due_round<T: Time>(due: Pair<T, Round>, t: T, round: u32, rounds: u32) -> u32
    requires { round ≤ rounds }
    ensures from { round ≤ result }
    ensures to { result ≤ rounds }
    ensures before { (k : ℕ) → round ≤ k → k < result → ordering_then (T.cmp due.outer t) (nat_cmp due.inner.0 k) ≡ Greater }
{
    match due.outer.cmp(&t) {
        Ordering::Less => round,
        Ordering::Equal => due.inner.0.min(rounds).max(round),
        Ordering::Greater => rounds,
    }
}

/// The first round at `t`, from `round` on, that has to be taken: `round` where the change isn't empty, else the first
/// at which the body may have something due, and `rounds` where there is none. Rounds before it can be skipped.
pub(crate) fn busy_round<
    T: Time,
    U: Counted,
    X: Record,
    B: Operator<Pair<T, Round>, U, Output = X>,
>(body: &B, t: T, round: u32, rounds: u32, change: &Batch<X>) -> u32
    requires low { round ≤ rounds }
    requires live { B.spent body.now ≡ false }
    ensures from { round ≤ result }
    ensures to { result ≤ rounds }
    ensures empty { round < result → change.now ≡ [] }
    ensures idle { (k : ℕ) → round ≤ k → k < result → NoneBelow (pair_leq T.leq) (pair_of t k) (B.due body.now) }
{
    if !change.is_empty() {
        return round;
    }
    match body.next_due() {
        Some(due) => due_round(due, t, round, rounds),
        None => rounds,
    }
}
