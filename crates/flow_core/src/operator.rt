//! What an operator is.

ghost use Rattle.std.specs.Prelude.{◌≡◌, ℕ, ◌+◌, ◌-◌, ◌≤◌, ◌⊎◌, Bool, true, false, IsTrue, List, [], IfOk, OnOk, OnErr};
ghost use Rattle.weighted.specs.Alike.{Alike};
ghost use Rattle.flow_core.specs.Runs.{Run, continued, sealed, times_of, Every, Member, NoneAbove, NoneBelow, Answers, IsNextDue};

use lattice_time::Time;
use surge_outside::{Counted, NoMemory, Record};
use weighted::Batch;

/// What turns changes of a collection, at partially ordered times, into changes of a function of it (McSherry, Murray,
/// Isaacs and Isard, "Differential dataflow", 2013). `T` is the type of its times and `U` that of the updater which its
/// steps may call.
///
/// Its caller steps it at times of which none is at or below an earlier one. A time is due where the operator must be
/// stepped once more, with or without a change, before what it made answers to what it was fed: each due time is a
/// least upper bound of times of steps. The seal is a time below which no step comes any more, so that an operator may
/// put together what it keeps of earlier times.
///
/// Contracts speak of the runs for which an operator stands: lists of steps, each with its time, what was fed, what was
/// made, and by how much the charge rose. The operator need not store them; for each run for which it stood before a
/// call, the contract names the run for which it stands afterwards.
pub trait Operator<T: Time, U: Counted> {
    /// What it is fed.
    type Input: Record;

    /// What it makes.
    type Output: Record;

    /// Holds of the runs for which it stands.
    ghost stands: { Self → Run T Self.Input Self.Output → Type 0 };

    /// The times that are due.
    ghost due: { Self → List T };

    /// The seal.
    ghost seal: { Self → T };

    /// The function, from the sum of what was fed to the sum of what is made.
    ghost apply: { Self → List (Self.Input × ℕ) → List (Self.Output × ℕ) };

    /// What tells the functions of its parts: its own function, where no part is to be seen.
    ghost Kept: { Type 0 } = { List (Self.Input × ℕ) → List (Self.Output × ℕ) };

    /// The functions of its parts, which a step and a seal leave as they are.
    ghost kept: { Self → Self.Kept };

    /// What its steps were charged so far: a number for contracts alone, that bounds the calls of the updater.
    ghost charge: { Self → ℕ };

    /// Whether it answered an error, so that it may not be used again.
    ghost spent: { Self → Bool };

    /// Feeds a change at time `t`, and answers the change that is made at `t`.
    ///
    /// The caller owes that there is a run for which it stands with no time at or above `t`, that nothing is due at or
    /// below `t` but perhaps `t` itself, that the seal is at or below `t`, and that it isn't spent.
    ///
    /// Errors: out of memory; the operator is spent then.
    fn step(
        &mut self,
        t: T,
        delta: &Batch<Self::Input>,
        updater: &mut U,
    ) -> Result<Batch<Self::Output>, NoMemory>
        requires run { (run : Run T Self.Input Self.Output) × stands self.old run × NoneAbove T.leq t (times_of run.steps) }
        requires due { Every (λ d. IsTrue (T.leq d t) → d ≡ t) (due self.old) }
        requires seal { IsTrue (T.leq (seal self.old) t) }
        requires live { spent self.old ≡ false }
        ensures runs { IfOk result (λ made. (run : Run T Self.Input Self.Output) → stands self.old run → NoneAbove T.leq t (times_of run.steps) → stands self.new (continued run t delta.now made (charge self.new - charge self.old))) }
        ensures due { OnOk result (Every (λ d. Member d (due self.old) ⊎ IsTrue (T.leq t d)) (due self.new)) }
        ensures seal { OnOk result (seal self.new ≡ seal self.old) }
        ensures live { OnOk result (spent self.new ≡ false) }
        ensures spent { OnErr result (spent self.new ≡ true) }
        ensures apply { apply self.new ≡ apply self.old }
        ensures kept { Self.kept self.new ≡ Self.kept self.old }
        ensures charge { charge self.old ≤ charge self.new }
        ensures calls { U.calls updater.old ≤ U.calls updater.new }
        ensures cost { U.calls updater.new + charge self.old ≤ U.calls updater.old + charge self.new };

    /// The least due time in the total order of `Ord`, and None exactly where nothing is due. It takes no memory.
    fn next_due(&self) -> Option<T>
        requires { spent self.now ≡ false }
        ensures { IsNextDue T.cmp result (due self.now) };

    /// Promises that no step comes below `f` any more. The operator stands for the same runs, and answers for them at
    /// each time at or above `f`.
    ///
    /// The caller owes that the old seal is at or below `f`, that nothing is due, and that it isn't spent.
    ///
    /// Errors: out of memory; the operator is spent then.
    fn seal(&mut self, f: T) -> Result<(), NoMemory>
        requires seal { IsTrue (T.leq (seal self.old) f) }
        requires due { due self.old ≡ [] }
        requires live { spent self.old ≡ false }
        ensures runs { OnOk result ((run : Run T Self.Input Self.Output) → stands self.old run → stands self.new (sealed run (charge self.old))) }
        ensures seal { OnOk result (seal self.new ≡ f) }
        ensures due { OnOk result (due self.new ≡ []) }
        ensures live { OnOk result (spent self.new ≡ false) }
        ensures spent { OnErr result (spent self.new ≡ true) }
        ensures apply { apply self.new ≡ apply self.old }
        ensures kept { Self.kept self.new ≡ Self.kept self.old }
        ensures charge { charge self.new ≡ charge self.old };

    /// Whether it answered an error. It takes no memory.
    fn is_spent(&self) -> bool
        ensures { result ≡ spent self.now };

    /// What holds of each run for which it stands: at each time at or above the seal with nothing due at or below it,
    /// what was made sums to the function of the sum of what was fed; each due time is a least upper bound of times of
    /// the run, at or above the seal; no due time is at or below a time of the run.
    ghost answers: { (operator : Self) (run : Run T Self.Input Self.Output) → stands operator run → Answers T.leq T.lub (apply operator) (seal operator) (due operator) run };

    /// One collection has one function.
    ghost respects: { (operator : Self) (xs ys : List (Self.Input × ℕ)) → Alike xs ys → Alike (apply operator xs) (apply operator ys) };

    /// Where nothing is due at or below a time, a step there that is fed nothing makes nothing, is charged nothing and
    /// need not be taken.
    ghost idle: { (operator : Self) (run : Run T Self.Input Self.Output) (t : T) → stands operator run → NoneAbove T.leq t (times_of run.steps) → IsTrue (T.leq (seal operator) t) → NoneBelow T.leq t (due operator) → stands operator (continued run t [] [] 0) };

    /// What was charged up to the seal is no more than what was charged so far.
    ghost paid: { (operator : Self) (run : Run T Self.Input Self.Output) → stands operator run → run.base ≤ charge operator };
}
