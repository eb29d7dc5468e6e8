//! An operator that is stepped at one position after another, with the sum of what it made.

ghost use Rattle.std.specs.Prelude.{◌≡◌, ◌<◌, ◌+◌, ◌^◌, ℕ, List, [], ◌++◌, IfOk, OnOk};
ghost use Rattle.weighted.specs.Alike.{Alike};
ghost use Rattle.weighted.specs.Batches.{IsBatch};
ghost use Rattle.flow_core.specs.Runs.{IsFresh};
ghost use Rattle.aggregate_views.specs.Keeping.{IsFed};

use crate::held::Held;
use flow_core::{NoCalls, Operator, lawful, settled};
use lattice_time::{Position, Time};
use std::alloc::Global;
use surge_outside::NoMemory;
use weighted::Batch;

/// An operator, the position of its last step, the sum of what it made, and how many entries it was fed since its seal.
#[derive(Drop)]
pub(crate) struct Kept<O: Operator<Position, NoCalls>> {
    operator: O,
    at: u32,
    held: Held<O::Output>,
    unsealed: usize,
}

impl<O: Operator<Position, NoCalls>> Kept<O> {
    /// Over an operator that was not stepped yet. It takes no memory.
    pub(crate) fn new(alloc: Global, operator: O) -> Kept<O>
        requires { IsFresh O.stands O.due O.seal O.spent ⟦<Position as Time>⟧.least operator }
        ensures fed { IsFed O.stands O.due O.seal O.spent result.operator result.at result.held [] }
        ensures at { result.at ≡ 0 }
        ensures apply { O.apply result.operator ≡ O.apply operator }
    {
        Kept {
            operator,
            at: 0,
            held: Held::new(alloc),
            unsealed: 0,
        }
    }

    /// Feeds a change. The one error is want of memory.
    pub(crate) fn feed(&mut self, delta: &Batch<O::Input>) -> Result<(), NoMemory>
        requires fed { (fed : List (O.Input × ℕ)) × IsFed O.stands O.due O.seal O.spent self.old.operator self.old.at self.old.held fed }
        requires room { self.old.at + 1 < 2 ^ 32 }
        ensures fed { OnOk result ((fed : List (O.Input × ℕ)) → IsFed O.stands O.due O.seal O.spent self.old.operator self.old.at self.old.held fed → IsFed O.stands O.due O.seal O.spent self.new.operator self.new.at self.new.held (fed ++ delta.now)) }
        ensures at { OnOk result (self.new.at ≡ self.old.at + 1) }
        ensures apply { O.apply self.new.operator ≡ O.apply self.old.operator }
    {
        let t = Position(self.at + 1);
        let made = self.operator.step(t, delta, &mut NoCalls)?;
        settled(&self.operator);
        self.held.add(made)?;
        self.at += 1;
        self.unsealed = self.unsealed.saturating_add(delta.len());
        self.rest()?;
        Ok(())
    }

    /// Seals the operator, so that it puts together what it keeps, where it was fed at least as many entries since the
    /// last seal as are held: a seal goes through all that it keeps. The one error is want of memory.
    fn rest(&mut self) -> Result<(), NoMemory>
        requires { (fed : List (O.Input × ℕ)) × IsFed O.stands O.due O.seal O.spent self.old.operator self.old.at self.old.held fed }
        ensures fed { OnOk result ((fed : List (O.Input × ℕ)) → IsFed O.stands O.due O.seal O.spent self.old.operator self.old.at self.old.held fed → IsFed O.stands O.due O.seal O.spent self.new.operator self.new.at self.new.held fed) }
        ensures at { self.new.at ≡ self.old.at }
        ensures apply { O.apply self.new.operator ≡ O.apply self.old.operator }
    {
        if self.unsealed < self.held.len() {
            return Ok(());
        }
        self.operator.seal(Position(self.at))?;
        self.unsealed = 0;
        Ok(())
    }

    /// The sum of what was made, in normal form: the function of what was fed.
    ///
    /// Errors: out of memory.
    pub(crate) fn held(&self) -> Result<Batch<O::Output>, NoMemory>
        ensures batch { IfOk result (λ held. IsBatch O.Output.cmp held) }
        ensures alike { IfOk result (λ held. (fed : List (O.Input × ℕ)) → IsFed O.stands O.due O.seal O.spent self.now.operator self.now.at self.now.held fed → Alike held (O.apply self.now.operator fed)) }
    {
        lawful(&self.operator);
        let sum = self.held.sum()?;
        Ok(sum)
    }
}
