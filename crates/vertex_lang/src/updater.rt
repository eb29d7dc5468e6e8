//! Who computes an update.

ghost use Rattle.std.specs.Prelude.{◌≡◌, ◌<◌, ◌^◌, ◌+◌, ◌⊎◌, ℕ};
ghost use Rattle.graph_model.specs.declared.value.Val.{Val};
ghost use Rattle.vertex_lang.specs.declared.program.Program.{Program};
ghost use Rattle.vertex_lang.specs.Values.{lowest, lowest_number};
ghost use Rattle.vertex_lang.specs.Leaves.{IsUpdate, HoldsNumber};
ghost use Rattle.vertex_lang.specs.Expressions.{Answer, updated};

use crate::evaluate::evaluate;
use crate::program::Program;
use crate::words::{Properties, Words};
use graph_model::Val;
use std::sync::ledger::Ledger;
use surge_outside::{Counted, Steps};

/// The value of the update expression of a program, for a node of this id (below 2^63) with this start, value and
/// gathered value, that got so many messages (below 2^32). It is the number -(2^63) only where the program or one of the
/// three values holds that number. It takes one step, and no memory.
pub fn eval<L: Ledger>(
    program: &Program,
    id: u64,
    start: Val,
    value: Val,
    gathered: Val,
    count: u64,
    steps: &mut Steps<L>,
) -> Val
    requires program { IsUpdate program.now }
    requires id { id < 2 ^ 63 }
    requires count { count < 2 ^ 32 }
    ensures answer { result ≡ updated program.now id start value gathered count }
    ensures lowest { result ≡ lowest → HoldsNumber program.now lowest_number ⊎ ((start ≡ lowest) ⊎ ((value ≡ lowest) ⊎ (gathered ≡ lowest))) }
    ensures step { steps.new ≡ steps.old + 1 }
{
    steps.tick();
    let words = Words {
        id,
        start,
        value,
        gathered,
        count,
        outdeg: 0,
        properties: Properties::Nobody,
    };
    evaluate(&program.update, &words)
}

/// What computes the next value of a node. Whoever runs a program learns an updated value only by calling its updater,
/// so the count of calls bounds the work. The answer is a function of the program and the five values, and belongs to
/// the type: it is the number -(2^63) only where the program or one of the three values holds that number.
pub trait Updater: Counted {
    ghost answer: { Answer };

    /// The next value of a node of this id (below 2^63) with this start, value and gathered value, that got so many
    /// messages (below 2^32). It is one call, and takes no memory.
    fn update(
        &mut self,
        program: &Program,
        id: u64,
        start: Val,
        value: Val,
        gathered: Val,
        count: u64,
    ) -> Val
        requires program { IsUpdate program.now }
        requires id { id < 2 ^ 63 }
        requires count { count < 2 ^ 32 }
        ensures answer { result ≡ answer program.now id start value gathered count }
        ensures count { Self.calls self.new ≡ Self.calls self.old + 1 };

    ghost lowest_was_given: { (p : Program) (id : ℕ) (start value gathered : Val) (count : ℕ) → answer p id start value gathered count ≡ lowest → HoldsNumber p lowest_number ⊎ ((start ≡ lowest) ⊎ ((value ≡ lowest) ⊎ (gathered ≡ lowest))) };
}

impl<L: Ledger> Updater for Steps<L> {
    ghost use Rattle.vertex_lang.specs.Expressions.{updated};
    ghost use Rattle.vertex_lang.specs.LowestGiven.{lowest_given};

    ghost answer = { updated };

    fn update(
        &mut self,
        program: &Program,
        id: u64,
        start: Val,
        value: Val,
        gathered: Val,
        count: u64,
    ) -> Val {
        eval(program, id, start, value, gathered, count, self)
    }

    ghost lowest_was_given = { lowest_given };
}
