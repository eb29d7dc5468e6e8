//! The counter of steps that makes the commonest updates at once.

ghost use Rattle.std.specs.Prelude.{◌≡◌, ◌<◌, ◌+◌};

use crate::form::{Form, form_of};
use crate::values::damped;
use graph_model::Val;
use std::marker::Model;
use std::sync::ledger::{Blank, Ledger};
use surge_outside::{Counted, Steps};
use vertex_lang::arithmetic::{clamp, lesser_of};
use vertex_lang::{Program, Updater, eval};

/// Computes the updates of programs, and counts them for contracts alone: it takes no bytes. Updates of the commonest
/// forms take no walk through their expression.
#[derive(Drop)]
pub struct QuickSteps<L: Ledger> {
    steps: Steps<L>,
}

impl<L: Ledger> Model for QuickSteps<L> {
    ghost use Rattle.std.specs.Prelude.{ℕ};

    ghost Value = { ℕ };

    ghost view = { λ quick. quick.steps };
}

impl<L: Ledger> QuickSteps<L> {
    /// A counter that stands at 0, over a blank ledger that nothing else uses.
    pub fn new(blank: Blank) -> QuickSteps<L>
        requires name { blank.name ≡ L.name }
        requires parts { blank.parts ≡ L.parts }
        requires some { 0 < L.parts }
        ensures { result ≡ 0 }
    {
        QuickSteps {
            steps: Steps::<L>::new(blank),
        }
    }

    // A value that took one step.
    fn counted(&mut self, value: Val) -> Val
        ensures value { result ≡ value }
        ensures step { self.new ≡ self.old + 1 }
    {
        self.steps.tick();
        value
    }
}

impl<L: Ledger> Counted for QuickSteps<L> {
    ghost calls = { λ quick. quick };
}

impl<L: Ledger> Updater for QuickSteps<L> {
    ghost use Rattle.vertex_lang.specs.Expressions.{updated};
    ghost use Rattle.vertex_lang.specs.LowestGiven.{lowest_given};

    ghost answer = { updated };

    fn update(
        &mut self,
        program: &Program,
        id: u64,
        start: Val,
        value: Val,
        gathered: Val,
        count: u64,
    ) -> Val {
        match form_of(&program.update) {
            Form::Least => self.counted(clamp(lesser_of(start, gathered))),
            Form::Damped(damping) => self.counted(damped(gathered, damping)),
            Form::Other => eval(program, id, start, value, gathered, count, &mut self.steps),
        }
    }

    ghost lowest_was_given = { lowest_given };
}
