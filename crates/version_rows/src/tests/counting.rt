//! An updater that tells how often it was called.

ghost use Rattle.std.specs.Prelude.{◌≡◌, ◌<◌};

use graph_model::Val;
use std::sync::ledger::{Blank, Ledger};
use surge_outside::{Counted, Steps};
use vertex_lang::{Program, Updater};

/// What tells how often it was called.
pub(crate) trait Telling {
    fn told(&self) -> u64;
}

/// Evaluates the update expression of a program, and counts its calls.
#[derive(Drop)]
pub(crate) struct Counting<L: Ledger> {
    steps: Steps<L>,
    calls: u64,
}

impl<L: Ledger> Telling for Counting<L> {
    fn told(&self) -> u64 {
        self.calls
    }
}

impl<L: Ledger> Counting<L> {
    pub(crate) fn new(blank: Blank) -> Counting<L>
        requires name { blank.name ≡ L.name }
        requires parts { blank.parts ≡ L.parts }
        requires some { 0 < L.parts }
    {
        Counting {
            steps: Steps::<L>::new(blank),
            calls: 0,
        }
    }
}

impl<L: Ledger> Counted for Counting<L> {
    ghost calls = { λ counting. counting.steps };
}

impl<L: Ledger> Updater for Counting<L> {
    ghost use Rattle.vertex_lang.specs.Expressions.{updated};
    ghost use Rattle.vertex_lang.specs.LowestGiven.{lowest_given};

    ghost answer = { updated };

    fn update(
        &mut self,
        program: &Program,
        id: u64,
        start: Val,
        value: Val,
        gathered: Val,
        count: u64,
    ) -> Val {
        self.calls = self.calls.wrapping_add(1);
        self.steps
            .update(program, id, start, value, gathered, count)
    }

    ghost lowest_was_given = { lowest_given };
}
