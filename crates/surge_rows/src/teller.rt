//! An updater that tells how often it was asked.

ghost use Rattle.std.specs.Prelude.{◌≡◌, ◌<◌};

use graph_model::Val;
use std::sync::ledger::{Blank, Ledger};
use surge_outside::{Counted, Steps};
use vertex_lang::{Program, Updater, eval};

/// Computes updates, and tells how many they were.
#[derive(Drop)]
pub struct Teller<L: Ledger> {
    steps: Steps<L>,
    updates: u64,
}

impl<L: Ledger> Teller<L> {
    pub fn new(blank: Blank) -> Teller<L>
        requires name { blank.name ≡ L.name }
        requires parts { blank.parts ≡ L.parts }
        requires some { 0 < L.parts }
    {
        Teller {
            steps: Steps::<L>::new(blank),
            updates: 0,
        }
    }

    /// How many updates were computed. It stands still at the end of its type.
    pub fn updates(&self) -> u64 {
        self.updates
    }
}

impl<L: Ledger> Counted for Teller<L> {
    ghost calls = { λ teller. teller.steps };
}

impl<L: Ledger> Updater for Teller<L> {
    ghost use Rattle.vertex_lang.specs.Expressions.{updated};
    ghost use Rattle.vertex_lang.specs.LowestGiven.{lowest_given};

    ghost answer = { updated };

    fn update(
        &mut self,
        program: &Program,
        id: u64,
        start: Val,
        value: Val,
        gathered: Val,
        count: u64,
    ) -> Val {
        self.updates = self.updates.saturating_add(1);
        eval(program, id, start, value, gathered, count, &mut self.steps)
    }

    ghost lowest_was_given = { lowest_given };
}
