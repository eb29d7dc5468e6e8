//! An updater that answers the start value.

ghost use Rattle.std.specs.Prelude.{◌≡◌, ◌<◌};

use graph_model::Val;
use std::sync::ledger::{Blank, Ledger};
use surge_outside::{Counted, Steps};
use vertex_lang::{Program, Updater};

/// Answers the start value of each node, and counts its calls.
#[derive(Drop)]
pub struct Starter<L: Ledger> {
    calls: Steps<L>,
}

impl<L: Ledger> Starter<L> {
    pub fn new(blank: Blank) -> Starter<L>
        requires name { blank.name ≡ L.name }
        requires parts { blank.parts ≡ L.parts }
        requires some { 0 < L.parts }
    {
        Starter {
            calls: Steps::<L>::new(blank),
        }
    }
}

impl<L: Ledger> Counted for Starter<L> {
    ghost calls = { λ starter. starter.calls };
}

impl<L: Ledger> Updater for Starter<L> {
    ghost use Rattle.std.proofs.Common.{inl, inr};

    ghost answer = { λ program id start value gathered count. start };

    fn update(
        &mut self,
        _program: &Program,
        _id: u64,
        start: Val,
        _value: Val,
        _gathered: Val,
        _count: u64,
    ) -> Val {
        self.calls.tick();
        start
    }

    ghost lowest_was_given = { λ program id start value gathered count is. inr (inl is) };
}
