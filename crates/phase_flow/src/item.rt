//! What a dataflow in phases makes.

ghost use Rattle.std.specs.Prelude.{refl};
ghost use Rattle.graph_model.specs.declared.value.Val.TheVariants.{Nil, Num};
ghost use Rattle.phase_flow.specs.ItemOrders.{item_same};

use graph_model::{NodeNo, Val};
use surge_outside::Record;

/// What is made of a node in a phase.
#[derive(Clone, Copy, Debug, PartialEq, Eq, PartialOrd, Ord)]
pub enum PhaseItem {
    /// The node's value at the end of the phase.
    Value(NodeNo, Val),
    /// A value that the last round before the end of the phase gave the node, or, with weight -1, took from it.
    Late(NodeNo, Val),
}

impl Record for PhaseItem {
    ghost same = { item_same _ (λ _ _. elim [ Nil ↦ elim [ Nil ↦ refl | Num b ↦ refl ] | Num a ↦ elim [ Nil ↦ refl | Num b ↦ refl ] ]) (λ _ _ _ _. refl) (λ _ _ _ _. refl) (λ _ _. elim [ Nil ↦ elim [ Nil ↦ refl | Num b ↦ refl ] | Num a ↦ elim [ Nil ↦ refl | Num b ↦ refl ] ]) };
}
