//! What a vertex program as a dataflow is fed, and what of it stands in its loop.

ghost use Rattle.std.specs.Prelude.{refl};
ghost use Rattle.graph_model.specs.declared.value.Val.TheVariants.{Num, Nil};
ghost use Rattle.vertex_items.specs.InputOrders.{fixed_same, flow_same, start_same};

use graph_model::{NodeNo, Val};
use surge_outside::Record;
use vertex_lang::Arc;

/// A node or an arc of a view.
#[derive(Clone, Copy, Debug, PartialEq, Eq, PartialOrd, Ord)]
pub enum FlowInput {
    /// A node, which starts with the value that the program gives it.
    Node(NodeNo),
    /// An arc.
    Arc(Arc),
}

impl Record for FlowInput {
    ghost same = { flow_same _ (λ _ _. refl) (λ _ _. refl) (λ _ _. refl) (λ _ _. refl) };
}

/// A start of a node, or an arc of a view.
#[derive(Clone, Copy, Debug, PartialEq, Eq, PartialOrd, Ord)]
pub enum StartInput {
    /// A node, and the value with which it starts.
    Start(NodeNo, Val),
    /// An arc.
    Arc(Arc),
}

impl Record for StartInput {
    ghost same = { start_same _ (λ _ _. elim [ Nil ↦ elim [ Nil ↦ refl | Num b ↦ refl ] | Num a ↦ elim [ Nil ↦ refl | Num b ↦ refl ] ]) (λ _ _ _. refl) (λ _ _ _. refl) (λ _ _. refl) };
}

/// What stays in each round of the loop.
#[derive(Clone, Copy, Debug, PartialEq, Eq, PartialOrd, Ord)]
pub enum FixedItem {
    /// A node, and the value with which it starts.
    Start(NodeNo, Val),
    /// An arc, and how many arcs leave its tail: a number below 2^32, and 0 where the program's message doesn't name
    /// it.
    Arc(Arc, u64),
}

impl Record for FixedItem {
    ghost same = { fixed_same _ (λ _ _. elim [ Nil ↦ elim [ Nil ↦ refl | Num b ↦ refl ] | Num a ↦ elim [ Nil ↦ refl | Num b ↦ refl ] ]) (λ _ _ _ _. refl) (λ _ _ _ _. refl) (λ _ _ _ _. refl) };
}
