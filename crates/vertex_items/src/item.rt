//! What a node gets in a round.

ghost use Rattle.std.specs.Prelude.{refl};
ghost use Rattle.graph_model.specs.declared.value.Val.TheVariants.{Num, Nil};
ghost use Rattle.vertex_items.specs.Orders.{items_same};

use graph_model::Val;
use surge_outside::Record;

/// One of the things that a node gets in a round, as a value of the reduce that is keyed by node. In the order of `Ord`
/// starts come before values and values before messages.
#[derive(Clone, Copy, Debug, PartialEq, Eq, PartialOrd, Ord)]
pub enum NodeItem {
    /// The value with which the node started.
    Start(Val),
    /// The value that the node has.
    Own(Val),
    /// A message that came along an arc.
    Message(Val),
}

impl Record for NodeItem {
    ghost same = { items_same _ (elim [ Nil ↦ elim [ Nil ↦ refl | Num b ↦ refl ] | Num a ↦ elim [ Nil ↦ refl | Num b ↦ refl ] ]) (λ _ _. refl) (λ _ _. refl) (λ _ _. refl) (elim [ Nil ↦ elim [ Nil ↦ refl | Num b ↦ refl ] | Num a ↦ elim [ Nil ↦ refl | Num b ↦ refl ] ]) (λ _ _. refl) (λ _ _. refl) (λ _ _. refl) (elim [ Nil ↦ elim [ Nil ↦ refl | Num b ↦ refl ] | Num a ↦ elim [ Nil ↦ refl | Num b ↦ refl ] ]) };
}
