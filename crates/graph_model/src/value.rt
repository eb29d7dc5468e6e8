//! The values that a vertex program computes.

ghost use Rattle.std.specs.Prelude.{◌≡◌, refl};
ghost use Rattle.std.proofs.Common.{ap};
ghost use Rattle.std.proofs.lemmas.Map.Lookups.{exact_signed};
ghost use Rattle.graph_model.specs.declared.value.Val.TheVariants.{Num, Nil};
ghost use Rattle.graph_model.specs.ValueOrder.{order_of};

use std::cmp::Ordering;
use surge_outside::Record;

/// What a node has in a round: nothing, or a whole number. `Nil` comes first in the order.
#[derive(Clone, Copy, Debug, PartialEq, Eq, PartialOrd, Ord)]
pub enum Val {
    Nil,
    Num(i64),
}

impl Record for Val {
    ghost same = { elim [
      | Nil ↦ elim [ Nil ↦ λ e. refl | Num b ↦ λ e. absurd Prim.cc ]
      | Num a ↦ elim [ Nil ↦ λ e. absurd Prim.cc | Num b ↦ λ e. ap (λ n. Num n) (exact_signed a b e) ]
    ] };
}

impl Val {
    /// How this value stands to another in the order of values: `Nil` is below every number, and numbers stand by size.
    pub fn order(self, other: Val) -> Ordering
        ensures { result ≡ order_of self other }
    {
        self.cmp(&other)
    }
}
