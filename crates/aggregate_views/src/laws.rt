//! The orders of keys and records, as contracts see them.

ghost use Rattle.std.specs.Prelude.{◌≡◌, ℕ};
ghost use Rattle.std.specs.declared.cmp.Ordering.TheVariants.{Less, Equal};
ghost use Rattle.std.specs.Cmp.{IsTotalOrder};
ghost use Rattle.std.specs.Ordering.{nat_cmp, ordering_then};
ghost use Rattle.aggregate_views.specs.Rows.{cell_order};
ghost use Rattle.aggregate_views.specs.declared.group_key.GroupKey.{GroupKey};
ghost use Rattle.aggregate_views.specs.declared.part.Part.{Part};
ghost use Rattle.aggregate_views.specs.declared.part.Totals.{Totals};
ghost use Rattle.aggregate_views.specs.Coding.{key_cell, part_place};

use crate::encoding::Pair;
use crate::group_key::GroupKey;
use crate::part::{Part, Totals};
use surge_outside::Record;

/// Does nothing, and tells contracts that the order of a type is total. It takes no memory.
pub(crate) fn order_is_total<K: Ord>()
    ensures { IsTotalOrder K.cmp }
{}

/// Does nothing, and tells contracts that the order of a type of records tells them apart. It takes no memory.
pub(crate) fn records_are_apart<R: Record>()
    ensures { (x y : R) → R.cmp x y ≡ Equal → x ≡ y }
{}

/// Does nothing, and tells contracts that keys stand to each other as their cells do. It takes no memory.
pub(crate) fn keys_are_ordered<'g>()
    ensures total { IsTotalOrder ⟦<GroupKey<'g> as Ord>⟧.cmp }
    ensures cells { (a b : GroupKey) → ⟦<GroupKey<'g> as Ord>⟧.cmp a b ≡ cell_order (key_cell a) (key_cell b) }
{
    order_is_total::<GroupKey<'g>>();
}

/// Does nothing, and tells contracts the order of the parts of a pair. It takes no memory.
pub(crate) fn parts_are_ordered()
    ensures total { IsTotalOrder ⟦<Part as Ord>⟧.cmp }
    ensures same { (x y : Part) → ⟦<Part as Ord>⟧.cmp x y ≡ Equal → x ≡ y }
    ensures places { (a b : Part) → ⟦<Part as Ord>⟧.cmp a b ≡ nat_cmp (part_place a) (part_place b) }
{
    order_is_total::<Part>();
    records_are_apart::<Part>();
}

/// Does nothing, and tells contracts the order of pairs. It takes no memory.
pub(crate) fn pairs_are_ordered()
    ensures total { IsTotalOrder ⟦<Pair as Ord>⟧.cmp }
    ensures same { (x y : ℕ × ℕ) → ⟦<Pair as Ord>⟧.cmp x y ≡ Equal → x ≡ y }
    ensures places { (x y : ℕ × ℕ) → ⟦<Pair as Ord>⟧.cmp x y ≡ ordering_then (nat_cmp x.0 y.0) (nat_cmp x.1 y.1) }
{
    order_is_total::<Pair>();
    records_are_apart::<Pair>();
}

/// Does nothing, and tells contracts the order of pairs with their totals. It takes no memory.
pub(crate) fn totals_are_ordered()
    ensures total { IsTotalOrder ⟦<(Pair, Totals) as Ord>⟧.cmp }
    ensures same { (x y : (ℕ × ℕ) × Totals) → ⟦<(Pair, Totals) as Ord>⟧.cmp x y ≡ Equal → x ≡ y }
    ensures first { (x y : (ℕ × ℕ) × Totals) → ⟦<Pair as Ord>⟧.cmp x.0 y.0 ≡ Less → ⟦<(Pair, Totals) as Ord>⟧.cmp x y ≡ Less }
{
    order_is_total::<(Pair, Totals)>();
    records_are_apart::<(Pair, Totals)>();
}
