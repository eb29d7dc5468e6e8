//! The laws of items.

ghost use Rattle.std.specs.Prelude.{◌≡◌};
ghost use Rattle.std.specs.declared.cmp.Ordering.TheVariants.{Equal};
ghost use Rattle.std.specs.Cmp.{IsTotalOrder};
ghost use Rattle.vertex_items.specs.Laws.{InputGivesNext, IsItemOrder};

use crate::item::NodeItem;
use flow_core::Operator;
use lone_work::count_work;
use multisets::are_one_multiset;
use surge_outside::Record;
use vertex_lang::Program;
use weighted::Batch;
use work_theory::lap_is_work;

/// Under the items of its input, each once, a node gives its next value.
pub fn input_gives_next()
    ensures { InputGivesNext }
{}

/// Does nothing, and tells contracts that the order of a type of records is total, and tells records apart.
pub fn records_are_ordered<R: Record>()
    ensures total { IsTotalOrder R.cmp }
    ensures same { (x y : R) → R.cmp x y ≡ Equal → x ≡ y }
{}

/// The order of the items of a node is one under which what a node gives is defined.
pub fn items_are_ordered()
    ensures { IsItemOrder ⟦<NodeItem as Ord>⟧.cmp }
{
    records_are_ordered::<NodeItem>();
}
