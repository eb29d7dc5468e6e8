//! What a reduce makes of a key.

ghost use Rattle.std.specs.Prelude.{◌≡◌, ℕ, ◌+◌, ◌≤◌, List, [], OnOk};
ghost use Rattle.weighted.specs.Batches.{IsBatch};

use surge_outside::{Counted, List, NoMemory, Record};
use weighted::Weight;

/// The function that a reduce applies to the values of each key. `U` is the type of the updater that it may call.
pub trait KeyLogic<U: Counted> {
    /// What values are grouped by.
    type Key: Record;

    /// What is grouped.
    type Value: Record;

    /// What is made of a key.
    type Output: Record;

    /// The function, from a key and its values with their weights to what is made of them.
    ghost gives: { Self → Self.Key → List (Self.Value × ℕ) → List (Self.Output × ℕ) };

    /// Writes into `into` what is made of a key whose values, rising, have these weights, none of them zero. It may
    /// write in any order, and a record any number of times. It calls the updater once at most.
    ///
    /// The caller owes that the values strictly rise with no weight zero, and that `into` is empty.
    ///
    /// Errors: out of memory; `into` is then any list.
    fn eval(
        &self,
        key: Self::Key,
        words: &[(Self::Value, Weight)],
        into: &mut List<(Self::Output, Weight)>,
        updater: &mut U,
    ) -> Result<(), NoMemory>
        requires words { IsBatch Self.Value.cmp words.now }
        requires into { into.old ≡ [] }
        ensures answer { OnOk result (into.new ≡ gives self.now key words.now) }
        ensures calls { U.calls updater.old ≤ U.calls updater.new }
        ensures cost { U.calls updater.new ≤ U.calls updater.old + 1 };

    /// A key without values gives nothing.
    ghost nothing: { (logic : Self) (key : Self.Key) → gives logic key [] ≡ [] };
}
