//! The totals of a pair of groups.

ghost use Rattle.std.specs.Prelude.{◌≡◌, if◌then◌else◌, refl};
ghost use Rattle.weighted.specs.Words.{word};
ghost use Rattle.aggregate_views.specs.Coding.{totals_of};

use crate::part::{Part, Totals};
use diff_reduce::KeyLogic;
use surge_outside::{Counted, List, NoMemory, Record};
use weighted::Weight;

/// The totals of a pair that has an edge, and nothing of one that has none.
#[derive(Drop)]
pub(crate) struct EdgeTotals;

/// The weight, where it counts, and 0 where it doesn't.
fn weight_if(counts: bool, weight: Weight) -> Weight
    ensures { result ≡ (if counts then weight else 0) }
{
    if counts { weight } else { Weight(0) }
}

/// The weight of a record: the sum of its weights.
fn weight_of<R: Record>(words: &[(R, Weight)], wanted: R) -> u64
    ensures { result ≡ word R.cmp words.now wanted }
{
    let mut sum = Weight(0);
    for (other, weight) in words {
        sum = sum.add(weight_if(other.cmp(&wanted).is_eq(), *weight));
    }
    sum.0
}

impl<U: Counted> KeyLogic<U> for EdgeTotals {
    type Key = (u32, u32);

    type Value = Part;

    type Output = Totals;

    ghost gives = { λ _ _ words. totals_of ⟦<Part as Ord>⟧.cmp words };

    ghost nothing = { λ _ _. refl };

    fn eval(
        &self,
        key: (u32, u32),
        words: &[(Part, Weight)],
        into: &mut List<(Totals, Weight)>,
        updater: &mut U,
    ) -> Result<(), NoMemory> {
        let count = weight_of(words, Part::Count);
        if count == 0 {
            return Ok(());
        }
        let totals = Totals {
            count,
            low: weight_of(words, Part::Low),
            high: weight_of(words, Part::High),
        };
        into.push((totals, Weight(1)))
    }
}
