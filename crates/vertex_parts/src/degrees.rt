//! The degrees of tails.

ghost use Rattle.std.specs.Prelude.{◌≡◌, ◌++◌, ◌%◌, ◌^◌, sum_by, if◌then◌else◌, refl, OnOk};
ghost use Rattle.weighted.specs.WordLaws.{mapped};
ghost use Rattle.view_items.specs.Prepared.{degrees};

use diff_reduce::KeyLogic;
use flow_core::NoCalls;
use graph_model::NodeNo;
use surge_outside::{List, NoMemory};
use vertex_lang::Arc;
use weighted::Weight;

/// One more than the greatest number of arcs that leave a node.
const TOO_MANY: u64 = 4_294_967_296;

/// The arcs of a tail, each with their number where it is named, and else with 0; none where there are 2^32 or more.
#[derive(Drop)]
pub struct Degrees {
    is_named: bool,
}

impl Degrees {
    /// Where the message names the number, and where it doesn't. It takes no memory.
    pub fn new(is_named: bool) -> Degrees
        ensures { ⟦<Degrees as KeyLogic<NoCalls>>⟧.gives result ≡ degrees is_named }
    {
        Degrees { is_named }
    }
}

/// The sum of some weights, modulo 2^64.
fn weight_of(words: &[(Arc, Weight)]) -> Weight
    ensures { result ≡ sum_by (λ a. a.1) words.now % 2 ^ 64 }
{
    let mut sum = Weight(0);
    for (_, weight) in words {
        sum = sum.add(*weight);
    }
    sum
}

/// Pushes arcs, each with what is told of its tail.
fn push_told(
    into: &mut List<((Arc, u64), Weight)>,
    words: &[(Arc, Weight)],
    told: u64,
) -> Result<(), NoMemory>
    ensures { OnOk result (into.new ≡ into.old ++ mapped (λ a. (a, told)) words.now) }
{
    for (arc, weight) in words {
        into.push(((*arc, told), *weight))?;
    }
    Ok(())
}

impl KeyLogic<NoCalls> for Degrees {
    type Key = NodeNo;

    type Value = Arc;

    type Output = (Arc, u64);

    ghost gives = { λ s. degrees s.is_named };

    ghost nothing = { λ _ _. refl };

    fn eval(
        &self,
        _key: NodeNo,
        words: &[(Arc, Weight)],
        into: &mut List<((Arc, u64), Weight)>,
        _updater: &mut NoCalls,
    ) -> Result<(), NoMemory> {
        let sum = weight_of(words).0;
        if sum >= TOO_MANY {
            return Ok(());
        }
        let told = if self.is_named { sum } else { 0 };
        push_told(into, words, told)
    }
}
