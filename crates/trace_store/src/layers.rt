//! The layers of a trace, from the oldest and longest to the newest and shortest.

ghost use Rattle.std.specs.Prelude.{◌≡◌, ◌+◌, ◌-◌, ◌*◌, ◌<◌, ◌≤◌, ◌^◌, ◌++◌, ℕ, length, take, drop, get_or, IfOk, OnOk, OnErr, List};
ghost use Rattle.weighted.specs.Alike.{Alike};
ghost use Rattle.weighted.specs.Batches.{joined};
ghost use Rattle.trace_store.specs.Layers.{with_layer};

use crate::layer::Layer;
use std::alloc::Global;
use surge_outside::{NoMemory, Record};

/// How many of the oldest layers stay as they are when a new one of `len` entries comes, and how many entries the others
/// have with it: as many as that what the others and the new one come to is at most half of the last one that stays.
pub(crate) fn stay<R: Record>(layers: &[Layer<R>], len: usize) -> (usize, usize)
    requires fits { length (joined layers.now) + len < 2 ^ 64 }
    ensures bound { result.0 ≤ length layers.now }
    ensures sum { result.1 ≡ length (joined (drop result.0 layers.now)) + len }
    ensures half { 0 < result.0 → (d : List (R × ℕ)) → 2 * result.1 ≤ length (get_or layers.now (result.0 - 1) d) }
{
    let mut stay = layers.len();
    let mut sum = len;
    while stay > 0 {
        let last = layers[stay - 1].len();
        if sum <= last / 2 {
            return (stay, sum);
        }
        stay -= 1;
        sum += last;
    }
    (stay, sum)
}

/// The sum of layers and one more. It merges them from the newest to the oldest, so that it takes time in proportion to
/// all their entries where each layer is at least twice as long as the next newer one.
///
/// Errors: out of memory.
pub(crate) fn merge_onto<R: Record>(
    alloc: Global,
    layers: &[Layer<R>],
    newest: Layer<R>,
) -> Result<Layer<R>, NoMemory>
    ensures alike { IfOk result (λ layer. Alike layer (joined layers.now ++ newest)) }
    ensures bound { IfOk result (λ layer. length layer ≤ length (joined layers.now) + length newest) }
{
    let mut merged = newest;
    let mut left = layers.len();
    while left > 0 {
        left -= 1;
        merged = layers[left].merged(alloc, &merged)?;
    }
    Ok(merged)
}

/// Puts a layer in the place of all but the oldest ones, or nothing where it has no entry. A refusal leaves all as they
/// were.
pub(crate) fn put_layer<R: Record>(
    layers: &mut Vec<Layer<R>>,
    stay: usize,
    newest: Layer<R>,
) -> Result<(), NoMemory>
    requires { stay ≤ length layers.old.items }
    ensures ok { OnOk result (layers.new.items ≡ with_layer (take stay layers.old.items) newest) }
    ensures err { OnErr result (layers.new.items ≡ layers.old.items) }
{
    if newest.len() == 0 {
        layers.truncate(stay);
        return Ok(());
    }
    layers.insert(stay, newest)?;
    layers.truncate(stay + 1);
    Ok(())
}
