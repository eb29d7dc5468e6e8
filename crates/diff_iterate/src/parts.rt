//! The moving parts of batches.

ghost use Rattle.std.specs.Prelude.{◌≡◌, [], ◌∷◌, ◌++◌, IfOk, OnOk};
ghost use Rattle.weighted.specs.Alike.{Alike};
ghost use Rattle.loop_theory.specs.Inputs.{moving, as_moving};
ghost use Rattle.loop_theory.specs.Loops.{at_round};

use lattice_time::Round;
use loop_theory::LoopInput;
use std::alloc::Global;
use surge_outside::{List, NoMemory, Record};
use weighted::{Batch, Weight};

/// Adds a record with its weight to a list, where it is moving.
fn push_moving<F: Record, X: Record>(
    entries: &mut Vec<(X, Weight)>,
    input: LoopInput<F, X>,
    weight: Weight,
) -> Result<(), NoMemory>
    ensures { OnOk result (entries.new.items ≡ entries.old.items ++ moving ((input, weight) ∷ [])) }
{
    match input {
        LoopInput::Fixed(_) => {}
        LoopInput::Moving(x) => entries.push((x, weight))?,
    }
    Ok(())
}

/// The moving part of what came in.
pub(crate) fn moving_part<F: Record, X: Record>(
    alloc: Global,
    delta: &Batch<LoopInput<F, X>>,
) -> Result<Batch<X>, NoMemory>
where
    LoopInput<F, X>: Record,
    ensures { IfOk result (λ moved. Alike moved (moving delta.now)) }
{
    let mut entries = Vec::new(alloc);
    for (input, weight) in delta.as_slice() {
        push_moving(&mut entries, *input, *weight)?;
    }
    Batch::from_entries(List::from_vec(entries))
}

/// A change as a moving part.
pub(crate) fn moving_batch<F: Record, X: Record>(
    alloc: Global,
    change: &Batch<X>,
) -> Result<Batch<LoopInput<F, X>>, NoMemory>
where
    LoopInput<F, X>: Record,
    ensures { IfOk result (λ feed. Alike feed (as_moving change.now)) }
{
    let mut entries = Vec::new(alloc);
    for (record, weight) in change.as_slice() {
        entries.push((LoopInput::Moving(*record), *weight))?;
    }
    Batch::from_entries(List::from_vec(entries))
}

/// Adds a change at a round to a list.
pub(crate) fn push_round<X: Record>(
    entries: &mut Vec<((Round, X), Weight)>,
    round: Round,
    change: &Batch<X>,
) -> Result<(), NoMemory>
    ensures { OnOk result (entries.new.items ≡ entries.old.items ++ at_round round.0 change.now) }
{
    for (record, weight) in change.as_slice() {
        entries.push(((round, *record), *weight))?;
    }
    Ok(())
}
