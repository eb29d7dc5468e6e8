//! One of two records.

ghost use Rattle.std.specs.Prelude.{◌≡◌, [], ◌∷◌, ◌++◌, refl, IfOk, OnOk};
ghost use Rattle.flow_core.specs.Sides.{lefts, rights, sides_same};

use std::alloc::Global;
use surge_outside::{List, NoMemory, Record};
use weighted::{Batch, Weight};

/// A record of one of two kinds. In the order of `Ord` every left one is below every right one.
#[derive(Clone, Copy, Debug, PartialEq, Eq, PartialOrd, Ord)]
pub enum Side<A, B> {
    /// A record of the first kind.
    Left(A),
    /// A record of the second kind.
    Right(B),
}

impl<A: Record, B: Record> Record for Side<A, B> {
    ghost same = { sides_same _ A.cmp B.cmp (λ _ _. refl) (λ _ _. refl) (λ _ _. refl) (λ _ _. refl) A.same B.same };
}

/// Adds a record with its weight to the list of its side.
fn push_side<A: Record, B: Record>(
    left: &mut Vec<(A, Weight)>,
    right: &mut Vec<(B, Weight)>,
    side: Side<A, B>,
    weight: Weight,
) -> Result<(), NoMemory>
    ensures left { OnOk result (left.new.items ≡ left.old.items ++ lefts ((side, weight) ∷ [])) }
    ensures right { OnOk result (right.new.items ≡ right.old.items ++ rights ((side, weight) ∷ [])) }
{
    match side {
        Side::Left(a) => left.push((a, weight))?,
        Side::Right(b) => right.push((b, weight))?,
    }
    Ok(())
}

/// The two sides of a batch, each in its order, by one walk along it.
///
/// # Errors
///
/// [`NoMemory`] where there was not memory enough for both.
pub fn split<A: Record, B: Record>(
    alloc: Global,
    batch: &Batch<Side<A, B>>,
) -> Result<(Batch<A>, Batch<B>), NoMemory>
    ensures left { IfOk result (λ sides. sides.0 ≡ lefts batch.now) }
    ensures right { IfOk result (λ sides. sides.1 ≡ rights batch.now) }
{
    let mut left = Vec::new(alloc);
    let mut right = Vec::new(alloc);
    for (side, weight) in batch.as_slice() {
        push_side(&mut left, &mut right, *side, *weight)?;
    }
    let left = Batch::from_rising(List::from_vec(left));
    let right = Batch::from_rising(List::from_vec(right));
    Ok((left, right))
}
