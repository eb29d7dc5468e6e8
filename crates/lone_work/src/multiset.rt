//! Lists of values as multisets.

ghost use Rattle.std.specs.Prelude.{◌≡◌, IfOk};
ghost use Rattle.multisets.specs.Multisets.{are_one, do_cancel};
ghost use Rattle.vertex_lang.specs.Lone.{same_value};

use graph_model::Val;
use multisets::are_one_multiset;
use std::alloc::Global;
use surge_outside::NoMemory;

// Whether two lists of values are one multiset.
pub(crate) fn are_one_list(alloc: Global, left: &[Val], right: &[Val]) -> Result<bool, NoMemory>
    ensures { IfOk result (λ b. b ≡ are_one same_value left.now right.now) }
{
    let mut left = Vec::from_slice(alloc, left)?;
    let mut right = Vec::from_slice(alloc, right)?;
    Ok(are_one_multiset(&mut left, &mut right))
}

// Whether four lists of values cancel: those in the first and not in the second, less those in the third and not in the
// fourth, counted with signs.
pub(crate) fn cancel(
    alloc: Global,
    new: &[Val],
    old: &[Val],
    new_before: &[Val],
    old_before: &[Val],
) -> Result<bool, NoMemory>
    ensures { IfOk result (λ b. b ≡ do_cancel same_value new.now old.now new_before.now old_before.now) }
{
    let mut left = Vec::from_slice(alloc, new)?;
    left.extend_from_slice(old_before)?;
    let mut right = Vec::from_slice(alloc, old)?;
    right.extend_from_slice(new_before)?;
    Ok(are_one_multiset(&mut left, &mut right))
}
