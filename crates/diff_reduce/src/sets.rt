//! Lists as sets.

ghost use Rattle.std.specs.Prelude.{◌≡◌, ◌∷◌, ◌++◌, [], OnOk, if◌then◌else◌};
ghost use Rattle.std.specs.List.{Contains};
ghost use Rattle.std.specs.List.Sorted.{IsStrictlySortedBy};

use surge_outside::{NoMemory, Record};

/// Puts records in order, each once, where they stand. It takes no memory, and time in proportion to their number times
/// its logarithm.
pub(crate) fn make_set<R: Record>(all: &mut Vec<R>)
    ensures rising { IsStrictlySortedBy R.cmp all.new.items }
    ensures each { (x : R) → Contains all.old.items x → Contains all.new.items x }
    ensures only { (x : R) → Contains all.new.items x → Contains all.old.items x }
{
    all.sort_unstable();
    all.dedup();
}

/// Adds an item at the end where it is wanted.
pub(crate) fn push_if<R: Record>(
    list: &mut Vec<R>,
    item: R,
    is_wanted: bool,
) -> Result<(), NoMemory>
    ensures { OnOk result (list.new.items ≡ list.old.items ++ (if is_wanted then item ∷ [] else [])) }
{
    if is_wanted {
        list.push(item)?;
    }
    Ok(())
}
