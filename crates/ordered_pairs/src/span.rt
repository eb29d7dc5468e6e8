//! The span of second parts.

ghost use Rattle.std.specs.Prelude.{◌≡◌, ◌⊎◌, Some};
ghost use Rattle.ordered_pairs.specs.Spans.{InSpan};

use surge_outside::Record;

/// The least and the greatest of some second parts, of which these are the least and the greatest so far (None: there is
/// none), and of one more. Each is one of the parts that were given. It takes no memory.
pub fn widened<B: Record>(span: Option<(B, B)>, more: B) -> (B, B)
    ensures more { InSpan B.cmp result more }
    ensures low { (result.0 ≡ more) ⊎ ((ends : B × B) × (span ≡ Some ends) × (result.0 ≡ ends.0)) }
    ensures high { (result.1 ≡ more) ⊎ ((ends : B × B) × (span ≡ Some ends) × (result.1 ≡ ends.1)) }
    ensures old { (ends : B × B) (b : B) → span ≡ Some ends → InSpan B.cmp ends b → InSpan B.cmp result b }
{
    match span {
        None => (more, more),
        Some(ends) => (ends.0.min(more), ends.1.max(more)),
    }
}
