//! The least due time of two operators.

ghost use Rattle.std.specs.Prelude.{List, ◌++◌};
ghost use Rattle.flow_core.specs.Runs.{IsNextDue};

use lattice_time::Time;

/// The lesser of the least due times of two operators.
pub(crate) fn earlier<T: Time>(first: Option<T>, second: Option<T>) -> Option<T>
    ensures { (xs ys : List T) → IsNextDue T.cmp first xs → IsNextDue T.cmp second ys → IsNextDue T.cmp result (xs ++ ys) }
{
    match (first, second) {
        (Some(a), Some(b)) => Some(a.min(b)),
        (Some(a), None) => Some(a),
        (None, other) => other,
    }
}
