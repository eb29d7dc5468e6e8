//! Bounds of the number that an edge has in a column, as comparisons of the column with numbers set them.

ghost use Rattle.std.specs.Prelude.{◌≡◌, ◌<◌, ℕ, ℤ, not, ◌&&◌, if◌then◌else◌, IfSome};
ghost use Rattle.std.specs.declared.cmp.Ordering.{Ordering};
ghost use Rattle.std.specs.Ordering.{int_cmp, ordering_reverse};
ghost use Rattle.graph_model.specs.GraphData.{GraphData, Cell};
ghost use Rattle.edge_predicates.specs.Truth.{agrees, cells_compare, read_at};
ghost use Rattle.view_matrix.specs.Bounds.{admits, lies_within, meets, meets_at};
ghost use Rattle.view_matrix.specs.Columns.{is_set};

use edge_predicates::{Cmp, Place};

/// Bounds of a column of the edges: the number in it is from `low` to `high`, or, where they are not `inside`, it is a
/// number that is not. The least and the greatest `i64` are no bounds.
#[derive(Clone, Copy, Debug, Drop)]
pub(crate) struct Bounds {
    pub(crate) column: u32,
    low: i64,
    high: i64,
    inside: bool,
}

impl Bounds {
    /// Whether a number is from `low` to `high`, be they inside or not.
    pub(crate) fn encloses(self, number: i64) -> bool
        ensures { result ≡ lies_within self.low self.high number }
    {
        // One comparison of a number in place of two: all are moved by as much as makes `low` the least `i64`.
        let moved = self.low.wrapping_sub(i64::MIN);
        (self.low <= self.high) & (number.wrapping_sub(moved) <= self.high.wrapping_sub(moved))
    }

    /// Of 64 numbers whether each lies in them, as a word, from the word that says of each whether they enclose it.
    pub(crate) fn admitted(self, enclosed: u64) -> u64
        ensures { (i : ℕ) → i < 64 → is_set result i ≡ (if self.inside then is_set enclosed i else not (is_set enclosed i)) }
    {
        if self.inside { enclosed } else { !enclosed }
    }

    /// Bounds that say what both say. There are none where the columns differ, or one of them is not inside.
    pub(crate) fn both(self, other: Bounds) -> Option<Bounds>
        ensures column { IfSome result (λ both. both.column ≡ self.column) }
        ensures same { IfSome result (λ both. both.column ≡ other.column) }
        ensures means { IfSome result (λ both. (c : Cell) → meets both c ≡ (meets self c && meets other c)) }
    {
        if self.column == other.column && self.inside && other.inside {
            Some(Bounds {
                column: self.column,
                low: self.low.max(other.low),
                high: self.high.min(other.high),
                inside: true,
            })
        } else {
            None
        }
    }
}

// The sign by which the values compare when they change places.
fn mirrored(sign: Cmp) -> Cmp
    ensures { (o : Ordering) → agrees result o ≡ agrees sign (ordering_reverse o) }
{
    match sign {
        Cmp::Eq => Cmp::Eq,
        Cmp::Ne => Cmp::Ne,
        Cmp::Lt => Cmp::Gt,
        Cmp::Le => Cmp::Ge,
        Cmp::Gt => Cmp::Lt,
        Cmp::Ge => Cmp::Le,
    }
}

// The bounds of a column whose number compares so with this one; none at the ends of the numbers, which are no bounds.
fn bounds_of(column: u32, sign: Cmp, number: i64) -> Option<Bounds>
    ensures column { IfSome result (λ bounds. bounds.column ≡ column) }
    ensures means { IfSome result (λ bounds. (z : ℤ) → admits bounds z ≡ agrees sign (int_cmp z number)) }
{
    if number == i64::MIN || number == i64::MAX {
        return None;
    }
    let (low, high, inside) = match sign {
        Cmp::Eq => (number, number, true),
        Cmp::Ne => (number, number, false),
        Cmp::Lt => (i64::MIN, number - 1, true),
        Cmp::Le => (i64::MIN, number, true),
        Cmp::Gt => (number + 1, i64::MAX, true),
        Cmp::Ge => (number, i64::MAX, true),
    };
    Some(Bounds {
        column,
        low,
        high,
        inside,
    })
}

/// The bounds that a comparison sets: where it is one of a column of the edges with a number, on either side.
pub(crate) fn bounds_of_comparison(first: &Place, sign: Cmp, second: &Place) -> Option<Bounds>
    ensures { IfSome result (λ bounds. (g : GraphData) (e : ℕ) → meets_at g e bounds ≡ cells_compare sign (read_at g e first.now) (read_at g e second.now)) }
{
    match (first, second) {
        (Place::Edge(column), Place::Number(number)) => bounds_of(*column, sign, *number),
        (Place::Number(number), Place::Edge(column)) => {
            bounds_of(*column, mirrored(sign), *number)
        }
        _ => None,
    }
}
