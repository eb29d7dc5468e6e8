//! The lines of a text, and those that are rows.

ghost use Rattle.std.specs.Prelude.{◌≡◌, ◌≢◌, ◌<◌, ℕ, length, slice_index, IfSome, IfNone, MatchOption};
ghost use Rattle.change_text.specs.Inside.{IsCutAt, Lacks, ReadsRow};

use crate::number::{number_of, read_value};
use crate::row::Row;

// The place of the first of these bytes that is this one.
fn find(bytes: &[u8], at: u8) -> Option<usize>
    ensures within { IfSome result (λ i. i < length bytes.now) }
    ensures found { IfSome result (λ i. slice_index bytes.now i ≡ at) }
    ensures before { IfSome result (λ i. (k : ℕ) → k < i → slice_index bytes.now k ≢ at) }
    ensures none { IfNone result ((k : ℕ) → k < length bytes.now → slice_index bytes.now k ≢ at) }
{
    for (i, b) in bytes.iter().enumerate() {
        if *b == at {
            return Some(i);
        }
    }
    None
}

/// Cuts bytes at the first that is this one, which it drops.
pub(crate) fn cut_first(bytes: &[u8], at: u8) -> Option<(&[u8], &[u8])>
    ensures { MatchOption result (Lacks at bytes.now) (λ p. IsCutAt at bytes.now p.0.now p.1.now) }
{
    let Some(place) = find(bytes, at) else {
        return None;
    };
    let (front, rest) = bytes.split_at(place);
    let (_, behind) = rest.split_at(1);
    Some((front, behind))
}

/// The row that a line spells.
pub(crate) fn read_row(line: &[u8]) -> Option<Row>
    ensures { ReadsRow line.now result }
{
    let Some((digits, behind)) = cut_first(line, b',') else {
        return None;
    };
    let Some(id) = number_of(digits) else {
        return None;
    };
    let Some(value) = read_value(behind) else {
        return None;
    };
    Some(Row { id, value })
}
