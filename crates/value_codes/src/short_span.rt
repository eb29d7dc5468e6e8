//! What messages come to that are kept as numbers of four bytes.

ghost use Rattle.std.specs.Prelude.{◌≡◌, ◌≤◌, ◌+◌, ◌*◌, ◌+ℤ◌, ◌-ℤ◌, ℕ, if◌then◌else◌, [], List, pos};
ghost use Rattle.std.specs.Ordering.{int_eq};
ghost use Rattle.graph_model.specs.declared.value.Val.{Val};
ghost use Rattle.message_forms.specs.Codes.{value_in};
ghost use Rattle.value_codes.specs.ShortCodes.{lowest_short, widened};
ghost use Rattle.value_codes.specs.ShortSpans.{above, greatest_short, HasRoom, IsShortSpan};
ghost use Rattle.value_codes.specs.Spans.{IsSpan, with_message};

use crate::codes::{SHORT_NONE, widen};
use crate::span::Span;

/// What messages come to while a node's arcs are gone over. Of none it is told at the end how many there were: so a message takes
/// few steps, and no branch rests on it.
#[derive(Clone, Copy)]
pub(crate) struct ShortSpan {
    /// One below the least message, or the greatest number where there is no message.
    least: i32,
    /// The greatest message, or the number that stands for none.
    greatest: i32,
    /// The exact sum of the numbers, also of those that stand for none.
    total: i64,
    /// How many numbers stand for none.
    nones: u64,
}

impl ShortSpan {
    /// Of no number.
    pub(crate) fn new() -> ShortSpan
        ensures { IsShortSpan result 0 [] }
    {
        ShortSpan {
            least: i32::MAX,
            greatest: SHORT_NONE,
            total: 0,
            nones: 0,
        }
    }

    /// With one number more.
    pub(crate) fn with(self, number: i32) -> ShortSpan
        requires { HasRoom self }
        ensures { (numbers : ℕ) (ms : List Val) → IsShortSpan self numbers ms → IsShortSpan result (numbers + 1) (with_message ms (value_in (widened number))) }
    {
        ShortSpan {
            least: self.least.min(below(number)),
            greatest: self.greatest.max(number),
            total: self.total + i64::from(number),
            nones: self.nones + nones_in(number),
        }
    }

    /// What so many numbers come to as messages.
    pub(crate) fn span(self, numbers: usize) -> Span
        requires { self.nones ≤ numbers }
        ensures { (ms : List Val) → IsShortSpan self numbers ms → IsSpan result ms }
    {
        Span {
            least: above(self.least),
            greatest: widen(self.greatest),
            total: total_of(self.total, self.nones),
            count: numbers as u64 - self.nones,
        }
    }
}

// The number of which this is one below, or the greatest of eight bytes where this is the greatest of four.
fn above(least: i32) -> i64
    ensures { result ≡ above least }
{
    if least == i32::MAX {
        i64::MAX
    } else {
        i64::from(least) + 1
    }
}

// The sum of the messages, where each number that stands for none was added as -(2^31).
fn total_of(total: i64, nones: u64) -> i128
    ensures { result ≡ total +ℤ pos (2_147_483_648 * nones) }
{
    i128::from(total) + 2_147_483_648 * i128::from(nones)
}

// One below a number. The one that stands for none is the lowest, and one below it is the greatest.
fn below(number: i32) -> i32
    ensures { result ≡ (if int_eq number lowest_short then greatest_short else number -ℤ pos 1) }
{
    number.wrapping_sub(1)
}

// How many numbers that stand for none this is.
fn nones_in(number: i32) -> u64
    ensures { result ≡ (if int_eq number lowest_short then 1 else 0) }
{
    u64::from(number == SHORT_NONE)
}
