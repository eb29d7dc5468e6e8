//! What messages come to that are kept as numbers of eight bytes.

ghost use Rattle.std.specs.Prelude.{◌≡◌, ◌≢◌, ◌<◌, ◌^◌, ◌==◌, if◌then◌else◌, [], List, pos, fold};
ghost use Rattle.std.specs.Ordering.{int_eq};
ghost use Rattle.graph_model.specs.declared.value.Val.TheVariants.{Nil, Num};
ghost use Rattle.message_forms.specs.Codes.{value_in};
ghost use Rattle.value_codes.specs.Spans.{IsSpan, sums_of, with_message};
ghost use Rattle.value_codes.specs.Tallies.{IsBounded, tally_of};
ghost use Rattle.vertex_lang.specs.Mail.{extreme_with};
ghost use Rattle.vertex_lang.specs.Values.{greatest, lowest_number};

use crate::tally::Tally;
use graph_model::Val;
use message_forms::{NONE, value_of};
use vertex_lang::Gather;

/// What messages come to, whichever way they are gathered: so going over the arcs into a node asks nothing of how.
#[derive(Clone, Copy)]
pub struct Span {
    /// The least message, or the greatest number where there is no message.
    pub least: i64,
    /// The greatest message, or the number that stands for none.
    pub greatest: i64,
    /// The exact sum of the messages.
    pub total: i128,
    /// How many messages there are.
    pub count: u64,
}

impl Span {
    /// Of no message.
    pub fn new() -> Span
        ensures span { IsSpan result [] }
        ensures bounded { IsBounded (sums_of result) }
    {
        Span {
            least: i64::MAX,
            greatest: NONE,
            total: 0,
            count: 0,
        }
    }

    /// With the message that is this number. None is not sent: it is added as what changes nothing, since a branch would
    /// rest on the messages, in no order.
    pub fn with(self, number: i64) -> Span
        requires room { self.count < 2 ^ 32 }
        requires bounded { IsBounded (sums_of self) }
        ensures span { (ms : List Val) → IsSpan self ms → IsSpan result (with_message ms (value_in number)) }
        ensures bounded { IsBounded (sums_of result) }
    {
        Span {
            least: self.least.min(low_of(number)),
            greatest: self.greatest.max(number),
            total: self.total + i128::from(term_of(number)),
            count: self.count + sent_in(number),
        }
    }

    /// With one message more, which is this number and not the one that stands for none.
    pub fn with_number(self, number: i64) -> Span
        requires some { number ≢ lowest_number }
        requires room { self.count < 2 ^ 32 }
        requires bounded { IsBounded (sums_of self) }
        ensures span { (ms : List Val) → IsSpan self ms → IsSpan result (with_message ms (value_in number)) }
        ensures bounded { IsBounded (sums_of result) }
    {
        Span {
            least: self.least.min(number),
            greatest: self.greatest.max(number),
            total: self.total + i128::from(number),
            count: self.count + 1,
        }
    }

    /// What the messages come to where they are gathered so.
    pub fn tally(self, kind: Gather) -> Tally
        ensures { (ms : List Val) → IsSpan self ms → result ≡ tally_of kind ms }
    {
        Tally {
            extreme: self.extreme(kind),
            total: self.total,
            count: self.count,
        }
    }

    // The least or the greatest message, where the one or the other is gathered.
    fn extreme(self, kind: Gather) -> Val
        ensures { (ms : List Val) → IsSpan self ms → result ≡ fold (extreme_with kind) Nil ms }
    {
        match kind {
            Gather::Min => self.lowest(),
            Gather::Max => value_of(self.greatest),
            Gather::Sum => Val::Nil,
            Gather::Count => Val::Nil,
        }
    }

    // The least message.
    fn lowest(self) -> Val
        ensures { result ≡ (if self.count == 0 then Nil else Num self.least) }
    {
        if self.count == 0 {
            Val::Nil
        } else {
            Val::Num(self.least)
        }
    }
}

// The number, or the greatest one where it stands for none.
fn low_of(number: i64) -> i64
    ensures { result ≡ (if int_eq number lowest_number then greatest else number) }
{
    if number == NONE { i64::MAX } else { number }
}

// The number, or 0 where it stands for none.
fn term_of(number: i64) -> i64
    ensures { result ≡ (if int_eq number lowest_number then pos 0 else number) }
{
    if number == NONE { 0 } else { number }
}

// How many messages it is: 0 where it stands for none.
fn sent_in(number: i64) -> u64
    ensures { result ≡ (if int_eq number lowest_number then 0 else 1) }
{
    u64::from(number != NONE)
}
