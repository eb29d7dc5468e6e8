//! Values as numbers of eight bytes, so that those of many nodes stay near.

ghost use Rattle.std.specs.Prelude.{◌≡◌, ◌<◌, ◌^◌, true, List, length, All, IfOk, IfSome, IsTrue};
ghost use Rattle.graph_model.specs.declared.value.Val.{Val};
ghost use Rattle.message_forms.specs.Codes.{value_in};
ghost use Rattle.vertex_lang.specs.Values.{added};
ghost use Rattle.value_codes.specs.Numbers.{AreNumbers, AreRenewed, sent_over};
ghost use Rattle.value_codes.specs.Spans.{IsSpan, sums_of, with_message};
ghost use Rattle.value_codes.specs.Tallies.{IsBounded, tally_of};

use crate::span::Span;
use crate::tally::Tally;
use change_lists::Change;
use graph_model::Val;
use message_forms::{Link, NONE, number_of};
use std::alloc::Global;
use surge_outside::NoMemory;
use vertex_lang::{Gather, arithmetic};

/// All values as numbers, or nothing where one has none. The error is want of memory.
pub fn numbers_of(alloc: Global, values: &[Val]) -> Result<Option<Vec<i64>>, NoMemory>
    ensures { IfOk result (λ found. IfSome found (λ n. AreNumbers values.now n.items)) }
{
    let mut numbers = Vec::with_capacity(alloc, values.len())?;
    for value in values {
        match number_of(*value) {
            Some(number) => numbers.push(number)?,
            None => return Ok(None),
        }
    }
    Ok(Some(numbers))
}

/// Gives each node that changes the number of its value, and tells whether each has one.
pub fn renew(numbers: &mut [i64], values: &[Val], changes: &[Change]) -> bool
    requires size { length numbers.old ≡ length values.now }
    requires within { All (λ c. c.node.0 < length values.now) changes.now }
    ensures { IsTrue result → AreRenewed values.now changes.now numbers.old numbers.new }
{
    for change in changes {
        let place = change.node.0 as usize;
        match number_of(values[place]) {
            Some(number) => numbers[place] = number,
            None => return false,
        }
    }
    true
}

/// What comes of arcs that bring the number of their tail and their own number added. Where the least is gathered, the greatest
/// is left out in the same way.
pub fn tally_links(kind: Gather, numbers: &[i64], links: &[Link]) -> Tally
    requires few { length links.now < 2 ^ 32 }
    requires tails { All (λ l. l.tail.0 < length numbers.now) links.now }
    ensures { result ≡ tally_of kind (sent_over numbers.now links.now) }
{
    match kind {
        Gather::Min => span_of_links(numbers, links).tally(Gather::Min),
        _ => span_of_links(numbers, links).tally(kind),
    }
}

// The least, the greatest, the sum and the count of what these arcs bring.
fn span_of_links(numbers: &[i64], links: &[Link]) -> Span
    requires few { length links.now < 2 ^ 32 }
    requires tails { All (λ l. l.tail.0 < length numbers.now) links.now }
    ensures { IsSpan result (sent_over numbers.now links.now) }
{
    let mut span = Span::new();
    for link in links {
        span = with_link(span, numbers[link.tail.0 as usize], link.step);
    }
    span
}

// With the sum of these two numbers, unless one stands for none: most often neither does, and then the sum doesn't either.
fn with_link(span: Span, number: i64, step: i64) -> Span
    requires room { span.count < 2 ^ 32 }
    requires bounded { IsBounded (sums_of span) }
    ensures span { (ms : List Val) → IsSpan span ms → IsSpan result (with_message ms (added true (value_in number) (value_in step))) }
    ensures bounded { IsBounded (sums_of result) }
{
    if number == NONE {
        return span;
    }
    if step == NONE {
        return span;
    }
    span.with_number(arithmetic::sum_of(number, step))
}
