//! Numbers that stand for values, of four bytes each as long as all of them fit: so those of many nodes stay near.

ghost use Rattle.std.specs.Prelude.{◌≡◌, ◌<◌, ◌^◌, [], List, length, get_or, map, pos, slice_set, All, IfOk, IfSome, IsTrue};
ghost use Rattle.graph_model.specs.declared.value.Val.{Val};
ghost use Rattle.message_forms.specs.Codes.{value_in};
ghost use Rattle.change_lists.specs.ChangeLists.{HasChanges};
ghost use Rattle.value_codes.specs.Numbers.{AreMessages, IsPut, sent_from};
ghost use Rattle.value_codes.specs.ShortCodes.{widened};
ghost use Rattle.value_codes.specs.Spans.{IsSpan};
ghost use Rattle.value_codes.specs.Tallies.{tally_of};

use crate::short_span::ShortSpan;
use crate::span::Span;
use crate::tally::Tally;
use change_lists::Change;
use graph_model::{NodeNo, Val};
use message_forms::{NONE, message_with, number_of};
use std::alloc::Global;
use std::marker::Model;
use surge_outside::NoMemory;
use vertex_lang::Gather;

/// Numbers that stand for values. Contracts see the list of them.
#[derive(Drop)]
pub struct Codes {
    held: Held,
}

/// How the numbers are held.
#[derive(Drop)]
enum Held {
    /// Each in four bytes: the lowest number of so many bytes stands for none.
    Short(Vec<i32>),
    /// Each in eight bytes.
    Long(Vec<i64>),
}

impl Model for Codes {
    ghost use Rattle.std.specs.Prelude.{List, ℤ};

    ghost Value = { List ℤ };

    ghost use Rattle.value_codes.specs.ShortCodes.{codes_in};

    ghost view = { λ codes. codes_in codes.held };
}

/// The number of four bytes that stands for none.
pub(crate) const SHORT_NONE: i32 = i32::MIN;

impl Codes {
    /// These, of four bytes each.
    pub fn short(list: Vec<i32>) -> Codes
        ensures { result ≡ map widened list.items }
    {
        Codes {
            held: Held::Short(list),
        }
    }

    /// These, of eight bytes each.
    pub fn long(list: Vec<i64>) -> Codes
        ensures { result ≡ list.items }
    {
        Codes {
            held: Held::Long(list),
        }
    }

    /// No number. It takes no memory.
    pub fn new(alloc: Global) -> Codes
        ensures { result ≡ [] }
    {
        Codes {
            held: Held::Short(Vec::new(alloc)),
        }
    }

    /// Puts a number in the place of another, and tells whether it could: one that doesn't fit isn't put among those of four
    /// bytes.
    pub fn set(&mut self, place: usize, number: i64) -> bool
        requires { place < length self.old }
        ensures { IsTrue result → self.new ≡ slice_set self.old place number }
    {
        match &mut self.held {
            Held::Long(list) => {
                list[place] = number;
                return true;
            }
            Held::Short(list) => {
                if let Some(short) = short_of(number) {
                    list[place] = short;
                    return true;
                }
            }
        }
        false
    }

    /// Gives each node that changes its new value, and the number of its new message, which is the value or the value and a
    /// number added. It tells whether each of these numbers fits.
    pub fn follow(&mut self, added: Option<i64>, now: &mut [Val], changes: &[Change]) -> bool
        requires within { All (λ c. c.node.0 < length now.old) changes.now }
        requires messages { AreMessages added now.old self.old }
        ensures size { length now.new ≡ length now.old }
        ensures values { (after : List Val) → length after ≡ length now.old → HasChanges (length now.old) now.old after changes.now → now.new ≡ after }
        ensures messages { IsTrue result → AreMessages added now.new self.new }
    {
        match &mut self.held {
            Held::Short(list) => follow_short(added, now, list, changes),
            Held::Long(list) => follow_long(added, now, list, changes),
        }
    }

    /// The number at this place.
    pub fn at(&self, place: usize) -> i64
        requires { place < length self.now }
        ensures { result ≡ get_or self.now place (pos 0) }
    {
        match &self.held {
            Held::Short(list) => widen(list[place]),
            Held::Long(list) => list[place],
        }
    }

    /// What comes of arcs that bring the numbers of their tails. Where they are added up, the compiler leaves out the least and
    /// the greatest, for which nobody asks then, and where the least is gathered the greatest.
    pub fn tally(&self, kind: Gather, tails: &[NodeNo]) -> Tally
        requires few { length tails.now < 2 ^ 32 }
        requires tails { All (λ t. t.0 < length self.now) tails.now }
        ensures { result ≡ tally_of kind (sent_from self.now tails.now) }
    {
        match &self.held {
            Held::Short(list) => tally_short(kind, list, tails),
            Held::Long(list) => tally_long(kind, list, tails),
        }
    }
}

// Gives each node that changes its new value and message, held in four bytes.
fn follow_short(
    added: Option<i64>,
    now: &mut [Val],
    numbers: &mut [i32],
    changes: &[Change],
) -> bool
    requires within { All (λ c. c.node.0 < length now.old) changes.now }
    requires messages { AreMessages added now.old (map widened numbers.old) }
    ensures size { length now.new ≡ length now.old }
    ensures values { (after : List Val) → length after ≡ length now.old → HasChanges (length now.old) now.old after changes.now → now.new ≡ after }
    ensures messages { IsTrue result → AreMessages added now.new (map widened numbers.new) }
{
    let mut kept = true;
    for change in changes {
        let place = change.node.0 as usize;
        now[place] = change.value;
        if kept {
            kept = put_short(numbers, place, message_with(added, change.value));
        }
    }
    kept
}

// Keeps a message for a node, and tells whether it has a number that fits.
fn put_short(numbers: &mut [i32], place: usize, message: Val) -> bool
    requires { place < length numbers.old }
    ensures { IsTrue result → IsPut place message (map widened numbers.old) (map widened numbers.new) }
{
    match short_code(message) {
        Some(short) => {
            numbers[place] = short;
            true
        }
        None => false,
    }
}

// Gives nodes their new values and the messages that go with them, held in eight bytes each.
fn follow_long(added: Option<i64>, now: &mut [Val], numbers: &mut [i64], changes: &[Change]) -> bool
    requires within { All (λ c. c.node.0 < length now.old) changes.now }
    requires messages { AreMessages added now.old numbers.old }
    ensures size { length now.new ≡ length now.old }
    ensures values { (after : List Val) → length after ≡ length now.old → HasChanges (length now.old) now.old after changes.now → now.new ≡ after }
    ensures messages { IsTrue result → AreMessages added now.new numbers.new }
{
    let mut kept = true;
    for change in changes {
        let place = change.node.0 as usize;
        now[place] = change.value;
        if kept {
            kept = put_long(numbers, place, message_with(added, change.value));
        }
    }
    kept
}

// Keeps a message for a node, and tells whether it has a number.
fn put_long(numbers: &mut [i64], place: usize, message: Val) -> bool
    requires { place < length numbers.old }
    ensures { IsTrue result → IsPut place message numbers.old numbers.new }
{
    match number_of(message) {
        Some(number) => {
            numbers[place] = number;
            true
        }
        None => false,
    }
}

/// A value as a number of four bytes, where it is one.
pub fn short_code(value: Val) -> Option<i32>
    ensures { IfSome result (λ z. value_in (widened z) ≡ value) }
{
    match value {
        Val::Nil => Some(SHORT_NONE),
        Val::Num(number) => {
            if number == NONE {
                None
            } else {
                short_of(number)
            }
        }
    }
}

// The number as one of four bytes, where it is one.
fn short_of(number: i64) -> Option<i32>
    ensures { IfSome result (λ z. widened z ≡ number) }
{
    if number == NONE {
        return Some(SHORT_NONE);
    }
    if number <= i64::from(SHORT_NONE) || number > i64::from(i32::MAX) {
        return None;
    }
    Some(number as i32)
}

// And back.
pub(crate) fn widen(short: i32) -> i64
    ensures { result ≡ widened short }
{
    if short == SHORT_NONE {
        NONE
    } else {
        i64::from(short)
    }
}

/// Numbers of four bytes, each in eight bytes. The error is want of memory.
pub fn lengthened(alloc: Global, list: &[i32]) -> Result<Vec<i64>, NoMemory>
    ensures { IfOk result (λ long. long.items ≡ map widened list.now) }
{
    let mut long = Vec::with_capacity(alloc, list.len())?;
    for short in list {
        long.push(widen(*short))?;
    }
    Ok(long)
}

// What comes of arcs that bring the numbers of their tails, held in four bytes each.
fn tally_short(kind: Gather, numbers: &[i32], tails: &[NodeNo]) -> Tally
    requires few { length tails.now < 2 ^ 32 }
    requires tails { All (λ t. t.0 < length numbers.now) tails.now }
    ensures { result ≡ tally_of kind (sent_from (map widened numbers.now) tails.now) }
{
    match kind {
        Gather::Sum => span_of_short(numbers, tails).tally(Gather::Sum),
        Gather::Min => span_of_short(numbers, tails).tally(Gather::Min),
        _ => span_of_short(numbers, tails).tally(kind),
    }
}

// The least, the greatest, the sum and the count of numbers held in four bytes each.
fn span_of_short(numbers: &[i32], tails: &[NodeNo]) -> Span
    requires few { length tails.now < 2 ^ 32 }
    requires tails { All (λ t. t.0 < length numbers.now) tails.now }
    ensures { IsSpan result (sent_from (map widened numbers.now) tails.now) }
{
    let mut span = ShortSpan::new();
    for tail in tails {
        span = span.with(numbers[tail.0 as usize]);
    }
    span.span(tails.len())
}

// What comes of arcs that bring the numbers of their tails, held in eight bytes each.
fn tally_long(kind: Gather, numbers: &[i64], tails: &[NodeNo]) -> Tally
    requires few { length tails.now < 2 ^ 32 }
    requires tails { All (λ t. t.0 < length numbers.now) tails.now }
    ensures { result ≡ tally_of kind (sent_from numbers.now tails.now) }
{
    match kind {
        Gather::Sum => span_of_long(numbers, tails).tally(Gather::Sum),
        Gather::Min => span_of_long(numbers, tails).tally(Gather::Min),
        _ => span_of_long(numbers, tails).tally(kind),
    }
}

// The least, the greatest, the sum and the count of numbers held in eight bytes each.
fn span_of_long(numbers: &[i64], tails: &[NodeNo]) -> Span
    requires few { length tails.now < 2 ^ 32 }
    requires tails { All (λ t. t.0 < length numbers.now) tails.now }
    ensures { IsSpan result (sent_from numbers.now tails.now) }
{
    let mut span = Span::new();
    for tail in tails {
        span = span.with(numbers[tail.0 as usize]);
    }
    span
}
