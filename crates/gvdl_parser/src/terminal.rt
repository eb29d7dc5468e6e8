//! Reads numbers, properties, and the words and signs that mean a value.

ghost use Rattle.std.specs.Prelude.{◌≡◌, ◌<◌, ◌^◌, ℕ, pos, neg_ℤ};
ghost use Rattle.phrase_theory.specs.Phrases.{word, one};
ghost use Rattle.phrase_theory.specs.Reading.{alone, Reads};
ghost use Rattle.gvdl_parser.specs.Terminals.{opens, int, prop, cmp_token, truth_token, value_token, extreme_token, along_token, gather_token, order_token, within_token};

use crate::cursor::Cursor;
use crate::meaning::{
    along_of, comparison_of, extreme_of, gather_of, order_of, truth_of, value_of, within_of,
};
use gvdl_tokens::{Kind, Sign};
use gvdl_tree::{Along, Cmp, Gather, OrderWord, Word as ValueWord};
use phrase_theory::Fault;
use std::alloc::Global;
use surge_outside::Text;

/// A number that may be negative.
pub fn int(cursor: &mut Cursor<'_>) -> Result<i64, Fault>
    ensures { (n : ℕ) → Reads opens (λ _. int) alone n cursor.old.rest.now result cursor.new.rest.now }
{
    if cursor.sees_sign(Sign::Minus) {
        cursor.skip();
        let number = cursor.number()?;
        return Ok(negative(number));
    }
    let number = cursor.number()?;
    Ok(positive(number))
}

fn positive(number: u64) -> i64
    requires { number < 2 ^ 63 }
    ensures { result ≡ pos number }
{
    number as i64
}

fn negative(number: u64) -> i64
    requires { number < 2 ^ 63 }
    ensures { result ≡ neg_ℤ (pos number) }
{
    -(number as i64)
}

/// A property, by its name or its quoted name.
pub fn prop(alloc: Global, cursor: &mut Cursor<'_>) -> Result<Text, Fault>
    ensures { (n : ℕ) → Reads opens (λ _. prop) alone n cursor.old.rest.now result cursor.new.rest.now }
{
    match cursor.kind() {
        Kind::Quoted => cursor.quoted(alloc),
        _ => cursor.name(alloc),
    }
}

/// A comparison.
pub fn comparison(cursor: &mut Cursor<'_>) -> Result<Cmp, Fault>
    ensures { (n : ℕ) → Reads opens (λ _. one cmp_token) alone n cursor.old.rest.now result cursor.new.rest.now }
{
    let Some(meant) = comparison_of(cursor.kind()) else {
        return Err(Fault::Syntax);
    };
    cursor.skip();
    Ok(meant)
}

/// `true` or `false`.
pub fn truth(cursor: &mut Cursor<'_>) -> Result<bool, Fault>
    ensures { (n : ℕ) → Reads opens (λ _. one truth_token) alone n cursor.old.rest.now result cursor.new.rest.now }
{
    let Some(meant) = truth_of(cursor.kind()) else {
        return Err(Fault::Syntax);
    };
    cursor.skip();
    Ok(meant)
}

/// A word that stands for a value.
pub fn value_word(cursor: &mut Cursor<'_>) -> Result<ValueWord, Fault>
    ensures { (n : ℕ) → Reads opens (λ _. one value_token) alone n cursor.old.rest.now result cursor.new.rest.now }
{
    let Some(meant) = value_of(cursor.kind()) else {
        return Err(Fault::Syntax);
    };
    cursor.skip();
    Ok(meant)
}

/// `max` (true) or `min` (false).
pub fn extreme_word(cursor: &mut Cursor<'_>) -> Result<bool, Fault>
    ensures { (n : ℕ) → Reads opens (λ _. one extreme_token) alone n cursor.old.rest.now result cursor.new.rest.now }
{
    let Some(meant) = extreme_of(cursor.kind()) else {
        return Err(Fault::Syntax);
    };
    cursor.skip();
    Ok(meant)
}

/// `out`, `in` or `both`.
pub fn along(cursor: &mut Cursor<'_>) -> Result<Along, Fault>
    ensures { (n : ℕ) → Reads opens (λ _. one along_token) alone n cursor.old.rest.now result cursor.new.rest.now }
{
    let Some(meant) = along_of(cursor.kind()) else {
        return Err(Fault::Syntax);
    };
    cursor.skip();
    Ok(meant)
}

/// `min`, `max`, `sum` or `count`.
pub fn gather(cursor: &mut Cursor<'_>) -> Result<Gather, Fault>
    ensures { (n : ℕ) → Reads opens (λ _. one gather_token) alone n cursor.old.rest.now result cursor.new.rest.now }
{
    let Some(meant) = gather_of(cursor.kind()) else {
        return Err(Fault::Syntax);
    };
    cursor.skip();
    Ok(meant)
}

/// `greedy`, `declared` or `tree`.
pub fn order(cursor: &mut Cursor<'_>) -> Result<OrderWord, Fault>
    ensures { (n : ℕ) → Reads opens (λ _. one order_token) alone n cursor.old.rest.now result cursor.new.rest.now }
{
    let Some(meant) = order_of(cursor.kind()) else {
        return Err(Fault::Syntax);
    };
    cursor.skip();
    Ok(meant)
}

/// `within` (true) or `for` (false).
pub fn within(cursor: &mut Cursor<'_>) -> Result<bool, Fault>
    ensures { (n : ℕ) → Reads opens (λ _. one within_token) alone n cursor.old.rest.now result cursor.new.rest.now }
{
    let Some(meant) = within_of(cursor.kind()) else {
        return Err(Fault::Syntax);
    };
    cursor.skip();
    Ok(meant)
}
