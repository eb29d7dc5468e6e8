//! Arithmetic of values. Whoever computes values of programs in another way, in a room above, computes by these functions.

ghost use Rattle.std.specs.Prelude.{◌≡◌, ◌≢◌, ◌<ℤ◌, ◌≤ℤ◌, ◌+ℤ◌, ◌-ℤ◌, ◌*ℤ◌, pos, negsuc};
ghost use Rattle.std.specs.Int.RustNames.{int_div};
ghost use Rattle.vertex_lang.specs.Mail.{extreme_with};
ghost use Rattle.vertex_lang.specs.Values.{clamped, added, multiplied, divided, scaled, negated, lesser, greater, in_range, compares, number_compares, exact_sum, is_nil};

use crate::program::{Cmp, Gather};
use graph_model::Val;

/// The greatest number that a value can be, 2^63 - 1.
const GREATEST: i64 = i64::MAX;

/// The least number that a value can be, -(2^63 - 1).
const LEAST: i64 = -GREATEST;

/// A number brought into the range of values, which is from -(2^63 - 1) to 2^63 - 1.
pub fn clamp_number(number: i128) -> i64
    ensures { result ≡ clamped number }
{
    if number > i128::from(GREATEST) {
        GREATEST
    } else if number < i128::from(LEAST) {
        LEAST
    } else {
        number as i64
    }
}

/// The sum of two numbers, clamped.
pub fn sum_of(left: i64, right: i64) -> i64
    ensures { result ≡ clamped (left +ℤ right) }
{
    left.saturating_add(right).max(LEAST)
}

// The difference of two numbers, clamped.
fn difference_of(left: i64, right: i64) -> i64
    ensures { result ≡ clamped (left -ℤ right) }
{
    left.saturating_sub(right).max(LEAST)
}

/// The product of two numbers, clamped.
pub fn product_of(left: i64, right: i64) -> i64
    ensures { result ≡ clamped (left *ℤ right) }
{
    left.saturating_mul(right).max(LEAST)
}

/// The quotient of two numbers, cut towards zero and clamped. Only that of -(2^63) can be out of range.
pub fn quotient_of(number: i64, divisor: i64) -> i64
    requires { divisor ≢ pos 0 }
    ensures { result ≡ clamped (int_div number divisor) }
{
    if number < LEAST {
        return clamp_number(i128::from(number) / i128::from(divisor));
    }
    number / divisor
}

/// The sum (true) or the difference (false), clamped. Of none it is none.
pub(crate) fn add(plus: bool, left: Val, right: Val) -> Val
    ensures { result ≡ added plus left right }
{
    match (left, right) {
        (Val::Num(a), Val::Num(b)) => Val::Num(add_numbers(plus, a, b)),
        _ => Val::Nil,
    }
}

// The sum (true) or the difference (false) of two numbers, clamped.
fn add_numbers(plus: bool, a: i64, b: i64) -> i64
    ensures { result ≡ clamped (exact_sum plus a b) }
{
    if plus {
        sum_of(a, b)
    } else {
        difference_of(a, b)
    }
}

/// The product (true) or the quotient (false), clamped. Of none it is none, and so is a quotient by 0.
pub(crate) fn scale(times: bool, left: Val, right: Val) -> Val
    ensures { result ≡ scaled times left right }
{
    if times {
        multiply(left, right)
    } else {
        divide(left, right)
    }
}

// The product, clamped. Of none it is none.
fn multiply(left: Val, right: Val) -> Val
    ensures { result ≡ multiplied left right }
{
    match (left, right) {
        (Val::Num(a), Val::Num(b)) => Val::Num(product_of(a, b)),
        _ => Val::Nil,
    }
}

// The quotient, cut towards zero and clamped. Of none it is none, and by 0 too.
fn divide(left: Val, right: Val) -> Val
    ensures { result ≡ divided left right }
{
    match (left, right) {
        (Val::Num(a), Val::Num(b)) if b != 0 => Val::Num(quotient_of(a, b)),
        _ => Val::Nil,
    }
}

/// The number with the other sign, clamped. Of none it is none.
pub(crate) fn negate(value: Val) -> Val
    ensures { result ≡ negated value }
{
    match value {
        Val::Nil => Val::Nil,
        Val::Num(number) => Val::Num(clamp_number(-i128::from(number))),
    }
}

/// The lesser of two values, where none is not counted.
pub fn lesser_of(left: Val, right: Val) -> Val
    ensures { result ≡ lesser left right }
{
    match (left, right) {
        (Val::Nil, _) => right,
        (_, Val::Nil) => left,
        (Val::Num(a), Val::Num(b)) => Val::Num(a.min(b)),
    }
}

/// The greater of two values, where none is not counted.
pub fn greater_of(left: Val, right: Val) -> Val
    ensures { result ≡ greater left right }
{
    match (left, right) {
        (Val::Nil, given) => given,
        (given, Val::Nil) => given,
        (Val::Num(a), Val::Num(b)) => Val::Num(a.max(b)),
    }
}

/// The least or the greatest message with one message more, where the one or the other is gathered.
pub fn join(kind: Gather, extreme: Val, message: Val) -> Val
    ensures { result ≡ extreme_with kind extreme message }
{
    match kind {
        Gather::Min => lesser_of(extreme, message),
        Gather::Max => greater_of(extreme, message),
        Gather::Sum => extreme,
        Gather::Count => extreme,
    }
}

/// The value with its number clamped.
pub fn clamp(value: Val) -> Val
    ensures { result ≡ in_range value }
{
    match value {
        Val::Nil => Val::Nil,
        Val::Num(number) => Val::Num(number.max(LEAST)),
    }
}

/// Whether a value is none.
pub(crate) fn is_none(value: Val) -> bool
    ensures { result ≡ is_nil value }
{
    match value {
        Val::Nil => true,
        Val::Num(_) => false,
    }
}

// Whether two numbers compare so.
fn compare_numbers(sign: Cmp, a: i64, b: i64) -> bool
    ensures { result ≡ number_compares sign a b }
{
    match sign {
        Cmp::Eq => a == b,
        Cmp::Ne => a != b,
        Cmp::Lt => a < b,
        Cmp::Le => a <= b,
        Cmp::Gt => a > b,
        Cmp::Ge => a >= b,
    }
}

/// Whether two values compare so. With none on either side they do not.
pub(crate) fn compare(sign: Cmp, left: Val, right: Val) -> bool
    ensures { result ≡ compares sign left right }
{
    match (left, right) {
        (Val::Num(a), Val::Num(b)) => compare_numbers(sign, a, b),
        _ => false,
    }
}
