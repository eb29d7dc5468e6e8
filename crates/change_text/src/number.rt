//! Whole numbers as they are spelled: with no leading zeros.

ghost use Rattle.std.specs.Prelude.{◌≡◌, ◌∷◌, ◌<◌, ◌≤◌, ◌^◌, true, None, IfSome, IfNone, length};
ghost use Rattle.std.specs.Str.{all_ascii_digits};
ghost use Rattle.std.specs.Str.Parse.{digits_value};
ghost use Rattle.change_text.specs.Inside.{ReadsNumber, ReadsValue};

use graph_model::Val;

// A number with more than this before its last digit is above 2^63 - 1.
const MOST_TENS: u64 = 922_337_203_685_477_580;

const GREATEST: u64 = 9_223_372_036_854_775_807;

// The value of some digits, where it is at most 2^63 - 1.
fn value_of(digits: &[u8]) -> Option<u64>
    ensures digits { IfSome result (λ n. all_ascii_digits digits.now ≡ true) }
    ensures value { IfSome result (λ n. digits_value 10 digits.now ≡ n) }
    ensures limit { IfSome result (λ n. n < 2 ^ 63) }
    ensures none { IfNone result (all_ascii_digits digits.now ≡ true → 2 ^ 63 ≤ digits_value 10 digits.now) }
{
    let mut value: u64 = 0;
    for b in digits {
        if !b.is_ascii_digit() {
            return None;
        }
        if value > MOST_TENS {
            return None;
        }
        value = value * 10 + u64::from(*b - b'0');
    }
    if value > GREATEST { None } else { Some(value) }
}

/// The number below 2^63 that these bytes spell.
pub(crate) fn number_of(digits: &[u8]) -> Option<u64>
    ensures { ReadsNumber digits.now result }
{
    if digits.is_empty() {
        return None;
    }
    if digits[0] == b'0' {
        return if digits.len() == 1 { Some(0) } else { None };
    }
    value_of(digits)
}

// The value that a minus and these bytes spell.
fn behind_minus(digits: &[u8]) -> Option<Val>
    ensures { ReadsValue (45 ∷ digits.now) result }
{
    if digits.is_empty() {
        return Some(Val::Nil);
    }
    let Some(number) = number_of(digits) else {
        return None;
    };
    if number == 0 {
        return None;
    }
    Some(Val::Num(-(number as i64)))
}

/// The value that these bytes spell.
pub(crate) fn read_value(bytes: &[u8]) -> Option<Val>
    ensures { ReadsValue bytes.now result }
{
    match bytes {
        [] => None,
        [first, rest @ ..] => {
            if *first == b'-' {
                return behind_minus(rest);
            }
            match number_of(bytes) {
                Some(number) => Some(Val::Num(number as i64)),
                None => None,
            }
        }
    }
}
