//! The values of runs of digits.

ghost use Rattle.std.specs.Prelude.{◌≡◌, ◌^◌, ◌<◌, ◌≤◌, IfSome, IfNone, true};
ghost use Rattle.std.specs.List.{list_all};
ghost use Rattle.std.specs.Str.Parse.{digits_value};
ghost use Rattle.gvdl_tokens.specs.Characters.{is_digit};

const MAX_NUMBER: u64 = 9_223_372_036_854_775_807;

/// The value of some digits, where it is at most the greatest number.
pub fn value_of(digits: &[u8]) -> Option<u64>
    requires { list_all is_digit digits.now ≡ true }
    ensures value { IfSome result (λ n. n ≡ digits_value 10 digits.now) }
    ensures limit { IfSome result (λ n. n < 2 ^ 63) }
    ensures large { IfNone result (2 ^ 63 ≤ digits_value 10 digits.now) }
{
    let mut value: u64 = 0;
    for b in digits {
        let digit = u64::from(*b - b'0');
        if value > (MAX_NUMBER - digit) / 10 {
            return None;
        }
        value = value * 10 + digit;
    }
    Some(value)
}
