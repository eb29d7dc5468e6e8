//! Kinds of characters.

ghost use Rattle.std.specs.Prelude.{◌≡◌};
ghost use Rattle.gvdl_tokens.specs.Characters.{is_blank, is_digit, begins_name, in_name};

/// Whether the character stands between tokens.
pub fn is_blank(b: u8) -> bool
    ensures { result ≡ is_blank b }
{
    b == b' ' || b == b'\t' || b == b'\r' || b == b'\n'
}

/// Whether the character is a decimal digit.
pub fn is_digit(b: u8) -> bool
    ensures { result ≡ is_digit b }
{
    b >= b'0' && b <= b'9'
}

/// Whether a name or word may begin with the character.
pub fn begins_name(b: u8) -> bool
    ensures { result ≡ begins_name b }
{
    (b >= b'A' && b <= b'Z') || (b >= b'a' && b <= b'z') || b == b'_'
}

/// Whether a name or word may go on with the character.
pub fn in_name(b: u8) -> bool
    ensures { result ≡ in_name b }
{
    begins_name(b) || is_digit(b) || b == b'-'
}
