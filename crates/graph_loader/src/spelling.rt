//! What a field of a data file spells.

ghost use Rattle.std.specs.Prelude.{◌≡◌, ◌+◌, ◌<◌, ◌^◌, length, map, take};
ghost use Rattle.graph_loader.specs.Spelling.{id_spelled, signed_spelled, int_spelled, bool_spelled, is_true_word, is_false_word};

/// An id has at most so many digits, leading zeros among them.
const MOST_DIGITS: usize = 19;

/// Ids are smaller than this.
const END_OF_IDS: u64 = 1 << 63;

/// The id that 1 to 19 decimal digits spell, or `None` where the field is no id: an id is below 2^63.
pub(crate) fn id_from(field: &[u8]) -> Option<u64>
    ensures { result ≡ id_spelled field.now }
{
    if field.is_empty() || field.len() > MOST_DIGITS {
        return None;
    }
    let mut value: u64 = 0;
    for byte in field {
        if !byte.is_ascii_digit() {
            return None;
        }
        value = value * 10 + u64::from(*byte - b'0');
    }
    if value < END_OF_IDS {
        Some(value)
    } else {
        None
    }
}

/// The number from -(2^63 - 1) to 2^63 - 1 that a field spells by digits and maybe a minus sign.
fn signed_from(field: &[u8]) -> Option<i64>
    ensures { result ≡ signed_spelled field.now }
{
    match field {
        [b'-', digits @ ..] => Some(-(id_from(digits)? as i64)),
        _ => Some(id_from(field)? as i64),
    }
}

/// The cell that a field of a column of whole numbers spells: absent where it is empty.
/// `None` is a field that is no such cell.
pub(crate) fn int_from(field: &[u8]) -> Option<Option<i64>>
    ensures { result ≡ int_spelled field.now }
{
    if field.is_empty() {
        return Some(None);
    }
    Some(Some(signed_from(field)?))
}

/// The cell that a field of a column of truth values spells: absent where it is empty.
/// `None` is a field that is no such cell.
pub(crate) fn bool_from(field: &[u8]) -> Option<Option<bool>>
    ensures { result ≡ bool_spelled field.now }
{
    if field.is_empty() {
        Some(None)
    } else if spells_true(field) {
        Some(Some(true))
    } else if spells_false(field) {
        Some(Some(false))
    } else {
        None
    }
}

/// Whether a field is a word for true.
fn spells_true(field: &[u8]) -> bool
    ensures { result ≡ is_true_word field.now }
{
    field == b"true".as_slice() || field == b"True".as_slice() || field == b"TRUE".as_slice()
}

/// Whether a field is a word for false.
fn spells_false(field: &[u8]) -> bool
    ensures { result ≡ is_false_word field.now }
{
    field == b"false".as_slice() || field == b"False".as_slice() || field == b"FALSE".as_slice()
}
