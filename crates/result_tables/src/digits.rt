//! Decimal digits.

ghost use Rattle.std.specs.Prelude.{◌≡◌, ◌++◌, ◌+◌, ◌≤◌, length, drop, OnOk};
ghost use Rattle.std.specs.Fmt.{decimal, signed_decimal};

use itoa::write_digits;
use surge_outside::NoMemory;

/// Lays the digits of a number out before a place, and tells where they begin: at most 20 bytes before it.
pub(crate) fn lay_digits(room: &mut [u8], end: usize, number: u64) -> usize
    requires long { 20 ≤ end }
    requires in_room { end ≤ length room.old }
    ensures size { length room.new ≡ length room.old }
    ensures within { result ≤ end }
    ensures far { end ≤ result + 20 }
    ensures digits { drop result room.new ≡ decimal number ++ drop end room.old }
{
    write_digits(number, room, end)
}

/// The same, with `-` before the digits where the number is below zero.
pub(crate) fn lay_signed(room: &mut [u8], end: usize, number: i64) -> usize
    requires long { 21 ≤ end }
    requires in_room { end ≤ length room.old }
    ensures size { length room.new ≡ length room.old }
    ensures within { result ≤ end }
    ensures far { end ≤ result + 21 }
    ensures digits { drop result room.new ≡ signed_decimal number ++ drop end room.old }
{
    let start = lay_digits(room, end, number.unsigned_abs());
    if number >= 0 {
        return start;
    }
    room[start - 1] = b'-';
    start - 1
}

/// Adds the digits of a number.
pub(crate) fn push_decimal(text: &mut Vec<u8>, number: u64) -> Result<(), NoMemory>
    ensures { OnOk result (text.new.items ≡ text.old.items ++ decimal number) }
{
    let mut room = [0u8; 20];
    let start = lay_digits(&mut room, 20, number);
    text.extend_from_slice(&room[start..])?;
    Ok(())
}
