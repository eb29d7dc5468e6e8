//! The lines of rows.

ghost use Rattle.std.specs.Prelude.{◌≡◌, ◌++◌, ◌+◌, ◌*◌, ◌≤◌, length, drop, map, OnOk};
ghost use Rattle.std.specs.Fmt.{decimal, signed_decimal};
ghost use Rattle.result_tables.specs.TableText.{value_text, value_line};
ghost use Rattle.change_text.specs.Spelling.{ended, row_line};

use crate::row::Row;
use graph_model::Val;
use itoa::write_digits;
use surge_outside::NoMemory;

/// Lays the digits of a number out before a place, and tells where they begin: at most 20 bytes before it.
pub(crate) fn lay_digits(room: &mut [u8], end: usize, number: u64) -> usize
    requires long { 20 ≤ end }
    requires in_room { end ≤ length room.old }
    ensures size { length room.new ≡ length room.old }
    ensures within { result ≤ end }
    ensures far { end ≤ result + 20 }
    ensures digits { drop result room.new ≡ decimal number ++ drop end room.old }
{
    write_digits(number, room, end)
}

// The same, with `-` before the digits where the number is below zero.
fn lay_signed(room: &mut [u8], end: usize, number: i64) -> usize
    requires long { 21 ≤ end }
    requires in_room { end ≤ length room.old }
    ensures size { length room.new ≡ length room.old }
    ensures within { result ≤ end }
    ensures far { end ≤ result + 21 }
    ensures digits { drop result room.new ≡ signed_decimal number ++ drop end room.old }
{
    let start = lay_digits(room, end, number.unsigned_abs());
    if number >= 0 {
        return start;
    }
    room[start - 1] = b'-';
    start - 1
}

// Lays a value out before a place, and tells where it begins.
fn lay_value(room: &mut [u8], end: usize, value: Val) -> usize
    requires long { 21 ≤ end }
    requires in_room { end ≤ length room.old }
    ensures size { length room.new ≡ length room.old }
    ensures within { result ≤ end }
    ensures far { end ≤ result + 21 }
    ensures text { drop result room.new ≡ value_text value ++ drop end room.old }
{
    match value {
        Val::Nil => {
            room[end - 1] = b'-';
            end - 1
        }
        Val::Num(number) => lay_signed(room, end, number),
    }
}

// Lays the line of a row out before a place, and tells where it begins: at most 43 bytes before it, for 20 digits, a comma,
// a sign, 20 digits and the byte that ends a line.
fn lay_row(room: &mut [u8], end: usize, row: Row) -> usize
    requires long { 43 ≤ end }
    requires in_room { end ≤ length room.old }
    ensures size { length room.new ≡ length room.old }
    ensures within { result ≤ end }
    ensures far { end ≤ result + 43 }
    ensures line { drop result room.new ≡ value_line row.id row.value ++ drop end room.old }
{
    room[end - 1] = b'\n';
    let comma = lay_value(room, end - 1, row.value) - 1;
    room[comma] = b',';
    lay_digits(room, comma, row.id)
}

// Lays out, at the end of a room, the lines of these rows, the last one first, and tells where they begin. What the room
// held before does not matter.
fn lay_rows(room: &mut [u8], rows: &[Row]) -> usize
    requires { 43 * length rows.now ≤ length room.old }
    ensures size { length room.new ≡ length room.old }
    ensures within { result ≤ length room.old }
    ensures lines { drop result room.new ≡ ended (map row_line rows.now) }
{
    let mut start = room.len();
    for place in (0..rows.len()).rev() {
        start = lay_row(room, start, rows[place]);
    }
    start
}

/// Adds the lines of rows. Room for lines of 16 bytes is made at once. Up to 64 lines are laid out in one room, which is
/// used again, and join the text at once.
pub(crate) fn push_rows(text: &mut Vec<u8>, rows: &[Row]) -> Result<(), NoMemory>
    ensures { OnOk result (text.new.items ≡ text.old.items ++ ended (map row_line rows.now)) }
{
    let mut room = [b'\n'; 2_752];
    text.reserve(rows.len().saturating_mul(16))?;
    let mut done = 0;
    while done < rows.len() {
        let upto = rows.len().min(done + 64);
        let start = lay_rows(&mut room, &rows[done..upto]);
        text.extend_from_slice(&room[start..])?;
        done = upto;
    }
    Ok(())
}
