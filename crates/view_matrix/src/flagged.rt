//! The bits of columns as lists of truth values, 64 of them at a time.

ghost use Rattle.std.specs.Prelude.{◌≡◌, ◌+◌, ◌<◌, ◌≤◌, ◌&&◌, ℕ, length, map, IfOk};
ghost use Rattle.std.specs.List.{range_with_len};
ghost use Rattle.view_matrix.specs.Columns.{at, is_set, AreWords};

use crate::column::Column;
use crate::word::is_set;
use std::alloc::Global;
use surge_outside::NoMemory;

// Writes the bits of a word from a place on, as many as there is room for.
fn put_word(flags: &mut [bool], first: usize, word: u64)
    requires few { length flags.old ≤ 4_000_000 }
    requires first { first ≤ length flags.old }
    ensures length { length flags.new ≡ length flags.old }
    ensures before { (e : ℕ) → e < first → at flags.new e ≡ at flags.old e }
    ensures here { (i : ℕ) → i < 64 → first + i < length flags.old → at flags.new (first + i) ≡ is_set word i }
{
    let count = (flags.len() - first).min(64);
    for place in 0..count {
        flags[first + place] = is_set(word, place as u32);
    }
}

// Writes of each place whether it is set in both columns, by their words.
fn put_both(flags: &mut [bool], first: &Column, second: &Column)
    requires first { length flags.old ≡ length first.now }
    requires second { length flags.old ≡ length second.now }
    ensures { flags.new ≡ map (λ e. at first.now e && at second.now e) (range_with_len 0 (length flags.old)) }
{
    let first_words = first.words();
    let second_words = second.words();
    for k in 0..first_words.len() {
        put_word(flags, 64 * k, first_words[k] & second_words[k]);
    }
}

/// Of each place whether it is set in both columns.
pub(crate) fn flags_both(
    alloc: Global,
    first: &Column,
    second: &Column,
) -> Result<Vec<bool>, NoMemory>
    requires { length first.now ≡ length second.now }
    ensures { IfOk result (λ flags. flags.items ≡ map (λ e. at first.now e && at second.now e) (range_with_len 0 (length first.now))) }
{
    let mut flags = vec![in alloc; false; first.len() as usize]?;
    put_both(flags.as_mut_slice(), first, second);
    Ok(flags)
}
