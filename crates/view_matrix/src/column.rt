//! A column of bits, one for each edge.

ghost use Rattle.std.specs.Prelude.{◌≡◌, ◌<◌, ◌≤◌, ◌+◌, ◌/◌, ℕ, false, length, map, replicate, slice_set, IfOk};
ghost use Rattle.std.specs.List.{range_with_len};
ghost use Rattle.view_matrix.specs.Columns.{at, bit_in, AreWords};

use crate::word::{is_set, with_bit};
use std::alloc::Global;
use std::marker::Model;
use surge_outside::NoMemory;

/// A bit for each edge, at most 4,000,000. The bit of edge e is bit e % 64 of word e / 64, and behind the last edge no
/// bit is set.
#[derive(Debug, Drop)]
pub(crate) struct Column {
    words: Vec<u64>,
    len: u32,
}

impl Model for Column {
    ghost use Rattle.std.specs.Prelude.{List, Bool};

    ghost Value = { List Bool };

    ghost use Rattle.view_matrix.specs.Packed.{bits_of, IsPacked};

    ghost view = { bits_of };

    ghost invariant = { IsPacked };
}

impl Column {
    /// So many bits, of which none is set.
    pub(crate) fn new(alloc: Global, len: u32) -> Result<Column, NoMemory>
        requires { len ≤ 4_000_000 }
        ensures { IfOk result (λ column. column ≡ replicate len false) }
    {
        let words = vec![in alloc; 0u64; (len as usize).div_ceil(64)]?;
        Ok(Column { words, len })
    }

    /// The column of so many bits that lie in these words. Behind them no bit is set.
    pub(crate) fn of_words(words: Vec<u64>, len: u32) -> Column
        requires few { len ≤ 4_000_000 }
        requires count { length words.items ≡ (len + 63) / 64 }
        requires behind { (e : ℕ) → len ≤ e → bit_in words.items e ≡ false }
        ensures { result ≡ map (bit_in words.items) (range_with_len 0 len) }
    {
        Column { words, len }
    }

    /// How many bits there are.
    pub(crate) fn len(&self) -> u32
        ensures count { result ≡ length self.now }
        ensures limit { result ≤ 4_000_000 }
    {
        self.len
    }

    /// Whether a bit is set.
    pub(crate) fn get(&self, edge: u32) -> bool
        requires { edge < length self.now }
        ensures { result ≡ at self.now edge }
    {
        is_set(self.words[(edge / 64) as usize], edge % 64)
    }

    /// Makes a bit set, or not.
    pub(crate) fn set(&mut self, edge: u32, bit: bool)
        requires { edge < length self.old }
        ensures { self.new ≡ slice_set self.old edge bit }
    {
        let place = (edge / 64) as usize;
        self.words[place] = with_bit(self.words[place], edge % 64, bit);
    }

    /// The words.
    pub(crate) fn words(&self) -> &[u64]
        ensures { AreWords self.now result.now }
    {
        let words = self.words.as_slice();
        words
    }
}
