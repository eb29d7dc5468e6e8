//! The bits that are set in a word, one after the other.

ghost use Rattle.std.specs.Prelude.{◌≡◌, ◌<◌, [], ◌∷◌, IfSome, MatchOption};
ghost use Rattle.view_matrix.specs.Columns.{set_in};

use std::marker::Model;

/// The places of the bits of a word that are set, from the lowest on, less those that were taken.
#[derive(Debug, Drop)]
pub(crate) struct SetBits {
    rest: u64,
    place: u32,
}

impl Model for SetBits {
    ghost use Rattle.std.specs.Prelude.{ℕ, List};

    ghost Value = { List ℕ };

    ghost use Rattle.view_matrix.specs.SetBitsInside.{left, IsWithin};

    ghost view = { left };

    ghost invariant = { IsWithin };
}

impl SetBits {
    /// All bits of a word that are set.
    pub(crate) fn of(word: u64) -> SetBits
        ensures { result ≡ set_in word }
    {
        SetBits {
            rest: word,
            place: 0,
        }
    }

    /// Takes the lowest one.
    pub(crate) fn next(&mut self) -> Option<u32>
        ensures next { MatchOption result (self.old ≡ []) (λ place. self.old ≡ place ∷ self.new) }
        ensures within { IfSome result (λ place. place < 64) }
    {
        let rest = self.rest;
        if rest == 0 {
            return None;
        }
        let skipped = rest.trailing_zeros();
        let place = self.place + skipped;
        self.rest = (rest >> skipped) >> 1;
        self.place = place + 1;
        Some(place)
    }
}
