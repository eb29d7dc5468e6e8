//! The tokens of a text, with their places.

use crate::place::Place;
use crate::token::Token;
use surge_outside::List;

/// How the tokens of a text end.
#[derive(Clone, Copy, Debug, PartialEq, Eq)]
pub enum Ending {
    /// The text ends: the place is behind its last byte, also where blanks or a comment stand there.
    End(Place),
    /// At this place stands something that is no token: a character that begins none, or the opening quote of a string
    /// or of a quoted name that is not closed, or of a quoted name that is empty.
    Syntax(Place),
    /// At this place begins a run of digits whose value is above 2^63 - 1.
    NumberTooLarge(Place),
}

/// The tokens of a text up to its end or to its first lexical fault, with the place of each one's first character.
#[derive(Debug, Drop)]
pub struct Tokens {
    /// The tokens in order.
    pub tokens: List<Token>,
    /// The places of the tokens, in the same order and as many.
    pub places: List<Place>,
    /// What stands behind the last token.
    pub ending: Ending,
}
