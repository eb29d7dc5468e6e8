//! Cuts a text into tokens.

ghost use Rattle.std.specs.Prelude.{◌≡◌, ◌<◌, ◌^◌, length, IfOk};
ghost use Rattle.std.specs.Str.{IsUtf8};
ghost use Rattle.gvdl_tokens.specs.Tokens.{HasTokens, unmarked};
ghost use Rattle.gvdl_tokens.specs.Printing.{ArePrintable};
ghost use Rattle.gvdl_tokens.specs.Lexing.{AreTheTokens};
ghost use Rattle.gvdl_tokens.specs.declared.tokens.Tokens.{Tokens};

use crate::fault::LexFault;
use crate::front::{Found, token_at};
use crate::gap::gap_len;
use crate::place::{Place, after};
use crate::token::Token;
use crate::tokens::{Ending, Tokens};
use std::alloc::Global;
use surge_outside::{List, NoMemory};

const BYTE_ORDER_MARK: [u8; 3] = [0xEF, 0xBB, 0xBF];

/// The tokens of a text with their places, up to its end or its first lexical fault.
///
/// The text has fewer than 2^31 bytes. One byte order mark at its start is skipped. It is read once from the left, in
/// time linear in its length.
///
/// # Errors
///
/// [`LexFault::NotUtf8`] exactly where the text is not UTF-8. [`LexFault::NoMemory`] where a request for memory was
/// refused. A lexical fault is no error: it is how the tokens end ([`Ending`]).
pub fn lex(alloc: Global, text: &[u8]) -> Result<Tokens, LexFault>
    requires { length text.now < 2 ^ 31 }
    ensures read { IfOk result (λ t. HasTokens text.now t) }
    ensures only { IfOk result (λ t. (other : Tokens) → HasTokens text.now other → other ≡ t) }
    ensures printable { IfOk result (λ t. ArePrintable t.tokens) }
    ensures not_utf8 { result ≡ Err LexFault.NotUtf8 → IsUtf8 text.now → ⊥ }
{
    if str::from_utf8(text).is_err() {
        return Err(LexFault::NotUtf8);
    }
    match tokens_of(alloc, without_mark(text)) {
        Ok(tokens) => Ok(tokens),
        Err(NoMemory) => Err(LexFault::NoMemory),
    }
}

// What follows one byte order mark, or the whole text.
fn without_mark(text: &[u8]) -> &[u8]
    requires { IsUtf8 text.now }
    ensures value { result.now ≡ unmarked text.now }
    ensures utf8 { IsUtf8 result.now }
{
    if text.starts_with(&BYTE_ORDER_MARK) {
        let (_, rest) = text.split_at(BYTE_ORDER_MARK.len());
        rest
    } else {
        text
    }
}

// The tokens of a text without byte order mark.
fn tokens_of(alloc: Global, text: &[u8]) -> Result<Tokens, NoMemory>
    requires few { length text.now < 2 ^ 31 }
    requires utf8 { IsUtf8 text.now }
    ensures { IfOk result (λ t. AreTheTokens text.now t) }
{
    let mut tokens = List::new(alloc);
    let mut places = List::new(alloc);
    let mut place = Place { line: 1, column: 1 };
    let mut rest = text;
    'tokens: loop {
        let (gap, behind) = rest.split_at(gap_len(rest));
        let here = after(place, gap);
        if behind.is_empty() {
            return Ok(ended(tokens, places, Ending::End(here)));
        }
        match token_at(alloc, behind)? {
            Found::Token(token, len) => {
                tokens.push(token)?;
                places.push(here)?;
                let (spelling, left) = behind.split_at(len);
                place = after(here, spelling);
                rest = left;
            }
            Found::Nothing => return Ok(ended(tokens, places, Ending::Syntax(here))),
            Found::TooLarge => return Ok(ended(tokens, places, Ending::NumberTooLarge(here))),
        }
    }
}

fn ended(tokens: List<Token>, places: List<Place>, ending: Ending) -> Tokens
    ensures { result ≡ record { tokens = tokens; places = places; ending = ending } }
{
    Tokens {
        tokens,
        places,
        ending,
    }
}
