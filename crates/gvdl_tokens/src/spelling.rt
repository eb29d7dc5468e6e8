//! Spells tokens, as a printer writes them.

ghost use Rattle.std.specs.Prelude.{◌≡◌, ◌↔◌, ◌++◌, [], ◌∷◌, ℕ, List, true, false, decimal, IsTrue, IfOk};
ghost use Rattle.std.specs.List.{list_all};
ghost use Rattle.gvdl_tokens.specs.Characters.{in_name};
ghost use Rattle.gvdl_tokens.specs.Spelling.{IsWordShaped, IsName, doubled, enclosed};
ghost use Rattle.gvdl_tokens.specs.Printing.{spell, Laid, IsLayout, IsLast, IsReadAgain, needs_gap, stands_close, is_closed};
ghost use Rattle.gvdl_tokens.specs.declared.token.Token.{Token};
ghost use Rattle.gvdl_tokens.specs.declared.token.Sign.{Sign};

use crate::characters::{begins_name, in_name};
use crate::token::Token;
use crate::word::word_of;
use std::alloc::Global;
use surge_outside::{List, NoMemory};

/// Whether the text is a name: it has the shape of one and is no reserved word.
///
/// A property's text that is no name is written as a quoted name.
pub fn is_name(text: &str) -> bool
    ensures { IsTrue result ↔ IsName text.now }
{
    is_word_shaped(text.as_bytes()) && word_of(text.as_bytes()).is_none()
}

fn is_word_shaped(bytes: &[u8]) -> bool
    ensures { IsTrue result ↔ IsWordShaped bytes.now }
{
    match bytes {
        [] => false,
        [first, rest @ ..] => begins_name(*first) && are_in_name(rest),
    }
}

fn are_in_name(bytes: &[u8]) -> bool
    ensures { result ≡ list_all in_name bytes.now }
{
    bytes.iter().all(|b| in_name(*b))
}

/// Adds the spelling of the token at the end of the text. Where memory is refused, a part of it may have been added.
pub fn push_token(alloc: Global, text: &mut List<u8>, token: &Token) -> Result<(), NoMemory>
    ensures { IfOk result (λ _. text.new ≡ text.old ++ spell token.now) }
{
    match token {
        Token::Name(name) => push_bytes(text, name.as_str().as_bytes()),
        Token::Quoted(name) => push_enclosed(text, b'"', name.as_str().as_bytes()),
        Token::Number(number) => push_number(alloc, text, number.get()),
        Token::Str(string) => push_enclosed(text, b'\'', string.as_str().as_bytes()),
        Token::Word(word) => push_bytes(text, word.spelling().as_bytes()),
        Token::Sign(sign) => push_bytes(text, sign.spelling().as_bytes()),
        Token::End => Ok(()),
    }
}

/// Adds these bytes at the end of the text, as [`push_token`] does.
pub fn push_bytes(text: &mut List<u8>, bytes: &[u8]) -> Result<(), NoMemory>
    ensures { IfOk result (λ _. text.new ≡ text.old ++ bytes.now) }
{
    for b in bytes {
        text.push(*b)?;
    }
    Ok(())
}

/// Adds the decimal digits of the number, without leading zeros, as [`push_token`] does.
pub fn push_number(alloc: Global, text: &mut List<u8>, number: u64) -> Result<(), NoMemory>
    ensures { IfOk result (λ _. text.new ≡ text.old ++ decimal number) }
{
    let digits = format!(in alloc; "{number}")?;
    push_bytes(text, digits.as_bytes())
}

/// Adds the bytes between two quotes, with each quote among them twice, as [`push_token`] does.
pub fn push_enclosed(text: &mut List<u8>, quote: u8, content: &[u8]) -> Result<(), NoMemory>
    ensures { IfOk result (λ _. text.new ≡ text.old ++ enclosed quote content.now) }
{
    text.push(quote)?;
    push_doubled(text, quote, content)?;
    text.push(quote)
}

fn push_doubled(text: &mut List<u8>, quote: u8, content: &[u8]) -> Result<(), NoMemory>
    ensures { IfOk result (λ _. text.new ≡ text.old ++ doubled quote content.now) }
{
    for b in content {
        push_character(text, quote, *b)?;
    }
    Ok(())
}

fn push_character(text: &mut List<u8>, quote: u8, b: u8) -> Result<(), NoMemory>
    ensures { IfOk result (λ _. text.new ≡ text.old ++ doubled quote (b ∷ [])) }
{
    if b == quote {
        text.push(b)?;
    }
    text.push(b)
}

/// What a printer may rely on. It does nothing: what it ensures is a law.
///
/// Tokens that are laid out one after the other, each behind a gap of blanks and comments, are read as themselves, where
/// no gap that is needed is left out. No gap is needed before a sign but `-` and `=`, and none behind a sign but `<` and
/// `>`.
pub fn laid_out_tokens_are_read_again()
    ensures read { (laid : List Laid) (last : List ℕ) → IsLayout laid → IsLast last → IsReadAgain laid last }
    ensures before { (token : Token) (s : Sign) → stands_close s ≡ true → needs_gap token (Token.Sign s) ≡ false }
    ensures behind { (s : Sign) (token : Token) → is_closed s ≡ true → needs_gap (Token.Sign s) token ≡ false }
{}
