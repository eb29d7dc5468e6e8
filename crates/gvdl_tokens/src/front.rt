//! The token at the front of some bytes.

ghost use Rattle.std.specs.Prelude.{◌≡◌, ◌≢◌, [], ◌∷◌, ◌^◌, ◌<◌, IfOk, IfSome, IfNone, take_while, length, false};
ghost use Rattle.std.specs.Str.{IsUtf8};
ghost use Rattle.gvdl_tokens.specs.Characters.{is_digit, begins_name, in_name, StandsOut};
ghost use Rattle.gvdl_tokens.specs.Spelling.{sign_spelling};
ghost use Rattle.gvdl_tokens.specs.Reading.{Starts, is_next, BeginsSign, ReadsToken};
ghost use Rattle.gvdl_tokens.specs.declared.token.Sign.{Sign};

use crate::characters::{begins_name, in_name, is_digit};
use crate::enclosed::read_enclosed;
use crate::number::value_of;
use crate::token::{Sign, SmallNumber, Token};
use crate::word::word_of;
use std::alloc::Global;
use surge_outside::{List, NoMemory, Text};

/// What stands at the front of some bytes.
#[derive(Drop)]
pub enum Found {
    /// A token, and how many bytes spell it.
    Token(Token, usize),
    /// No token, and no run of digits.
    Nothing,
    /// A run of digits whose value is too large for a token.
    TooLarge,
}

/// The token at the front.
pub fn token_at(alloc: Global, bytes: &[u8]) -> Result<Found, NoMemory>
    requires few { length bytes.now < 2 ^ 31 }
    requires utf8 { IsUtf8 bytes.now }
    requires stands { StandsOut bytes.now }
    ensures { ReadsToken bytes.now result }
{
    match bytes {
        [] => Ok(Found::Nothing),
        [first, rest @ ..] => {
            if begins_name(*first) {
                word_or_name(alloc, bytes)
            } else if is_digit(*first) {
                Ok(number(bytes))
            } else if *first == b'\'' {
                string(alloc, rest)
            } else if *first == b'"' {
                quoted_name(alloc, rest)
            } else {
                Ok(sign(*first, rest))
            }
        }
    }
}

// The word or name at the front.
fn word_or_name(alloc: Global, bytes: &[u8]) -> Result<Found, NoMemory>
    requires few { length bytes.now < 2 ^ 31 }
    requires begins { Starts begins_name bytes.now }
    ensures { ReadsToken bytes.now result }
{
    let len = name_len(bytes);
    let (run, _) = bytes.split_at(len);
    if let Some(word) = word_of(run) {
        return Ok(Found::Token(Token::Word(word), len));
    }
    let name = text_of(alloc, run)?;
    Ok(Found::Token(Token::Name(name), len))
}

fn name_len(bytes: &[u8]) -> usize
    ensures { result ≡ length (take_while in_name bytes.now) }
{
    bytes.iter().take_while(|b| in_name(**b)).count()
}

// The text of these bytes.
fn text_of(alloc: Global, bytes: &[u8]) -> Result<Text, NoMemory>
    requires { IsUtf8 bytes.now }
    ensures { IfOk result (λ t. t ≡ bytes.now) }
{
    match str::from_utf8(bytes) {
        Ok(text) => Ok(Text::from_string(String::from_str(alloc, text)?)),
        Err(_) => unreachable!(),
    }
}

// The number at the front.
fn number(bytes: &[u8]) -> Found
    requires few { length bytes.now < 2 ^ 31 }
    requires begins { Starts is_digit bytes.now }
    ensures { ReadsToken bytes.now (Ok result) }
{
    let len = digits_len(bytes);
    let (digits, _) = bytes.split_at(len);
    match value_of(digits) {
        Some(value) => Found::Token(Token::Number(SmallNumber::new(value)), len),
        None => Found::TooLarge,
    }
}

fn digits_len(bytes: &[u8]) -> usize
    ensures { result ≡ length (take_while is_digit bytes.now) }
{
    bytes.iter().take_while(|b| is_digit(**b)).count()
}

// The string of which the bytes are what stands behind the opening quote.
fn string(alloc: Global, bytes: &[u8]) -> Result<Found, NoMemory>
    requires few { length bytes.now < 2 ^ 31 }
    requires utf8 { IsUtf8 (39 ∷ bytes.now) }
    ensures { ReadsToken (39 ∷ bytes.now) result }
{
    let Some(enclosed) = read_enclosed(alloc, b'\'', bytes)? else {
        return Ok(Found::Nothing);
    };
    let len = 1 + bytes.len() - enclosed.rest.len();
    let text = owned_text(enclosed.content);
    Ok(Found::Token(Token::Str(text), len))
}

// The quoted name of which the bytes are what stands behind the opening quote.
fn quoted_name(alloc: Global, bytes: &[u8]) -> Result<Found, NoMemory>
    requires few { length bytes.now < 2 ^ 31 }
    requires utf8 { IsUtf8 (34 ∷ bytes.now) }
    ensures { ReadsToken (34 ∷ bytes.now) result }
{
    let Some(enclosed) = read_enclosed(alloc, b'"', bytes)? else {
        return Ok(Found::Nothing);
    };
    if enclosed.content.is_empty() {
        return Ok(Found::Nothing);
    }
    let len = 1 + bytes.len() - enclosed.rest.len();
    let text = owned_text(enclosed.content);
    Ok(Found::Token(Token::Quoted(text), len))
}

// The text of these bytes, which it keeps.
fn owned_text(bytes: List<u8>) -> Text
    requires { IsUtf8 bytes }
    ensures { result ≡ bytes }
{
    match String::from_utf8(bytes.into_vec()) {
        Ok(text) => Text::from_string(text),
        Err(_) => unreachable!(),
    }
}

// The sign at the front.
fn sign(first: u8, rest: &[u8]) -> Found
    requires few { length rest.now < 2 ^ 31 }
    requires stands { StandsOut (first ∷ rest.now) }
    requires no_name { begins_name first ≡ false }
    requires no_number { is_digit first ≡ false }
    requires no_string { first ≢ 39 }
    requires no_quoted { first ≢ 34 }
    ensures { ReadsToken (first ∷ rest.now) (Ok result) }
{
    match sign_of(first, is_next(rest, b'=')) {
        Some(sign) => Found::Token(Token::Sign(sign), sign_len(sign)),
        None => Found::Nothing,
    }
}

fn is_next(bytes: &[u8], b: u8) -> bool
    ensures { result ≡ is_next b bytes.now }
{
    match bytes {
        [] => false,
        [first, ..] => *first == b,
    }
}

// The sign that begins with the first byte, by whether `=` follows.
fn sign_of(first: u8, followed: bool) -> Option<Sign>
    ensures found { IfSome result (λ s. BeginsSign s first followed) }
    ensures none { IfNone result ((s : Sign) → BeginsSign s first followed → ⊥) }
{
    match (first, followed) {
        (b';', _) => Some(Sign::Semicolon),
        (b',', _) => Some(Sign::Comma),
        (b':', _) => Some(Sign::Colon),
        (b'.', _) => Some(Sign::Dot),
        (b'(', _) => Some(Sign::Open),
        (b')', _) => Some(Sign::Close),
        (b'[', _) => Some(Sign::OpenBracket),
        (b']', _) => Some(Sign::CloseBracket),
        (b'{', _) => Some(Sign::OpenBrace),
        (b'}', _) => Some(Sign::CloseBrace),
        (b'+', _) => Some(Sign::Plus),
        (b'-', _) => Some(Sign::Minus),
        (b'*', _) => Some(Sign::Star),
        (b'/', _) => Some(Sign::Slash),
        (b'=', _) => Some(Sign::Equal),
        (b'!', true) => Some(Sign::NotEqual),
        (b'<', true) => Some(Sign::AtMost),
        (b'<', false) => Some(Sign::Less),
        (b'>', true) => Some(Sign::AtLeast),
        (b'>', false) => Some(Sign::Greater),
        _ => None,
    }
}

fn sign_len(sign: Sign) -> usize
    ensures { result ≡ length (sign_spelling sign) }
{
    match sign {
        Sign::NotEqual | Sign::AtMost | Sign::AtLeast => 2,
        _ => 1,
    }
}
