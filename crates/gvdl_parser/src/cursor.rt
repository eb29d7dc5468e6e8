//! A place in the tokens, which reading moves on.

ghost use Rattle.std.specs.Prelude.{◌≡◌, ◌≢◌, ◌<◌, ◌^◌, ◌↔◌, ◌==◌, ℕ, List, IsTrue, IfOk, MatchOption, length, true};
ghost use Rattle.phrase_theory.specs.Phrases.{word, one};
ghost use Rattle.phrase_theory.specs.Reading.{next, after, alone, Reads};
ghost use Rattle.gvdl_parser.specs.Kinds.{kind_at};
ghost use Rattle.gvdl_parser.specs.Terminals.{opens, keyword, mark};

use gvdl_tokens::{Kind, Sign, SmallNumber, Token, Word};
use phrase_theory::Fault;
use std::alloc::Global;
use surge_outside::{NoMemory, Text};

/// The tokens that are left. A fault leaves the cursor before the token at which reading stopped.
#[derive(Drop)]
pub struct Cursor<'a> {
    pub rest: &'a [Token],
}

impl<'a> Cursor<'a> {
    /// Whether no token is left.
    pub fn is_empty(&self) -> bool
        ensures { result ≡ (length self.now.rest.now == 0) }
    {
        self.rest.is_empty()
    }

    /// What kind of token comes next, or `End`.
    pub fn kind(&self) -> Kind
        ensures { result ≡ kind_at (next self.now.rest.now) }
    {
        match self.rest {
            [] => Kind::End,
            [token, ..] => token.kind(),
        }
    }

    /// Goes past the next token.
    pub fn skip(&mut self)
        ensures { self.new.rest.now ≡ after self.old.rest.now }
    {
        match self.rest {
            [] => {}
            [_, rest @ ..] => self.rest = rest,
        }
    }

    /// Whether this word comes next.
    pub fn sees_word(&self, expected: Word) -> bool
        ensures { IsTrue result ↔ (next self.now.rest.now ≡ Some (Token.Word expected)) }
    {
        match self.rest {
            [Token::Word(word), ..] => same_word(*word, expected),
            _ => false,
        }
    }

    /// Whether this sign comes next.
    pub fn sees_sign(&self, expected: Sign) -> bool
        ensures { IsTrue result ↔ (next self.now.rest.now ≡ Some (Token.Sign expected)) }
    {
        match self.rest {
            [Token::Sign(sign), ..] => *sign == expected,
            _ => false,
        }
    }

    /// Goes past this word.
    pub fn word(&mut self, expected: Word) -> Result<(), Fault>
        ensures { (n : ℕ) → Reads opens (λ _. keyword expected) alone n self.old.rest.now result self.new.rest.now }
    {
        if !self.sees_word(expected) {
            return Err(Fault::Syntax);
        }
        self.skip();
        Ok(())
    }

    /// Goes past this sign.
    pub fn sign(&mut self, expected: Sign) -> Result<(), Fault>
        ensures { (n : ℕ) → Reads opens (λ _. mark expected) alone n self.old.rest.now result self.new.rest.now }
    {
        if !self.sees_sign(expected) {
            return Err(Fault::Syntax);
        }
        self.skip();
        Ok(())
    }

    /// The name that comes next.
    pub fn name(&mut self, alloc: Global) -> Result<Text, Fault>
        ensures { (n : ℕ) → Reads opens (λ _. one Token.Name) alone n self.old.rest.now result self.new.rest.now }
    {
        let Some(name) = name_at(self.rest) else {
            return Err(Fault::Syntax);
        };
        let name = copy_of(alloc, name)?;
        self.skip();
        Ok(name)
    }

    /// The quoted name that comes next.
    pub fn quoted(&mut self, alloc: Global) -> Result<Text, Fault>
        ensures { (n : ℕ) → Reads opens (λ _. one Token.Quoted) alone n self.old.rest.now result self.new.rest.now }
    {
        let Some(name) = quoted_at(self.rest) else {
            return Err(Fault::Syntax);
        };
        let name = copy_of(alloc, name)?;
        self.skip();
        Ok(name)
    }

    /// The string that comes next.
    pub fn string(&mut self, alloc: Global) -> Result<Text, Fault>
        ensures { (n : ℕ) → Reads opens (λ _. one Token.Str) alone n self.old.rest.now result self.new.rest.now }
    {
        let Some(string) = string_at(self.rest) else {
            return Err(Fault::Syntax);
        };
        let string = copy_of(alloc, string)?;
        self.skip();
        Ok(string)
    }

    /// The number that comes next.
    pub fn number(&mut self) -> Result<u64, Fault>
        ensures read { (n : ℕ) → Reads opens (λ _. one Token.Number) alone n self.old.rest.now result self.new.rest.now }
        ensures limit { IfOk result (λ n. n < 2 ^ 63) }
    {
        let Some(number) = number_at(self.rest) else {
            return Err(Fault::Syntax);
        };
        let number = number.get();
        self.skip();
        Ok(number)
    }
}

// The name at the front.
fn name_at(tokens: &[Token]) -> Option<&Text>
    ensures { MatchOption result ((x : List ℕ) → next tokens.now ≢ Some (Token.Name x)) (λ x. next tokens.now ≡ Some (Token.Name x.now)) }
{
    match tokens {
        [Token::Name(value), ..] => Some(value),
        _ => None,
    }
}

// The quoted name at the front.
fn quoted_at(tokens: &[Token]) -> Option<&Text>
    ensures { MatchOption result ((x : List ℕ) → next tokens.now ≢ Some (Token.Quoted x)) (λ x. next tokens.now ≡ Some (Token.Quoted x.now)) }
{
    match tokens {
        [Token::Quoted(value), ..] => Some(value),
        _ => None,
    }
}

// The string at the front.
fn string_at(tokens: &[Token]) -> Option<&Text>
    ensures { MatchOption result ((x : List ℕ) → next tokens.now ≢ Some (Token.Str x)) (λ x. next tokens.now ≡ Some (Token.Str x.now)) }
{
    match tokens {
        [Token::Str(value), ..] => Some(value),
        _ => None,
    }
}

// The number at the front.
fn number_at(tokens: &[Token]) -> Option<&SmallNumber>
    ensures { MatchOption result ((x : ℕ) → next tokens.now ≢ Some (Token.Number x)) (λ x. next tokens.now ≡ Some (Token.Number x.now)) }
{
    match tokens {
        [Token::Number(value), ..] => Some(value),
        _ => None,
    }
}

// Whether two words are the same.
fn same_word(a: Word, b: Word) -> bool
    ensures same { result ≡ true → a ≡ b }
    ensures other { a ≡ b → result ≡ true }
{
    a == b
}

fn copy_of(alloc: Global, text: &Text) -> Result<Text, NoMemory>
    ensures { IfOk result (λ t. t ≡ text.now) }
{
    Ok(Text::from_string(String::from_str(alloc, text.as_str())?))
}
