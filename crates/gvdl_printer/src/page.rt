//! A text that is written token by token.

ghost use Rattle.std.specs.Prelude.{◌≡◌, ◌++◌, ◌∷◌, [], ◌||◌, true, false, IfOk, if◌then◌else◌};
ghost use Rattle.gvdl_tokens.specs.declared.token.Token.{Token};
ghost use Rattle.gvdl_tokens.specs.declared.token.Sign.{Sign};
ghost use Rattle.gvdl_printer.specs.Layout.{plain, word, sign, call_open, negative_sign, is_close_before, is_close_behind, space_unless};
ghost use Rattle.gvdl_printer.specs.Pages.{wrote};

use gvdl_tokens::{Sign, Word, push_bytes, push_enclosed, push_number};
use std::alloc::Global;
use surge_outside::{List, NoMemory, Text};

/// A text that is being written.
#[derive(Debug, Drop)]
pub struct Page {
    /// What is written.
    pub text: List<u8>,
    /// Whether what comes next stands close to that.
    pub close: bool,
}

impl Page {
    /// The empty text.
    pub fn new(alloc: Global) -> Page
        ensures { result ≡ record { text = []; close = true } }
    {
        Page {
            text: List::new(alloc),
            close: true,
        }
    }

    // A space, unless what comes next stands close to what is written, or is close before.
    fn space(&mut self, close_before: bool) -> Result<(), NoMemory>
        ensures { IfOk result (λ _. self.new.text ≡ self.old.text ++ space_unless (self.old.close || close_before)) }
    {
        if !self.close && !close_before {
            self.text.push(b' ')?;
        }
        Ok(())
    }

    /// A name.
    pub fn name(&mut self, name: &Text) -> Result<(), NoMemory>
        ensures { IfOk result (λ _. self.new ≡ wrote self.old (plain (Token.Name name.now) ∷ [])) }
    {
        self.space(false)?;
        push_bytes(&mut self.text, name.as_str().as_bytes())?;
        self.close = false;
        Ok(())
    }

    /// A quoted name.
    pub fn quoted(&mut self, name: &Text) -> Result<(), NoMemory>
        ensures { IfOk result (λ _. self.new ≡ wrote self.old (plain (Token.Quoted name.now) ∷ [])) }
    {
        self.space(false)?;
        push_enclosed(&mut self.text, b'"', name.as_str().as_bytes())?;
        self.close = false;
        Ok(())
    }

    /// A string.
    pub fn string(&mut self, string: &Text) -> Result<(), NoMemory>
        ensures { IfOk result (λ _. self.new ≡ wrote self.old (plain (Token.Str string.now) ∷ [])) }
    {
        self.space(false)?;
        push_enclosed(&mut self.text, b'\'', string.as_str().as_bytes())?;
        self.close = false;
        Ok(())
    }

    /// A number.
    pub fn number(&mut self, alloc: Global, number: u64) -> Result<(), NoMemory>
        ensures { IfOk result (λ _. self.new ≡ wrote self.old (plain (Token.Number number) ∷ [])) }
    {
        self.space(false)?;
        push_number(alloc, &mut self.text, number)?;
        self.close = false;
        Ok(())
    }

    /// A reserved word.
    pub fn word(&mut self, keyword: Word) -> Result<(), NoMemory>
        ensures { IfOk result (λ _. self.new ≡ wrote self.old (word keyword ∷ [])) }
    {
        self.space(false)?;
        push_bytes(&mut self.text, keyword.spelling().as_bytes())?;
        self.close = false;
        Ok(())
    }

    // A sign, by whether it is tight.
    fn put(&mut self, mark: Sign, tight: bool) -> Result<(), NoMemory>
        ensures { IfOk result (λ _. self.new ≡ wrote self.old (record { token = Token.Sign mark; tight = tight } ∷ [])) }
    {
        self.space(is_close_before(mark, tight))?;
        push_bytes(&mut self.text, mark.spelling().as_bytes())?;
        self.close = is_close_behind(mark, tight);
        Ok(())
    }

    /// A sign.
    pub fn sign(&mut self, mark: Sign) -> Result<(), NoMemory>
        ensures { IfOk result (λ _. self.new ≡ wrote self.old (sign mark ∷ [])) }
    {
        self.put(mark, false)
    }

    /// The `(` of a call, of a program's parameters, of `min` and of `max`.
    pub fn call_open(&mut self) -> Result<(), NoMemory>
        ensures { IfOk result (λ _. self.new ≡ wrote self.old (call_open ∷ [])) }
    {
        self.put(Sign::Open, true)
    }

    /// The `-` that subtracts nothing.
    pub fn negative_sign(&mut self) -> Result<(), NoMemory>
        ensures { IfOk result (λ _. self.new ≡ wrote self.old (negative_sign ∷ [])) }
    {
        self.put(Sign::Minus, true)
    }

    /// The `(` where parentheses are needed.
    #[tactic(auto, using(crate::proofs::Growing::growing))]
    pub fn open(&mut self, needed: bool) -> Result<(), NoMemory>
        ensures { IfOk result (λ _. self.new ≡ wrote self.old (if needed then sign Sign.Open ∷ [] else [])) }
    {
        if needed {
            self.sign(Sign::Open)?;
        }
        Ok(())
    }

    /// The `)` where parentheses are needed.
    #[tactic(auto, using(crate::proofs::Growing::growing))]
    pub fn close(&mut self, needed: bool) -> Result<(), NoMemory>
        ensures { IfOk result (λ _. self.new ≡ wrote self.old (if needed then sign Sign.Close ∷ [] else [])) }
    {
        if needed {
            self.sign(Sign::Close)?;
        }
        Ok(())
    }
}

fn is_close_before(sign: Sign, tight: bool) -> bool
    ensures { result ≡ is_close_before sign tight }
{
    match sign {
        Sign::Semicolon
        | Sign::Comma
        | Sign::Close
        | Sign::CloseBracket
        | Sign::Colon
        | Sign::Dot => true,
        Sign::Open => tight,
        _ => false,
    }
}

fn is_close_behind(sign: Sign, tight: bool) -> bool
    ensures { result ≡ is_close_behind sign tight }
{
    match sign {
        Sign::Open | Sign::OpenBracket | Sign::Dot => true,
        Sign::Minus => tight,
        _ => false,
    }
}
