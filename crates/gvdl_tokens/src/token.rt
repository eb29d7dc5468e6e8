//! Tokens of a script.

ghost use Rattle.std.specs.Prelude.{◌≡◌};
ghost use Rattle.gvdl_tokens.specs.Spelling.{sign_spelling};
ghost use Rattle.gvdl_tokens.specs.Tokens.{kind_of};

use crate::word::Word;
use std::marker::Model;
use surge_outside::Text;

/// A sign.
#[derive(Clone, Copy, Debug, PartialEq, Eq)]
pub enum Sign {
    /// `;`
    Semicolon,
    /// `,`
    Comma,
    /// `:`
    Colon,
    /// `.`
    Dot,
    /// `(`
    Open,
    /// `)`
    Close,
    /// `[`
    OpenBracket,
    /// `]`
    CloseBracket,
    /// `{`
    OpenBrace,
    /// `}`
    CloseBrace,
    /// `+`
    Plus,
    /// `-`
    Minus,
    /// `*`
    Star,
    /// `/`
    Slash,
    /// `=`
    Equal,
    /// `!=`
    NotEqual,
    /// `<`
    Less,
    /// `<=`
    AtMost,
    /// `>`
    Greater,
    /// `>=`
    AtLeast,
}

impl Sign {
    /// The characters of the sign.
    pub fn spelling(self) -> &'static str
        ensures { result.now ≡ sign_spelling self }
    {
        match self {
            Sign::Semicolon => ";",
            Sign::Comma => ",",
            Sign::Colon => ":",
            Sign::Dot => ".",
            Sign::Open => "(",
            Sign::Close => ")",
            Sign::OpenBracket => "[",
            Sign::CloseBracket => "]",
            Sign::OpenBrace => "{",
            Sign::CloseBrace => "}",
            Sign::Plus => "+",
            Sign::Minus => "-",
            Sign::Star => "*",
            Sign::Slash => "/",
            Sign::Equal => "=",
            Sign::NotEqual => "!=",
            Sign::Less => "<",
            Sign::AtMost => "<=",
            Sign::Greater => ">",
            Sign::AtLeast => ">=",
        }
    }
}

/// A whole number from 0 to 2^63 - 1, which contracts see as that number.
#[derive(Debug, Drop)]
pub struct SmallNumber {
    value: u64,
}

impl Model for SmallNumber {
    ghost use Rattle.std.specs.Prelude.{ℕ, ◌<◌, ◌^◌};

    ghost Value = { ℕ };

    ghost view = { λ n. n.value };

    ghost invariant = { λ n. n.value < 2 ^ 63 };
}

impl SmallNumber {
    ghost use Rattle.std.specs.Prelude.{◌≡◌, ◌<◌, ◌^◌};

    /// This number.
    pub fn new(value: u64) -> SmallNumber
        requires { value < 2 ^ 63 }
        ensures { result ≡ value }
    {
        SmallNumber { value }
    }

    /// The number.
    pub fn get(&self) -> u64
        ensures value { result ≡ self.now }
        ensures limit { result < 2 ^ 63 }
    {
        self.value
    }
}

/// A token with its meaning.
#[derive(Debug, Drop)]
pub enum Token {
    /// A name that is no reserved word.
    Name(Text),
    /// The text between double quotes, each doubled quote in it taken as one.
    Quoted(Text),
    /// The value of a run of digits.
    Number(SmallNumber),
    /// The text between single quotes, each doubled quote in it taken as one.
    Str(Text),
    /// A reserved word.
    Word(Word),
    /// A sign.
    Sign(Sign),
    /// What comes after the last token. No characters spell it, and it stands in no list of tokens.
    End,
}

/// A token without the text or number that it carries: what a grammar looks at.
#[derive(Clone, Copy, Debug, PartialEq, Eq)]
pub enum Kind {
    Name,
    Quoted,
    Number,
    Str,
    Word(Word),
    Sign(Sign),
    End,
}

impl Token {
    /// The token without what it carries.
    pub fn kind(&self) -> Kind
        ensures { result ≡ kind_of self.now }
    {
        match self {
            Token::Name(_) => Kind::Name,
            Token::Quoted(_) => Kind::Quoted,
            Token::Number(_) => Kind::Number,
            Token::Str(_) => Kind::Str,
            Token::Word(word) => Kind::Word(*word),
            Token::Sign(sign) => Kind::Sign(*sign),
            Token::End => Kind::End,
        }
    }
}
