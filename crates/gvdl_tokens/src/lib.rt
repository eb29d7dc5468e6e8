//! The tokens of a script.
//!
//! It stands on `surge_outside`. It offers the tokens of the script language ([`Token`], [`Word`], [`Sign`]), which
//! contracts see as plain data; [`lex`], which cuts the bytes of a script into tokens with places; and what a printer
//! needs to spell tokens ([`push_token`], [`is_name`]). Its model is a relation between a text and a list of tokens with
//! places, which ends in the end of the text or in its first lexical fault (`specs/Tokens.antt`), over what spells a token
//! (`specs/Spelling.antt`) and what stands between tokens (`specs/Characters.antt`). Its promise to the room above, which
//! reads grammar from tokens: each UTF-8 text has such a list and only one, and what is spelled token by token is read as
//! the same tokens, where no gap that is needed is left out (`specs/Printing.antt`).
#![tactic(auto)]

mod characters;
mod enclosed;
mod fault;
mod front;
mod gap;
mod lexer;
mod number;
mod place;
mod spelling;
mod token;
mod tokens;
mod word;

pub use fault::LexFault;
pub use lexer::lex;
pub use place::Place;
pub use spelling::{
    is_name, laid_out_tokens_are_read_again, push_bytes, push_enclosed, push_number, push_token,
};
pub use token::{Kind, Sign, SmallNumber, Token};
pub use tokens::{Ending, Tokens};
pub use word::Word;
