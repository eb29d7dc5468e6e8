//! Reads statements by which edges come and go.

ghost use Rattle.std.specs.Prelude.{◌≡◌, ℕ};
ghost use Rattle.phrase_theory.specs.Phrases.{one};
ghost use Rattle.phrase_theory.specs.Reading.{alone, Reads};
ghost use Rattle.gvdl_parser.specs.Terminals.{opens};
ghost use Rattle.gvdl_parser.specs.Statements.{part, insert, remove};

use crate::cursor::Cursor;
use crate::predicate::predicate;
use gvdl_tokens::{Sign, Token, Word};
use gvdl_tree::Statement;
use phrase_theory::Fault;
use std::alloc::Global;
use surge_outside::Text;

fn string_part(alloc: Global, cursor: &mut Cursor<'_>, word: Word) -> Result<Text, Fault>
    ensures { (n : ℕ) → Reads opens (λ _. part word (one Token.Str)) alone n cursor.old.rest.now result cursor.new.rest.now }
{
    cursor.word(word)?;
    let string = cursor.string(alloc)?;
    cursor.sign(Sign::Semicolon)?;
    Ok(string)
}

/// The statement that adds the edges of a file.
pub fn insert(alloc: Global, cursor: &mut Cursor<'_>) -> Result<Statement, Fault>
    ensures { (n : ℕ) → Reads opens (λ _. insert) alone n cursor.old.rest.now result cursor.new.rest.now }
{
    cursor.word(Word::Insert)?;
    let file = string_part(alloc, cursor, Word::Edges)?;
    Ok(Statement::Insert { file })
}

/// The statement that ends the edges for which a predicate holds.
pub fn remove(alloc: Global, cursor: &mut Cursor<'_>, levels: usize) -> Result<Statement, Fault>
    ensures { Reads opens remove alone levels cursor.old.rest.now result cursor.new.rest.now }
{
    cursor.word(Word::Remove)?;
    cursor.word(Word::Edges)?;
    cursor.word(Word::Where)?;
    let rule = predicate(alloc, cursor, levels)?;
    cursor.sign(Sign::Semicolon)?;
    Ok(Statement::Remove { rule })
}
