//! Reads statements that group the edges of views.

ghost use Rattle.std.specs.Prelude.{◌≡◌, ℕ};
ghost use Rattle.phrase_theory.specs.Phrases.{one};
ghost use Rattle.phrase_theory.specs.Reading.{alone, Reads};
ghost use Rattle.gvdl_parser.specs.Terminals.{opens};
ghost use Rattle.gvdl_parser.specs.Statements.{sum_part, aggregate, after_summed};

use crate::cursor::Cursor;
use crate::terminal::prop;
use crate::view::{name_behind, prop_behind};
use gvdl_tokens::{Sign, Token, Word};
use gvdl_tree::Statement;
use phrase_theory::Fault;
use std::alloc::Global;
use surge_outside::Text;

fn sum_part(alloc: Global, cursor: &mut Cursor<'_>) -> Result<Option<Text>, Fault>
    ensures { (n : ℕ) → Reads opens (λ _. sum_part) after_summed n cursor.old.rest.now result cursor.new.rest.now }
{
    if !cursor.sees_word(Word::Sum) {
        return Ok(None);
    }
    cursor.skip();
    let property = prop(alloc, cursor)?;
    Ok(Some(property))
}

/// The statement that groups the edges of a collection's views by a property of their ends.
pub fn aggregate(alloc: Global, cursor: &mut Cursor<'_>) -> Result<Statement, Fault>
    ensures { (n : ℕ) → Reads opens (λ _. aggregate) alone n cursor.old.rest.now result cursor.new.rest.now }
{
    let target = name_behind(alloc, cursor, Word::Aggregate)?;
    cursor.word(Word::Group)?;
    let by = prop_behind(alloc, cursor, Word::By)?;
    let sum = sum_part(alloc, cursor)?;
    cursor.sign(Sign::Semicolon)?;
    Ok(Statement::Aggregate { target, by, sum })
}
