//! Reads statements that define programs.

ghost use Rattle.std.specs.Prelude.{◌≡◌, ℕ};
ghost use Rattle.phrase_theory.specs.Phrases.{one};
ghost use Rattle.phrase_theory.specs.Reading.{alone, Reads};
ghost use Rattle.gvdl_tree.specs.declared.script.Statement.{Statement};
ghost use Rattle.gvdl_parser.specs.Terminals.{opens, along_token, gather_token};
ghost use Rattle.gvdl_parser.specs.Expressions.{expression};
ghost use Rattle.gvdl_parser.specs.Statements.{part, program};

use crate::call::params;
use crate::cursor::Cursor;
use crate::expression::expression;
use crate::terminal::{along, gather};
use crate::view::name_behind;
use gvdl_tokens::{Sign, Word};
use gvdl_tree::{Along, ExprTree, Gather, Statement};
use phrase_theory::Fault;
use std::alloc::Global;
use surge_outside::{Boxed, List, Text};

fn along_part(cursor: &mut Cursor<'_>) -> Result<Along, Fault>
    ensures { (n : ℕ) → Reads opens (λ _. part Word.Along (one along_token)) alone n cursor.old.rest.now result cursor.new.rest.now }
{
    cursor.word(Word::Along)?;
    let along = along(cursor)?;
    cursor.sign(Sign::Semicolon)?;
    Ok(along)
}

fn gather_part(cursor: &mut Cursor<'_>) -> Result<Gather, Fault>
    ensures { (n : ℕ) → Reads opens (λ _. part Word.Gather (one gather_token)) alone n cursor.old.rest.now result cursor.new.rest.now }
{
    cursor.word(Word::Gather)?;
    let gather = gather(cursor)?;
    cursor.sign(Sign::Semicolon)?;
    Ok(gather)
}

fn expression_part(
    alloc: Global,
    cursor: &mut Cursor<'_>,
    word: Word,
    levels: usize,
) -> Result<Boxed<ExprTree>, Fault>
    ensures { Reads opens (λ n. part word (expression n)) alone levels cursor.old.rest.now result cursor.new.rest.now }
{
    cursor.word(word)?;
    let tree = expression(alloc, cursor, levels)?;
    cursor.sign(Sign::Semicolon)?;
    Ok(tree)
}

fn defined(
    name: Text,
    params: List<Text>,
    along: Along,
    start: Boxed<ExprTree>,
    send: Boxed<ExprTree>,
    gather: Gather,
    update: Boxed<ExprTree>,
) -> Statement
    ensures { result ≡ Statement.Program name params along start send gather update }
{
    Statement::Program {
        name,
        params,
        along,
        start: start.into_inner(),
        send: send.into_inner(),
        gather,
        update: update.into_inner(),
    }
}

/// The statement that defines a program.
pub fn program(alloc: Global, cursor: &mut Cursor<'_>, levels: usize) -> Result<Statement, Fault>
    ensures { Reads opens program alone levels cursor.old.rest.now result cursor.new.rest.now }
{
    let name = name_behind(alloc, cursor, Word::Program)?;
    let params = params(alloc, cursor)?;
    cursor.sign(Sign::OpenBrace)?;
    let along = along_part(cursor)?;
    let start = expression_part(alloc, cursor, Word::Start, levels)?;
    let send = expression_part(alloc, cursor, Word::Send, levels)?;
    let gather = gather_part(cursor)?;
    let update = expression_part(alloc, cursor, Word::Update, levels)?;
    cursor.sign(Sign::CloseBrace)?;
    Ok(defined(name, params, along, start, send, gather, update))
}
