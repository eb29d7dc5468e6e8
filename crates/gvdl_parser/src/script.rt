//! Reads scripts from their tokens.

ghost use Rattle.std.specs.Prelude.{◌≡◌, ℕ, [], IfOk};
ghost use Rattle.phrase_theory.specs.Phrases.{one, many};
ghost use Rattle.phrase_theory.specs.Reading.{alone, Reads};
ghost use Rattle.gvdl_parser.specs.Terminals.{opens};
ghost use Rattle.gvdl_parser.specs.Statements.{behind, load, second_form, statement_phrase, form_part, script_behind, script, after_form, after_script};
ghost use Rattle.gvdl_parser.specs.Parsing.{Parses};

use crate::aggregate::aggregate;
use crate::cursor::Cursor;
use crate::edits::{insert, remove};
use crate::program::program;
use crate::run::{run, show};
use crate::view::{append, create, name_behind, number_part};
use gvdl_tokens::{Sign, Token, Word};
use gvdl_tree::{Script, Statement};
use phrase_theory::Fault;
use std::alloc::Global;
use surge_outside::{List, Text};

fn string_behind(alloc: Global, cursor: &mut Cursor<'_>, word: Word) -> Result<Text, Fault>
    ensures { (n : ℕ) → Reads opens (λ _. behind word (one Token.Str)) alone n cursor.old.rest.now result cursor.new.rest.now }
{
    cursor.word(word)?;
    let string = cursor.string(alloc)?;
    Ok(string)
}

fn load(alloc: Global, cursor: &mut Cursor<'_>) -> Result<(Text, Text, Text), Fault>
    ensures { (n : ℕ) → Reads opens (λ _. load) alone n cursor.old.rest.now result cursor.new.rest.now }
{
    cursor.word(Word::Load)?;
    let graph = name_behind(alloc, cursor, Word::Graph)?;
    let nodes = string_behind(alloc, cursor, Word::Nodes)?;
    let edges = string_behind(alloc, cursor, Word::Edges)?;
    cursor.sign(Sign::Semicolon)?;
    Ok((graph, nodes, edges))
}

fn second_form(alloc: Global, cursor: &mut Cursor<'_>, levels: usize) -> Result<Statement, Fault>
    ensures { Reads opens second_form alone levels cursor.old.rest.now result cursor.new.rest.now }
{
    if cursor.sees_word(Word::Insert) {
        return insert(alloc, cursor);
    }
    if cursor.sees_word(Word::Remove) {
        return remove(alloc, cursor, levels);
    }
    aggregate(alloc, cursor)
}

fn statement(alloc: Global, cursor: &mut Cursor<'_>, levels: usize) -> Result<Statement, Fault>
    ensures { Reads opens statement_phrase alone levels cursor.old.rest.now result cursor.new.rest.now }
{
    if cursor.sees_word(Word::Create) {
        return create(alloc, cursor, levels);
    }
    if cursor.sees_word(Word::Program) {
        return program(alloc, cursor, levels);
    }
    if cursor.sees_word(Word::Run) {
        return run(alloc, cursor);
    }
    if cursor.sees_word(Word::Append) {
        return append(alloc, cursor, levels);
    }
    if cursor.sees_word(Word::Show) {
        return show(alloc, cursor);
    }
    second_form(alloc, cursor, levels)
}

fn statements(
    alloc: Global,
    cursor: &mut Cursor<'_>,
    levels: usize,
) -> Result<List<Statement>, Fault>
    ensures read { Reads opens (λ n. many (statement_phrase n)) after_script levels cursor.old.rest.now result cursor.new.rest.now }
    ensures end { IfOk result (λ s. cursor.new.rest.now ≡ []) }
{
    let mut statements = List::new(alloc);
    'more: while !cursor.is_empty() {
        let next = statement(alloc, cursor, levels)?;
        statements.push(next)?;
    }
    Ok(statements)
}

fn form_part(cursor: &mut Cursor<'_>) -> Result<Option<u64>, Fault>
    ensures { (n : ℕ) → Reads opens (λ _. form_part) after_form n cursor.old.rest.now result cursor.new.rest.now }
{
    if !cursor.sees_word(Word::Form) {
        return Ok(None);
    }
    let number = number_part(cursor, Word::Form)?;
    Ok(Some(number))
}

fn script_behind(
    alloc: Global,
    cursor: &mut Cursor<'_>,
    levels: usize,
    form: Option<u64>,
) -> Result<Script, Fault>
    ensures read { Reads opens (λ n. script_behind n form) after_script levels cursor.old.rest.now result cursor.new.rest.now }
    ensures end { IfOk result (λ s. cursor.new.rest.now ≡ []) }
{
    let loaded = load(alloc, cursor)?;
    let statements = statements(alloc, cursor, levels)?;
    let (graph, nodes, edges) = loaded;
    Ok(Script {
        form,
        graph,
        nodes,
        edges,
        statements,
    })
}

fn script(alloc: Global, cursor: &mut Cursor<'_>, levels: usize) -> Result<Script, Fault>
    ensures read { Reads opens script after_script levels cursor.old.rest.now result cursor.new.rest.now }
    ensures end { IfOk result (λ s. cursor.new.rest.now ≡ []) }
{
    let form = form_part(cursor)?;
    script_behind(alloc, cursor, levels, form)
}

/// Why tokens are not a script.
#[derive(Clone, Copy, Debug, PartialEq, Eq)]
pub enum TokenFault {
    /// A request for memory was refused.
    NoMemory,
    /// No script has the token at this place after the tokens before it, or the tokens end there too early.
    Syntax(usize),
    /// The token at this place would open a level too many.
    TooDeep(usize),
}

const MAX_LEVELS: usize = 64;

/// The script that these tokens are.
pub fn parse_tokens(alloc: Global, tokens: &[Token]) -> Result<Script, TokenFault>
    ensures { Parses tokens.now result }
{
    let mut cursor = Cursor { rest: tokens };
    match script(alloc, &mut cursor, MAX_LEVELS) {
        Ok(script) => Ok(script),
        Err(Fault::NoMemory) => Err(TokenFault::NoMemory),
        Err(Fault::Syntax) => Err(TokenFault::Syntax(tokens.len() - cursor.rest.len())),
        Err(Fault::TooDeep) => Err(TokenFault::TooDeep(tokens.len() - cursor.rest.len())),
    }
}
