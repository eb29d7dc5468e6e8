//! Reads statements that make views.

ghost use Rattle.std.specs.Prelude.{◌≡◌, ℕ};
ghost use Rattle.phrase_theory.specs.Phrases.{one};
ghost use Rattle.phrase_theory.specs.Reading.{alone, Reads};
ghost use Rattle.gvdl_parser.specs.Terminals.{opens, prop};
ghost use Rattle.gvdl_parser.specs.Predicates.{after_predicate};
ghost use Rattle.gvdl_parser.specs.Statements.{behind, part, window, rule, item_body, item, items, collection, single, made, create, append, after_items};

use crate::cursor::Cursor;
use crate::predicate::predicate;
use crate::terminal::{int, prop};
use gvdl_tokens::{Sign, Token, Word};
use gvdl_tree::{Item, ItemBody, Statement};
use phrase_theory::Fault;
use std::alloc::Global;
use surge_outside::{List, Text};

/// A name behind a word.
pub fn name_behind(alloc: Global, cursor: &mut Cursor<'_>, word: Word) -> Result<Text, Fault>
    ensures { (n : ℕ) → Reads opens (λ _. behind word (one Token.Name)) alone n cursor.old.rest.now result cursor.new.rest.now }
{
    cursor.word(word)?;
    let name = cursor.name(alloc)?;
    Ok(name)
}

/// A number behind a word.
pub fn number_behind(cursor: &mut Cursor<'_>, word: Word) -> Result<u64, Fault>
    ensures { (n : ℕ) → Reads opens (λ _. behind word (one Token.Number)) alone n cursor.old.rest.now result cursor.new.rest.now }
{
    cursor.word(word)?;
    let number = cursor.number()?;
    Ok(number)
}

/// A number behind a word, and a semicolon.
pub fn number_part(cursor: &mut Cursor<'_>, word: Word) -> Result<u64, Fault>
    ensures { (n : ℕ) → Reads opens (λ _. part word (one Token.Number)) alone n cursor.old.rest.now result cursor.new.rest.now }
{
    cursor.word(word)?;
    let number = cursor.number()?;
    cursor.sign(Sign::Semicolon)?;
    Ok(number)
}

/// A property behind a word.
pub fn prop_behind(alloc: Global, cursor: &mut Cursor<'_>, word: Word) -> Result<Text, Fault>
    ensures { (n : ℕ) → Reads opens (λ _. behind word prop) alone n cursor.old.rest.now result cursor.new.rest.now }
{
    cursor.word(word)?;
    let property = prop(alloc, cursor)?;
    Ok(property)
}

fn window(alloc: Global, cursor: &mut Cursor<'_>) -> Result<ItemBody, Fault>
    ensures { (n : ℕ) → Reads opens (λ _. window) after_predicate n cursor.old.rest.now result cursor.new.rest.now }
{
    let prop = prop_behind(alloc, cursor, Word::Window)?;
    cursor.word(Word::From)?;
    let first = int(cursor)?;
    cursor.word(Word::To)?;
    let last = int(cursor)?;
    let width = number_behind(cursor, Word::Width)?;
    let step = number_behind(cursor, Word::Step)?;
    Ok(ItemBody::Window {
        prop,
        first,
        last,
        width,
        step,
    })
}

fn rule(alloc: Global, cursor: &mut Cursor<'_>, levels: usize) -> Result<ItemBody, Fault>
    ensures { Reads opens rule after_predicate levels cursor.old.rest.now result cursor.new.rest.now }
{
    let predicate = predicate(alloc, cursor, levels)?;
    Ok(ItemBody::Rule(predicate))
}

fn item_body(alloc: Global, cursor: &mut Cursor<'_>, levels: usize) -> Result<ItemBody, Fault>
    ensures { Reads opens item_body after_predicate levels cursor.old.rest.now result cursor.new.rest.now }
{
    if cursor.sees_word(Word::Window) {
        return window(alloc, cursor);
    }
    rule(alloc, cursor, levels)
}

fn item(alloc: Global, cursor: &mut Cursor<'_>, levels: usize) -> Result<Item, Fault>
    ensures { Reads opens item alone levels cursor.old.rest.now result cursor.new.rest.now }
{
    cursor.sign(Sign::OpenBracket)?;
    let name = cursor.name(alloc)?;
    cursor.sign(Sign::Colon)?;
    let body = item_body(alloc, cursor, levels)?;
    cursor.sign(Sign::CloseBracket)?;
    Ok(Item { name, body })
}

fn items(alloc: Global, cursor: &mut Cursor<'_>, levels: usize) -> Result<List<Item>, Fault>
    ensures { Reads opens items after_items levels cursor.old.rest.now result cursor.new.rest.now }
{
    let mut items = List::new(alloc);
    let first = item(alloc, cursor, levels)?;
    items.push(first)?;
    'more: while cursor.sees_sign(Sign::Comma) {
        cursor.skip();
        let next = item(alloc, cursor, levels)?;
        items.push(next)?;
    }
    Ok(items)
}

fn collection(alloc: Global, cursor: &mut Cursor<'_>, levels: usize) -> Result<Statement, Fault>
    ensures { Reads opens collection alone levels cursor.old.rest.now result cursor.new.rest.now }
{
    let name = name_behind(alloc, cursor, Word::Collection)?;
    let base = name_behind(alloc, cursor, Word::On)?;
    let items = items(alloc, cursor, levels)?;
    cursor.sign(Sign::Semicolon)?;
    Ok(Statement::Collection { name, base, items })
}

fn single(alloc: Global, cursor: &mut Cursor<'_>, levels: usize) -> Result<Statement, Fault>
    ensures { Reads opens single alone levels cursor.old.rest.now result cursor.new.rest.now }
{
    let name = cursor.name(alloc)?;
    let base = name_behind(alloc, cursor, Word::On)?;
    cursor.word(Word::Edges)?;
    cursor.word(Word::Where)?;
    let rule = predicate(alloc, cursor, levels)?;
    cursor.sign(Sign::Semicolon)?;
    Ok(Statement::View { name, base, rule })
}

fn made(alloc: Global, cursor: &mut Cursor<'_>, levels: usize) -> Result<Statement, Fault>
    ensures { Reads opens made alone levels cursor.old.rest.now result cursor.new.rest.now }
{
    if cursor.sees_word(Word::Collection) {
        return collection(alloc, cursor, levels);
    }
    single(alloc, cursor, levels)
}

/// The statement that makes a view or a collection of views.
pub fn create(alloc: Global, cursor: &mut Cursor<'_>, levels: usize) -> Result<Statement, Fault>
    ensures { Reads opens create alone levels cursor.old.rest.now result cursor.new.rest.now }
{
    cursor.word(Word::Create)?;
    cursor.word(Word::View)?;
    let made = made(alloc, cursor, levels)?;
    Ok(made)
}

/// The statement that adds views to a collection.
pub fn append(alloc: Global, cursor: &mut Cursor<'_>, levels: usize) -> Result<Statement, Fault>
    ensures { Reads opens append alone levels cursor.old.rest.now result cursor.new.rest.now }
{
    cursor.word(Word::Append)?;
    let target = name_behind(alloc, cursor, Word::To)?;
    let items = items(alloc, cursor, levels)?;
    cursor.sign(Sign::Semicolon)?;
    Ok(Statement::Append { target, items })
}
