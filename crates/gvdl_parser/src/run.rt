//! Reads statements that run programs and show what was found.

ghost use Rattle.std.specs.Prelude.{◌≡◌, ℕ};
ghost use Rattle.phrase_theory.specs.Phrases.{one};
ghost use Rattle.phrase_theory.specs.Reading.{alone, Reads};
ghost use Rattle.gvdl_parser.specs.Terminals.{opens, order_token};
ghost use Rattle.gvdl_parser.specs.Statements.{behind, part, rounds_word, split_none, split_every, split_auto, split_word, order_part, split_part, keep_part, unphased, phased, run_options, run, show_order, show_work, show_tree, shown, show, after_order, after_split, after_keep};

use crate::call::call;
use crate::cursor::Cursor;
use crate::terminal::{order, within};
use crate::view::{name_behind, number_behind, number_part};
use gvdl_tokens::{Sign, Token, Word};
use gvdl_tree::{OrderWord, SplitWord, Statement};
use phrase_theory::Fault;
use std::alloc::Global;
use surge_outside::Text;

fn rounds_word(cursor: &mut Cursor<'_>) -> Result<(), Fault>
    ensures { (n : ℕ) → Reads opens (λ _. rounds_word) alone n cursor.old.rest.now result cursor.new.rest.now }
{
    if cursor.sees_word(Word::Round) {
        return cursor.word(Word::Round);
    }
    cursor.word(Word::Rounds)
}

fn split_none(cursor: &mut Cursor<'_>) -> Result<SplitWord, Fault>
    ensures { (n : ℕ) → Reads opens (λ _. split_none) alone n cursor.old.rest.now result cursor.new.rest.now }
{
    cursor.word(Word::None)?;
    Ok(SplitWord::Whole)
}

fn split_every(cursor: &mut Cursor<'_>) -> Result<SplitWord, Fault>
    ensures { (n : ℕ) → Reads opens (λ _. split_every) alone n cursor.old.rest.now result cursor.new.rest.now }
{
    let number = number_behind(cursor, Word::Every)?;
    Ok(SplitWord::Every(number))
}

fn split_auto(cursor: &mut Cursor<'_>) -> Result<SplitWord, Fault>
    ensures { (n : ℕ) → Reads opens (λ _. split_auto) alone n cursor.old.rest.now result cursor.new.rest.now }
{
    cursor.word(Word::Auto)?;
    Ok(SplitWord::Auto)
}

fn split_word(cursor: &mut Cursor<'_>) -> Result<SplitWord, Fault>
    ensures { (n : ℕ) → Reads opens (λ _. split_word) alone n cursor.old.rest.now result cursor.new.rest.now }
{
    if cursor.sees_word(Word::None) {
        return split_none(cursor);
    }
    if cursor.sees_word(Word::Every) {
        return split_every(cursor);
    }
    split_auto(cursor)
}

fn order_part(cursor: &mut Cursor<'_>) -> Result<Option<OrderWord>, Fault>
    ensures { (n : ℕ) → Reads opens (λ _. order_part) after_order n cursor.old.rest.now result cursor.new.rest.now }
{
    if !cursor.sees_word(Word::Order) {
        return Ok(None);
    }
    cursor.skip();
    let order = order(cursor)?;
    Ok(Some(order))
}

fn split_part(cursor: &mut Cursor<'_>) -> Result<Option<SplitWord>, Fault>
    ensures { (n : ℕ) → Reads opens (λ _. split_part) after_split n cursor.old.rest.now result cursor.new.rest.now }
{
    if !cursor.sees_word(Word::Split) {
        return Ok(None);
    }
    cursor.skip();
    let split = split_word(cursor)?;
    Ok(Some(split))
}

fn keep_part(alloc: Global, cursor: &mut Cursor<'_>) -> Result<Option<Text>, Fault>
    ensures { (n : ℕ) → Reads opens (λ _. keep_part) after_keep n cursor.old.rest.now result cursor.new.rest.now }
{
    if !cursor.sees_word(Word::Keep) {
        return Ok(None);
    }
    cursor.skip();
    let name = name_behind(alloc, cursor, Word::As)?;
    Ok(Some(name))
}

/// What a run's statement says behind its rounds.
#[derive(Debug, Drop)]
pub struct RunOptions {
    /// In which order the views are run, where that is said.
    pub order: Option<OrderWord>,
    /// How they are split into segments, where that is said.
    pub split: Option<SplitWord>,
    /// Under which name the run is kept, if it is.
    pub keep: Option<Text>,
    /// How many phases it has, if it has any; then nothing else is said.
    pub phases: Option<u64>,
}

fn unphased(alloc: Global, cursor: &mut Cursor<'_>) -> Result<RunOptions, Fault>
    ensures { (n : ℕ) → Reads opens (λ _. unphased) alone n cursor.old.rest.now result cursor.new.rest.now }
{
    let order = order_part(cursor)?;
    let split = split_part(cursor)?;
    let keep = keep_part(alloc, cursor)?;
    cursor.sign(Sign::Semicolon)?;
    Ok(RunOptions {
        order,
        split,
        keep,
        phases: None,
    })
}

fn phased(cursor: &mut Cursor<'_>) -> Result<RunOptions, Fault>
    ensures { (n : ℕ) → Reads opens (λ _. phased) alone n cursor.old.rest.now result cursor.new.rest.now }
{
    let number = number_part(cursor, Word::Phases)?;
    Ok(RunOptions {
        order: None,
        split: None,
        keep: None,
        phases: Some(number),
    })
}

fn run_options(alloc: Global, cursor: &mut Cursor<'_>, within: bool) -> Result<RunOptions, Fault>
    ensures { (n : ℕ) → Reads opens (λ _. run_options within) alone n cursor.old.rest.now result cursor.new.rest.now }
{
    if !within {
        return unphased(alloc, cursor);
    }
    if cursor.sees_word(Word::Phases) {
        return phased(cursor);
    }
    unphased(alloc, cursor)
}

/// The statement that runs a program on a collection.
pub fn run(alloc: Global, cursor: &mut Cursor<'_>) -> Result<Statement, Fault>
    ensures { (n : ℕ) → Reads opens (λ _. run) alone n cursor.old.rest.now result cursor.new.rest.now }
{
    cursor.word(Word::Run)?;
    let call = call(alloc, cursor)?;
    cursor.word(Word::On)?;
    let target = cursor.name(alloc)?;
    let within = within(cursor)?;
    let number = cursor.number()?;
    rounds_word(cursor)?;
    let options = run_options(alloc, cursor, within)?;
    let RunOptions {
        order,
        split,
        keep,
        phases,
    } = options;
    Ok(Statement::Run {
        call,
        target,
        within,
        number,
        order,
        split,
        keep,
        phases,
    })
}

fn name_part(alloc: Global, cursor: &mut Cursor<'_>, word: Word) -> Result<Text, Fault>
    ensures { (n : ℕ) → Reads opens (λ _. part word (one Token.Name)) alone n cursor.old.rest.now result cursor.new.rest.now }
{
    cursor.word(word)?;
    let name = cursor.name(alloc)?;
    cursor.sign(Sign::Semicolon)?;
    Ok(name)
}

fn show_order(alloc: Global, cursor: &mut Cursor<'_>) -> Result<Statement, Fault>
    ensures { (n : ℕ) → Reads opens (λ _. show_order) alone n cursor.old.rest.now result cursor.new.rest.now }
{
    let name = name_part(alloc, cursor, Word::Order)?;
    Ok(Statement::ShowOrder { name })
}

fn show_work(alloc: Global, cursor: &mut Cursor<'_>) -> Result<Statement, Fault>
    ensures { (n : ℕ) → Reads opens (λ _. show_work) alone n cursor.old.rest.now result cursor.new.rest.now }
{
    let name = name_part(alloc, cursor, Word::Work)?;
    Ok(Statement::ShowWork { name })
}

fn show_tree(alloc: Global, cursor: &mut Cursor<'_>) -> Result<Statement, Fault>
    ensures { (n : ℕ) → Reads opens (λ _. show_tree) alone n cursor.old.rest.now result cursor.new.rest.now }
{
    let name = name_part(alloc, cursor, Word::Tree)?;
    Ok(Statement::ShowTree { name })
}

fn shown(alloc: Global, cursor: &mut Cursor<'_>) -> Result<Statement, Fault>
    ensures { (n : ℕ) → Reads opens (λ _. shown) alone n cursor.old.rest.now result cursor.new.rest.now }
{
    if cursor.sees_word(Word::Order) {
        return show_order(alloc, cursor);
    }
    if cursor.sees_word(Word::Work) {
        return show_work(alloc, cursor);
    }
    show_tree(alloc, cursor)
}

/// The statement that shows an order, the work of a run or a tree.
pub fn show(alloc: Global, cursor: &mut Cursor<'_>) -> Result<Statement, Fault>
    ensures { (n : ℕ) → Reads opens (λ _. show) alone n cursor.old.rest.now result cursor.new.rest.now }
{
    cursor.word(Word::Show)?;
    let what = shown(alloc, cursor)?;
    Ok(what)
}
