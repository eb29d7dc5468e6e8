//! Reads predicates.

ghost use Rattle.std.specs.Prelude.{◌≡◌, ◌≢◌, ℕ, IfOk, Result};
ghost use Rattle.phrase_theory.specs.Phrases.{word, one};
ghost use Rattle.phrase_theory.specs.Reading.{next, after, alone, Reads};
ghost use Rattle.gvdl_parser.specs.Terminals.{opens};
ghost use Rattle.gvdl_parser.specs.Predicates.{field_phrase, operand_phrase, number_operand, text_operand, truth_operand, source_operand, target_operand, edge_operand, atom, negated, enclosed, negation, conjunction, predicate, all_of, any_of, after_negation, after_conjunction, after_predicate};

use crate::cursor::Cursor;
use crate::meaning::comparison_of;
use crate::terminal::{int, prop, truth};
use gvdl_tokens::{Kind, Sign, Word};
use gvdl_tree::{Field, Operand, PredTree};
use phrase_theory::Fault;
use std::alloc::Global;
use surge_outside::{Boxed, List};

fn field(alloc: Global, cursor: &mut Cursor<'_>) -> Result<Field, Fault>
    ensures { (n : ℕ) → Reads opens (λ _. field_phrase) alone n cursor.old.rest.now result cursor.new.rest.now }
{
    if cursor.sees_word(Word::Id) {
        cursor.skip();
        return Ok(Field::Id);
    }
    let property = prop(alloc, cursor)?;
    Ok(Field::Prop(property))
}

fn number_operand(cursor: &mut Cursor<'_>) -> Result<Operand, Fault>
    ensures { (n : ℕ) → Reads opens (λ _. number_operand) alone n cursor.old.rest.now result cursor.new.rest.now }
{
    let number = int(cursor)?;
    Ok(Operand::Number(number))
}

fn text_operand(alloc: Global, cursor: &mut Cursor<'_>) -> Result<Operand, Fault>
    ensures { (n : ℕ) → Reads opens (λ _. text_operand) alone n cursor.old.rest.now result cursor.new.rest.now }
{
    let text = cursor.string(alloc)?;
    Ok(Operand::Str(text))
}

fn source_operand(alloc: Global, cursor: &mut Cursor<'_>) -> Result<Operand, Fault>
    ensures { (n : ℕ) → Reads opens (λ _. source_operand) alone n cursor.old.rest.now result cursor.new.rest.now }
{
    cursor.word(Word::Src)?;
    cursor.sign(Sign::Dot)?;
    let field = field(alloc, cursor)?;
    Ok(Operand::Src(field))
}

fn target_operand(alloc: Global, cursor: &mut Cursor<'_>) -> Result<Operand, Fault>
    ensures { (n : ℕ) → Reads opens (λ _. target_operand) alone n cursor.old.rest.now result cursor.new.rest.now }
{
    cursor.word(Word::Dst)?;
    cursor.sign(Sign::Dot)?;
    let field = field(alloc, cursor)?;
    Ok(Operand::Dst(field))
}

fn edge_operand(alloc: Global, cursor: &mut Cursor<'_>) -> Result<Operand, Fault>
    ensures { (n : ℕ) → Reads opens (λ _. edge_operand) alone n cursor.old.rest.now result cursor.new.rest.now }
{
    let property = prop(alloc, cursor)?;
    Ok(Operand::Edge(property))
}

fn truth_operand(cursor: &mut Cursor<'_>) -> Result<Operand, Fault>
    ensures { (n : ℕ) → Reads opens (λ _. truth_operand) alone n cursor.old.rest.now result cursor.new.rest.now }
{
    let truth = truth(cursor)?;
    Ok(Operand::Bool(truth))
}

fn operand(alloc: Global, cursor: &mut Cursor<'_>) -> Result<Operand, Fault>
    ensures { (n : ℕ) → Reads opens (λ _. operand_phrase) alone n cursor.old.rest.now result cursor.new.rest.now }
{
    if cursor.sees_word(Word::Src) {
        return source_operand(alloc, cursor);
    }
    if cursor.sees_word(Word::Dst) {
        return target_operand(alloc, cursor);
    }
    if cursor.sees_word(Word::True) {
        return truth_operand(cursor);
    }
    if cursor.sees_word(Word::False) {
        return truth_operand(cursor);
    }
    if cursor.sees_sign(Sign::Minus) {
        return number_operand(cursor);
    }
    match cursor.kind() {
        Kind::Number => number_operand(cursor),
        Kind::Str => text_operand(alloc, cursor),
        _ => edge_operand(alloc, cursor),
    }
}

fn atom(alloc: Global, cursor: &mut Cursor<'_>) -> Result<PredTree, Fault>
    ensures { (n : ℕ) → Reads opens (λ _. atom) after_negation n cursor.old.rest.now result cursor.new.rest.now }
{
    let first = operand(alloc, cursor)?;
    if let Some(cmp) = comparison_of(cursor.kind()) {
        cursor.skip();
        let second = operand(alloc, cursor)?;
        return Ok(PredTree::Compare(first, cmp, second));
    }
    if cursor.sees_word(Word::Is) {
        cursor.skip();
        cursor.word(Word::Absent)?;
        return Ok(PredTree::Missing(first));
    }
    if let Operand::Bool(truth) = &first {
        return Ok(PredTree::Constant(*truth));
    }
    Err(Fault::Syntax)
}

// A predicate that holds where each member does.
fn all(members: List<PredTree>) -> PredTree
    ensures { result ≡ all_of members }
{
    let mut members = members.into_vec();
    if members.len() == 1 {
        members.remove(0)
    } else {
        PredTree::And(List::from_vec(members))
    }
}

// A predicate that holds where some member does.
fn any(members: List<PredTree>) -> PredTree
    ensures { result ≡ any_of members }
{
    let mut members = members.into_vec();
    if members.len() == 1 {
        members.remove(0)
    } else {
        PredTree::Or(List::from_vec(members))
    }
}

// `not` and what is behind it, where so many levels may be open.
#[cycle(predicate)]
fn negated(alloc: Global, cursor: &mut Cursor<'_>, levels: usize) -> Result<PredTree, Fault>
    ensures { Reads opens (λ n. negated (negation n)) after_negation levels cursor.old.rest.now result cursor.new.rest.now }
{
    cursor.word(Word::Not)?;
    let inner = negation(alloc, cursor, levels)?;
    Ok(PredTree::Not(Boxed::new(alloc, inner)?))
}

// What stands in parentheses, where so many levels may be open inside.
#[cycle(predicate)]
fn enclosed(alloc: Global, cursor: &mut Cursor<'_>, levels: usize) -> Result<PredTree, Fault>
    ensures { Reads opens (λ n. enclosed (negation n)) after_negation levels cursor.old.rest.now result cursor.new.rest.now }
{
    cursor.sign(Sign::Open)?;
    let inner = predicate(alloc, cursor, levels)?;
    cursor.sign(Sign::Close)?;
    Ok(inner)
}

#[cycle(predicate)]
fn negation(alloc: Global, cursor: &mut Cursor<'_>, levels: usize) -> Result<PredTree, Fault>
    ensures { Reads opens negation after_negation levels cursor.old.rest.now result cursor.new.rest.now }
{
    if cursor.sees_word(Word::Not) {
        if levels == 0 {
            return Err(Fault::TooDeep);
        }
        return negated(alloc, cursor, levels - 1);
    }
    if cursor.sees_sign(Sign::Open) {
        if levels == 0 {
            return Err(Fault::TooDeep);
        }
        return enclosed(alloc, cursor, levels - 1);
    }
    atom(alloc, cursor)
}

#[cycle(predicate)]
fn conjunction(alloc: Global, cursor: &mut Cursor<'_>, levels: usize) -> Result<PredTree, Fault>
    ensures { Reads opens conjunction after_conjunction levels cursor.old.rest.now result cursor.new.rest.now }
{
    let mut members = List::new(alloc);
    let first = negation(alloc, cursor, levels)?;
    members.push(first)?;
    'more: while cursor.sees_word(Word::And) {
        cursor.skip();
        let next = negation(alloc, cursor, levels)?;
        members.push(next)?;
    }
    Ok(all(members))
}

/// A predicate that opens at most this number of levels.
#[cycle(predicate)]
pub fn predicate(alloc: Global, cursor: &mut Cursor<'_>, levels: usize) -> Result<PredTree, Fault>
    ensures { Reads opens predicate after_predicate levels cursor.old.rest.now result cursor.new.rest.now }
{
    let mut members = List::new(alloc);
    let first = conjunction(alloc, cursor, levels)?;
    members.push(first)?;
    'more: while cursor.sees_word(Word::Or) {
        cursor.skip();
        let next = conjunction(alloc, cursor, levels)?;
        members.push(next)?;
    }
    Ok(any(members))
}
