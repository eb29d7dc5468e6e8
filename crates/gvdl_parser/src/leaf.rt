//! Reads expressions that open no level and are no chains.

ghost use Rattle.std.specs.Prelude.{◌≡◌, ℕ};
ghost use Rattle.phrase_theory.specs.Reading.{alone, Reads};
ghost use Rattle.gvdl_parser.specs.Terminals.{opens};
ghost use Rattle.gvdl_parser.specs.Expressions.{number_leaf, nil_leaf, word_leaf, edge_leaf, node_leaf, param_leaf, leaf};

use crate::cursor::Cursor;
use crate::terminal::{prop, value_word};
use gvdl_tokens::{Kind, Sign, Word};
use gvdl_tree::ExprTree;
use phrase_theory::Fault;
use std::alloc::Global;
use surge_outside::Boxed;

fn number_leaf(cursor: &mut Cursor<'_>) -> Result<ExprTree, Fault>
    ensures { (n : ℕ) → Reads opens (λ _. number_leaf) alone n cursor.old.rest.now result cursor.new.rest.now }
{
    let number = cursor.number()?;
    Ok(ExprTree::Number(number))
}

fn nil_leaf(cursor: &mut Cursor<'_>) -> Result<ExprTree, Fault>
    ensures { (n : ℕ) → Reads opens (λ _. nil_leaf) alone n cursor.old.rest.now result cursor.new.rest.now }
{
    cursor.word(Word::None)?;
    Ok(ExprTree::Nil)
}

fn word_leaf(cursor: &mut Cursor<'_>) -> Result<ExprTree, Fault>
    ensures { (n : ℕ) → Reads opens (λ _. word_leaf) alone n cursor.old.rest.now result cursor.new.rest.now }
{
    let word = value_word(cursor)?;
    Ok(ExprTree::Word(word))
}

fn edge_leaf(alloc: Global, cursor: &mut Cursor<'_>) -> Result<ExprTree, Fault>
    ensures { (n : ℕ) → Reads opens (λ _. edge_leaf) alone n cursor.old.rest.now result cursor.new.rest.now }
{
    cursor.word(Word::Edge)?;
    cursor.sign(Sign::Dot)?;
    let property = prop(alloc, cursor)?;
    Ok(ExprTree::EdgeProp(property))
}

fn node_leaf(alloc: Global, cursor: &mut Cursor<'_>) -> Result<ExprTree, Fault>
    ensures { (n : ℕ) → Reads opens (λ _. node_leaf) alone n cursor.old.rest.now result cursor.new.rest.now }
{
    cursor.word(Word::Node)?;
    cursor.sign(Sign::Dot)?;
    let property = prop(alloc, cursor)?;
    Ok(ExprTree::NodeProp(property))
}

fn param_leaf(alloc: Global, cursor: &mut Cursor<'_>) -> Result<ExprTree, Fault>
    ensures { (n : ℕ) → Reads opens (λ _. param_leaf) alone n cursor.old.rest.now result cursor.new.rest.now }
{
    let name = cursor.name(alloc)?;
    Ok(ExprTree::Param(name))
}

// A number, `none`, a word that stands for a value, a property or a parameter.
fn bare_leaf(alloc: Global, cursor: &mut Cursor<'_>) -> Result<ExprTree, Fault>
    ensures { (n : ℕ) → Reads opens (λ _. leaf) alone n cursor.old.rest.now result cursor.new.rest.now }
{
    if cursor.sees_word(Word::None) {
        return nil_leaf(cursor);
    }
    if cursor.sees_word(Word::Edge) {
        return edge_leaf(alloc, cursor);
    }
    if cursor.sees_word(Word::Node) {
        return node_leaf(alloc, cursor);
    }
    match cursor.kind() {
        Kind::Number => number_leaf(cursor),
        Kind::Name => param_leaf(alloc, cursor),
        _ => word_leaf(cursor),
    }
}

/// A number, `none`, a word that stands for a value, a property or a parameter.
pub fn leaf(alloc: Global, cursor: &mut Cursor<'_>) -> Result<Boxed<ExprTree>, Fault>
    ensures { (n : ℕ) → Reads opens (λ _. leaf) alone n cursor.old.rest.now result cursor.new.rest.now }
{
    match bare_leaf(alloc, cursor) {
        Ok(tree) => Ok(Boxed::new(alloc, tree)?),
        Err(fault) => Err(fault),
    }
}
