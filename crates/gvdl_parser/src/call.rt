//! Reads calls and parameters.

ghost use Rattle.std.specs.Prelude.{◌≡◌, ℕ};
ghost use Rattle.phrase_theory.specs.Phrases.{one, separated};
ghost use Rattle.phrase_theory.specs.Reading.{alone, Reads};
ghost use Rattle.gvdl_parser.specs.Terminals.{opens};
ghost use Rattle.gvdl_parser.specs.Statements.{listed_behind, listed, number_arg, prop_arg, arg_phrase, call, after_items, after_listed};

use crate::cursor::Cursor;
use crate::terminal::{int, prop};
use gvdl_tokens::{Kind, Sign, Token};
use gvdl_tree::{Arg, Call};
use phrase_theory::Fault;
use std::alloc::Global;
use surge_outside::{List, Text};

fn number_arg(cursor: &mut Cursor<'_>) -> Result<Arg, Fault>
    ensures { (n : ℕ) → Reads opens (λ _. number_arg) alone n cursor.old.rest.now result cursor.new.rest.now }
{
    let number = int(cursor)?;
    Ok(Arg::Number(number))
}

fn prop_arg(alloc: Global, cursor: &mut Cursor<'_>) -> Result<Arg, Fault>
    ensures { (n : ℕ) → Reads opens (λ _. prop_arg) alone n cursor.old.rest.now result cursor.new.rest.now }
{
    let property = prop(alloc, cursor)?;
    Ok(Arg::Prop(property))
}

fn arg(alloc: Global, cursor: &mut Cursor<'_>) -> Result<Arg, Fault>
    ensures { (n : ℕ) → Reads opens (λ _. arg_phrase) alone n cursor.old.rest.now result cursor.new.rest.now }
{
    match cursor.kind() {
        Kind::Name => prop_arg(alloc, cursor),
        Kind::Quoted => prop_arg(alloc, cursor),
        _ => number_arg(cursor),
    }
}

fn arg_chain(alloc: Global, cursor: &mut Cursor<'_>) -> Result<List<Arg>, Fault>
    ensures { (n : ℕ) → Reads opens (λ _. separated (Token.Sign Sign.Comma) arg_phrase) after_items n cursor.old.rest.now result cursor.new.rest.now }
{
    let mut members = List::new(alloc);
    let first = arg(alloc, cursor)?;
    members.push(first)?;
    'more: while cursor.sees_sign(Sign::Comma) {
        cursor.skip();
        let next = arg(alloc, cursor)?;
        members.push(next)?;
    }
    Ok(members)
}

fn args_behind(alloc: Global, cursor: &mut Cursor<'_>) -> Result<List<Arg>, Fault>
    ensures { (n : ℕ) → Reads opens (λ _. listed_behind arg_phrase) alone n cursor.old.rest.now result cursor.new.rest.now }
{
    if cursor.sees_sign(Sign::Close) {
        cursor.skip();
        return Ok(List::new(alloc));
    }
    let members = arg_chain(alloc, cursor)?;
    cursor.sign(Sign::Close)?;
    Ok(members)
}

fn args(alloc: Global, cursor: &mut Cursor<'_>) -> Result<List<Arg>, Fault>
    ensures { (n : ℕ) → Reads opens (λ _. listed arg_phrase) after_listed n cursor.old.rest.now result cursor.new.rest.now }
{
    if !cursor.sees_sign(Sign::Open) {
        return Ok(List::new(alloc));
    }
    cursor.skip();
    let members = args_behind(alloc, cursor)?;
    Ok(members)
}

/// A call of a program.
pub fn call(alloc: Global, cursor: &mut Cursor<'_>) -> Result<Call, Fault>
    ensures { (n : ℕ) → Reads opens (λ _. call) after_listed n cursor.old.rest.now result cursor.new.rest.now }
{
    let name = cursor.name(alloc)?;
    let args = args(alloc, cursor)?;
    Ok(Call { name, args })
}

fn name_chain(alloc: Global, cursor: &mut Cursor<'_>) -> Result<List<Text>, Fault>
    ensures { (n : ℕ) → Reads opens (λ _. separated (Token.Sign Sign.Comma) (one Token.Name)) after_items n cursor.old.rest.now result cursor.new.rest.now }
{
    let mut members = List::new(alloc);
    let first = cursor.name(alloc)?;
    members.push(first)?;
    'more: while cursor.sees_sign(Sign::Comma) {
        cursor.skip();
        let next = cursor.name(alloc)?;
        members.push(next)?;
    }
    Ok(members)
}

fn names_behind(alloc: Global, cursor: &mut Cursor<'_>) -> Result<List<Text>, Fault>
    ensures { (n : ℕ) → Reads opens (λ _. listed_behind (one Token.Name)) alone n cursor.old.rest.now result cursor.new.rest.now }
{
    if cursor.sees_sign(Sign::Close) {
        cursor.skip();
        return Ok(List::new(alloc));
    }
    let members = name_chain(alloc, cursor)?;
    cursor.sign(Sign::Close)?;
    Ok(members)
}

/// The parameters of a program, which may be left out.
pub fn params(alloc: Global, cursor: &mut Cursor<'_>) -> Result<List<Text>, Fault>
    ensures { (n : ℕ) → Reads opens (λ _. listed (one Token.Name)) after_listed n cursor.old.rest.now result cursor.new.rest.now }
{
    if !cursor.sees_sign(Sign::Open) {
        return Ok(List::new(alloc));
    }
    cursor.skip();
    let members = names_behind(alloc, cursor)?;
    Ok(members)
}
