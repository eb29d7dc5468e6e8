//! Calls of written programs.

ghost use Rattle.std.specs.Prelude.{◌≡◌, pos, map, get_or, IfOk};
ghost use Rattle.gvdl_programs.specs.Filled.{word_expression, filled, filled_check, filled_program};

use crate::template::{CheckTemplate, ExprTemplate, ProgramTemplate};
use gvdl_tree::Word;
use std::alloc::Global;
use surge_outside::{Boxed, List, NoMemory};
use vertex_lang::{Check, Expr, Program};

fn word_expression(word: Word) -> Expr
    ensures { result ≡ word_expression word }
{
    match word {
        Word::Id => Expr::Id,
        Word::Start => Expr::Start,
        Word::Value => Expr::Value,
        Word::Gathered => Expr::Gathered,
        Word::Count => Expr::Count,
        Word::Outdeg => Expr::Outdeg,
    }
}

// The number at this place.
fn number_at(numbers: &[i64], place: usize) -> i64
    ensures { result ≡ get_or numbers.now place (pos 0) }
{
    match numbers.get(place) {
        Some(number) => *number,
        None => 0,
    }
}

/// The expression with these numbers in place of its parameters.
#[cycle(filling)]
fn filled(alloc: Global, numbers: &[i64], template: &ExprTemplate) -> Result<Expr, NoMemory>
    ensures { IfOk result (λ e. e ≡ filled numbers.now template.now) }
{
    match template {
        ExprTemplate::If(checks, first, second) => {
            let checks = filled_checks(alloc, numbers, checks.as_slice())?;
            let first = filled_box(alloc, numbers, first.get())?;
            let second = filled_box(alloc, numbers, second.get())?;
            Ok(Expr::If(checks, first, second))
        }
        ExprTemplate::Else(members) => {
            Ok(Expr::Else(filled_all(alloc, numbers, members.as_slice())?))
        }
        ExprTemplate::Sum(first, rest) => {
            let first = filled_box(alloc, numbers, first.get())?;
            Ok(Expr::Sum(first, filled_chain(alloc, numbers, rest.as_slice())?))
        }
        ExprTemplate::Product(first, rest) => {
            let first = filled_box(alloc, numbers, first.get())?;
            Ok(Expr::Product(first, filled_chain(alloc, numbers, rest.as_slice())?))
        }
        ExprTemplate::Minus(member) => Ok(Expr::Minus(filled_box(alloc, numbers, member.get())?)),
        ExprTemplate::Number(number) => Ok(Expr::Number(*number)),
        ExprTemplate::Nil => Ok(Expr::Nil),
        ExprTemplate::Word(word) => Ok(word_expression(*word)),
        ExprTemplate::EdgeProp(column) => Ok(Expr::EdgeProp(*column)),
        ExprTemplate::NodeProp(column) => Ok(Expr::NodeProp(*column)),
        ExprTemplate::Param(place) => Ok(Expr::Number(number_at(numbers, *place))),
        ExprTemplate::Least(first, second) => {
            let first = filled_box(alloc, numbers, first.get())?;
            Ok(Expr::Least(first, filled_box(alloc, numbers, second.get())?))
        }
        ExprTemplate::Most(first, second) => {
            let first = filled_box(alloc, numbers, first.get())?;
            Ok(Expr::Most(first, filled_box(alloc, numbers, second.get())?))
        }
    }
}

#[cycle(filling)]
fn filled_box(
    alloc: Global,
    numbers: &[i64],
    template: &ExprTemplate,
) -> Result<Boxed<Expr>, NoMemory>
    ensures { IfOk result (λ e. e ≡ filled numbers.now template.now) }
{
    Boxed::new(alloc, filled(alloc, numbers, template)?)
}

#[cycle(filling)]
fn filled_check(alloc: Global, numbers: &[i64], template: &CheckTemplate) -> Result<Check, NoMemory>
    ensures { IfOk result (λ c. c ≡ filled_check numbers.now template.now) }
{
    match template {
        CheckTemplate::Compare(first, sign, second) => {
            let first = filled(alloc, numbers, first)?;
            let second = filled(alloc, numbers, second)?;
            Ok(Check::Compare(first, *sign, second))
        }
        CheckTemplate::IsNil(member) => Ok(Check::IsNil(filled(alloc, numbers, member)?)),
    }
}

#[cycle(filling)]
fn filled_checks(
    alloc: Global,
    numbers: &[i64],
    templates: &[CheckTemplate],
) -> Result<List<Check>, NoMemory>
    ensures { IfOk result (λ cs. cs ≡ map (filled_check numbers.now) templates.now) }
{
    let mut checks = List::new(alloc);
    for template in templates {
        checks.push(filled_check(alloc, numbers, template)?)?;
    }
    Ok(checks)
}

#[cycle(filling)]
fn filled_all(
    alloc: Global,
    numbers: &[i64],
    templates: &[ExprTemplate],
) -> Result<List<Expr>, NoMemory>
    ensures { IfOk result (λ es. es ≡ map (filled numbers.now) templates.now) }
{
    let mut members = List::new(alloc);
    for template in templates {
        members.push(filled(alloc, numbers, template)?)?;
    }
    Ok(members)
}

#[cycle(filling)]
fn filled_chain(
    alloc: Global,
    numbers: &[i64],
    templates: &[(bool, ExprTemplate)],
) -> Result<List<(bool, Expr)>, NoMemory>
    ensures { IfOk result (λ es. es ≡ map (λ m. (m.0, filled numbers.now m.1)) templates.now) }
{
    let mut members = List::new(alloc);
    for member in templates {
        let other = filled(alloc, numbers, &member.1)?;
        members.push((member.0, other))?;
    }
    Ok(members)
}

/// The program with these numbers in place of its parameters.
pub(crate) fn filled_program(
    alloc: Global,
    template: &ProgramTemplate,
    numbers: &[i64],
) -> Result<Program, NoMemory>
    ensures { IfOk result (λ p. p ≡ filled_program template.now numbers.now) }
{
    Ok(Program {
        along: template.along,
        start: filled(alloc, numbers, &template.start)?,
        send: filled(alloc, numbers, &template.send)?,
        gather: template.gather,
        update: filled(alloc, numbers, &template.update)?,
    })
}
