//! Reads expressions.

ghost use Rattle.std.specs.Prelude.{◌≡◌, ◌≢◌, ◌++◌, ◌∷◌, [], ℕ, IfOk, Result};
ghost use Rattle.phrase_theory.specs.Reading.{next, alone, Reads};
ghost use Rattle.gvdl_tree.specs.declared.expression.Test.{Test};
ghost use Rattle.gvdl_parser.specs.Terminals.{opens, extreme_token};
ghost use Rattle.gvdl_parser.specs.Expressions.{negative, enclosed, extreme, extreme_tree, unary, product, sum, sums, sum_tree, product_tree, else_tree, test_of, condition_of, conditional, expression, after_product, after_sum, after_condition, after_expression};

use crate::cursor::Cursor;
use crate::leaf::leaf;
use crate::meaning::{comparison_of, extreme_of, factor_of, term_of};
use crate::terminal::extreme_word;
use gvdl_tokens::{Sign, Word};
use gvdl_tree::{Cmp, ExprTree, Test};
use phrase_theory::Fault;
use std::alloc::Global;
use surge_outside::{Boxed, List, NoMemory};

// Trees are handed on in boxes: the part of a proof that follows borrows is the dearer, the more of a tree lies in a function's own
// places.

// The greater or the lesser of two values.
fn extreme_tree(
    alloc: Global,
    greatest: bool,
    a: Boxed<ExprTree>,
    b: Boxed<ExprTree>,
) -> Result<Boxed<ExprTree>, NoMemory>
    ensures { IfOk result (λ e. e ≡ extreme_tree greatest a b) }
{
    if greatest {
        Boxed::new(alloc, ExprTree::Most(a, b))
    } else {
        Boxed::new(alloc, ExprTree::Least(a, b))
    }
}

// A chain of products.
fn product_tree(
    alloc: Global,
    first: ExprTree,
    others: List<(bool, ExprTree)>,
) -> Result<Boxed<ExprTree>, NoMemory>
    ensures { IfOk result (λ e. e ≡ product_tree first others) }
{
    if others.is_empty() {
        return Boxed::new(alloc, first);
    }
    let first = Boxed::new(alloc, first)?;
    Boxed::new(alloc, ExprTree::Product(first, others))
}

// A chain of sums.
fn sum_tree(
    alloc: Global,
    first: ExprTree,
    others: List<(bool, ExprTree)>,
) -> Result<Boxed<ExprTree>, NoMemory>
    ensures { IfOk result (λ e. e ≡ sum_tree first others) }
{
    if others.is_empty() {
        return Boxed::new(alloc, first);
    }
    let first = Boxed::new(alloc, first)?;
    Boxed::new(alloc, ExprTree::Sum(first, others))
}

// The first member that has a value.
fn else_tree(alloc: Global, members: List<ExprTree>) -> Result<Boxed<ExprTree>, NoMemory>
    ensures { IfOk result (λ e. e ≡ else_tree members) }
{
    let mut members = members.into_vec();
    if members.len() == 1 {
        Boxed::new(alloc, members.remove(0))
    } else {
        Boxed::new(alloc, ExprTree::Else(List::from_vec(members)))
    }
}

// Puts a member of a chain behind the others.
fn push_member(members: &mut List<ExprTree>, member: Boxed<ExprTree>) -> Result<(), NoMemory>
    ensures { IfOk result (λ _. members.new ≡ members.old ++ member ∷ []) }
{
    members.push(member.into_inner())
}

// The same of a chain with signs.
fn push_signed(
    members: &mut List<(bool, ExprTree)>,
    sign: bool,
    member: Boxed<ExprTree>,
) -> Result<(), NoMemory>
    ensures { IfOk result (λ _. members.new ≡ members.old ++ (sign, member) ∷ []) }
{
    members.push((sign, member.into_inner()))
}

fn compared(first: Boxed<ExprTree>, cmp: Cmp, second: Boxed<ExprTree>) -> Test
    ensures { result ≡ Test.Compare first cmp second }
{
    Test::Compare(first.into_inner(), cmp, second.into_inner())
}

fn is_nil(first: Boxed<ExprTree>) -> Test
    ensures { result ≡ Test.IsNil first }
{
    Test::IsNil(first.into_inner())
}

// `-` and what is behind it, where so many levels may be open.
#[cycle(expression)]
fn negative(alloc: Global, cursor: &mut Cursor<'_>, levels: usize) -> Result<Boxed<ExprTree>, Fault>
    ensures { Reads opens (λ n. negative (unary n)) alone levels cursor.old.rest.now result cursor.new.rest.now }
{
    cursor.sign(Sign::Minus)?;
    let inner = unary(alloc, cursor, levels)?;
    Ok(Boxed::new(alloc, ExprTree::Minus(inner))?)
}

// What stands in parentheses, where so many levels may be open inside.
#[cycle(expression)]
fn enclosed(alloc: Global, cursor: &mut Cursor<'_>, levels: usize) -> Result<Boxed<ExprTree>, Fault>
    ensures { Reads opens (λ n. enclosed (expression n)) alone levels cursor.old.rest.now result cursor.new.rest.now }
{
    cursor.sign(Sign::Open)?;
    let inner = expression(alloc, cursor, levels)?;
    cursor.sign(Sign::Close)?;
    Ok(inner)
}

// `min` or `max` of two expressions, where so many levels may be open inside.
#[cycle(expression)]
fn extreme(alloc: Global, cursor: &mut Cursor<'_>, levels: usize) -> Result<Boxed<ExprTree>, Fault>
    ensures { Reads opens (λ n. extreme (expression n)) alone levels cursor.old.rest.now result cursor.new.rest.now }
{
    let greatest = extreme_word(cursor)?;
    cursor.sign(Sign::Open)?;
    let a = expression(alloc, cursor, levels)?;
    cursor.sign(Sign::Comma)?;
    let b = expression(alloc, cursor, levels)?;
    cursor.sign(Sign::Close)?;
    let tree = extreme_tree(alloc, greatest, a, b)?;
    Ok(tree)
}

// `min` or `max` where no level may be opened: the fault is at its parenthesis.
fn no_extreme(cursor: &mut Cursor<'_>, greatest: bool) -> Result<Boxed<ExprTree>, Fault>
    requires { next cursor.old.rest.now ≡ Some (extreme_token greatest) }
    ensures { Reads opens unary alone 0 cursor.old.rest.now result cursor.new.rest.now }
{
    cursor.skip();
    if cursor.sees_sign(Sign::Open) {
        return Err(Fault::TooDeep);
    }
    Err(Fault::Syntax)
}

#[cycle(expression)]
fn unary(alloc: Global, cursor: &mut Cursor<'_>, levels: usize) -> Result<Boxed<ExprTree>, Fault>
    ensures { Reads opens unary alone levels cursor.old.rest.now result cursor.new.rest.now }
{
    if cursor.sees_sign(Sign::Minus) {
        if levels == 0 {
            return Err(Fault::TooDeep);
        }
        return negative(alloc, cursor, levels - 1);
    }
    if cursor.sees_sign(Sign::Open) {
        if levels == 0 {
            return Err(Fault::TooDeep);
        }
        return enclosed(alloc, cursor, levels - 1);
    }
    if let Some(greatest) = extreme_of(cursor.kind()) {
        if levels == 0 {
            return no_extreme(cursor, greatest);
        }
        return extreme(alloc, cursor, levels - 1);
    }
    leaf(alloc, cursor)
}

#[cycle(expression)]
fn product(alloc: Global, cursor: &mut Cursor<'_>, levels: usize) -> Result<Boxed<ExprTree>, Fault>
    ensures { Reads opens product after_product levels cursor.old.rest.now result cursor.new.rest.now }
{
    let head = unary(alloc, cursor, levels)?;
    let first = head.into_inner();
    let mut others = List::new(alloc);
    'more: while let Some(times) = factor_of(cursor.kind()) {
        cursor.skip();
        let other = unary(alloc, cursor, levels)?;
        push_signed(&mut others, times, other)?;
    }
    let tree = product_tree(alloc, first, others)?;
    Ok(tree)
}

#[cycle(expression)]
fn sum(alloc: Global, cursor: &mut Cursor<'_>, levels: usize) -> Result<Boxed<ExprTree>, Fault>
    ensures { Reads opens sum after_sum levels cursor.old.rest.now result cursor.new.rest.now }
{
    let head = product(alloc, cursor, levels)?;
    let first = head.into_inner();
    let mut others = List::new(alloc);
    'more: while let Some(plus) = term_of(cursor.kind()) {
        cursor.skip();
        let other = product(alloc, cursor, levels)?;
        push_signed(&mut others, plus, other)?;
    }
    let tree = sum_tree(alloc, first, others)?;
    Ok(tree)
}

// Sums with `else` between each two.
#[cycle(expression)]
fn sums(alloc: Global, cursor: &mut Cursor<'_>, levels: usize) -> Result<Boxed<ExprTree>, Fault>
    ensures { Reads opens sums after_expression levels cursor.old.rest.now result cursor.new.rest.now }
{
    let mut members = List::new(alloc);
    let first = sum(alloc, cursor, levels)?;
    push_member(&mut members, first)?;
    'more: while cursor.sees_word(Word::Else) {
        cursor.skip();
        let next = sum(alloc, cursor, levels)?;
        push_member(&mut members, next)?;
    }
    let tree = else_tree(alloc, members)?;
    Ok(tree)
}

#[cycle(expression)]
fn test(alloc: Global, cursor: &mut Cursor<'_>, levels: usize) -> Result<Test, Fault>
    ensures { Reads opens (λ n. test_of (unary n)) after_sum levels cursor.old.rest.now result cursor.new.rest.now }
{
    let first = sum(alloc, cursor, levels)?;
    if let Some(cmp) = comparison_of(cursor.kind()) {
        cursor.skip();
        let second = sum(alloc, cursor, levels)?;
        return Ok(compared(first, cmp, second));
    }
    cursor.word(Word::Is)?;
    cursor.word(Word::None)?;
    Ok(is_nil(first))
}

// Tests with `and` between each two.
#[cycle(expression)]
fn condition(alloc: Global, cursor: &mut Cursor<'_>, levels: usize) -> Result<List<Test>, Fault>
    ensures { Reads opens (λ n. condition_of (unary n)) after_condition levels cursor.old.rest.now result cursor.new.rest.now }
{
    let mut tests = List::new(alloc);
    let first = test(alloc, cursor, levels)?;
    tests.push(first)?;
    'more: while cursor.sees_word(Word::And) {
        cursor.skip();
        let next = test(alloc, cursor, levels)?;
        tests.push(next)?;
    }
    Ok(tests)
}

// `if` with its branches, where so many levels may be open inside.
#[cycle(expression)]
fn conditional(
    alloc: Global,
    cursor: &mut Cursor<'_>,
    levels: usize,
) -> Result<Boxed<ExprTree>, Fault>
    ensures { Reads opens (λ n. conditional (unary n) (expression n)) after_expression levels cursor.old.rest.now result cursor.new.rest.now }
{
    cursor.word(Word::If)?;
    let tests = condition(alloc, cursor, levels)?;
    cursor.word(Word::Then)?;
    let first = sum(alloc, cursor, levels)?;
    cursor.word(Word::Else)?;
    let second = expression(alloc, cursor, levels)?;
    Ok(Boxed::new(alloc, ExprTree::If(tests, first, second))?)
}

/// An expression that opens at most this number of levels.
#[cycle(expression)]
pub fn expression(
    alloc: Global,
    cursor: &mut Cursor<'_>,
    levels: usize,
) -> Result<Boxed<ExprTree>, Fault>
    ensures { Reads opens expression after_expression levels cursor.old.rest.now result cursor.new.rest.now }
{
    if cursor.sees_word(Word::If) {
        if levels == 0 {
            return Err(Fault::TooDeep);
        }
        return conditional(alloc, cursor, levels - 1);
    }
    sums(alloc, cursor, levels)
}
