//! The value of an expression.

ghost use Rattle.std.specs.Prelude.{◌≡◌, fold, map};
ghost use Rattle.std.specs.List.{list_all};
ghost use Rattle.vertex_lang.specs.Expressions.{value_of, holds_of};
ghost use Rattle.vertex_lang.specs.Naming.{environment, AreProper};
ghost use Rattle.vertex_lang.specs.Values.{added, scaled, first_given};

use crate::arithmetic::{add, clamp, compare, greater_of, is_none, lesser_of, negate, scale};
use crate::program::{Check, Expr};
use crate::words::Words;
use graph_model::Val;

/// The value of an expression where its words stand for these. It takes no memory.
#[cycle(evaluation)]
pub(crate) fn evaluate(expr: &Expr, words: &Words<'_>) -> Val
    requires { AreProper words.now }
    ensures { result ≡ value_of expr.now (environment words.now) }
{
    match expr {
        Expr::If(checks, yes, no) => {
            if all_hold(checks.as_slice(), words) {
                evaluate(yes.get(), words)
            } else {
                evaluate(no.get(), words)
            }
        }
        Expr::Else(members) => first_value(members.as_slice(), words),
        Expr::Sum(first, rest) => {
            let first = operand(first.get(), words);
            add_all(first, rest.as_slice(), words)
        }
        Expr::Product(first, rest) => {
            let first = operand(first.get(), words);
            scale_all(first, rest.as_slice(), words)
        }
        Expr::Minus(positive) => {
            let positive = evaluate(positive.get(), words);
            negate(positive)
        }
        Expr::Number(number) => Val::Num(*number),
        Expr::Nil => Val::Nil,
        Expr::Id => Val::Num(words.id as i64),
        Expr::Start => words.start,
        Expr::Value => words.value,
        Expr::Gathered => words.gathered,
        Expr::Count => Val::Num(words.count as i64),
        Expr::Outdeg => Val::Num(words.outdeg as i64),
        Expr::EdgeProp(column) => words.properties.of_edge(*column),
        Expr::NodeProp(column) => words.properties.of_node(*column),
        Expr::Least(left, right) => {
            let left = operand(left.get(), words);
            let right = operand(right.get(), words);
            clamp(lesser_of(left, right))
        }
        Expr::Most(left, right) => {
            let left = operand(left.get(), words);
            let right = operand(right.get(), words);
            clamp(greater_of(left, right))
        }
    }
}

// The value of an operand. The words that stand alone most often cost no call back.
#[cycle(evaluation)]
fn operand(expr: &Expr, words: &Words<'_>) -> Val
    requires { AreProper words.now }
    ensures { result ≡ value_of expr.now (environment words.now) }
{
    match expr {
        Expr::Number(number) => Val::Num(*number),
        Expr::Start => words.start,
        Expr::Value => words.value,
        Expr::Gathered => words.gathered,
        Expr::Outdeg => Val::Num(words.outdeg as i64),
        _ => evaluate(expr, words),
    }
}

// Whether a test holds.
#[cycle(evaluation)]
fn check_holds(check: &Check, words: &Words<'_>) -> bool
    requires { AreProper words.now }
    ensures { result ≡ holds_of check.now (environment words.now) }
{
    match check {
        Check::Compare(left, sign, right) => {
            let left = evaluate(left, words);
            let right = evaluate(right, words);
            compare(*sign, left, right)
        }
        Check::IsNil(tested) => {
            let tested = evaluate(tested, words);
            is_none(tested)
        }
    }
}

// Whether all tests hold.
#[cycle(evaluation)]
fn all_hold(checks: &[Check], words: &Words<'_>) -> bool
    requires { AreProper words.now }
    ensures { result ≡ list_all (λ check. holds_of check (environment words.now)) checks.now }
{
    for check in checks {
        if !check_holds(check, words) {
            return false;
        }
    }
    true
}

// The first value that is not none. What stands behind it is not computed.
#[cycle(evaluation)]
fn first_value(members: &[Expr], words: &Words<'_>) -> Val
    requires { AreProper words.now }
    ensures { result ≡ first_given (map (λ member. value_of member (environment words.now)) members.now) }
{
    let mut first = Val::Nil;
    for member in members {
        if is_none(first) {
            first = evaluate(member, words);
        }
    }
    first
}

// A chain of sums and differences, from the left.
#[cycle(evaluation)]
fn add_all(first: Val, rest: &[(bool, Expr)], words: &Words<'_>) -> Val
    requires { AreProper words.now }
    ensures { result ≡ fold (λ sum member. added member.0 sum (value_of member.1 (environment words.now))) first rest.now }
{
    let mut sum = first;
    for (plus, expr) in rest {
        let value = operand(expr, words);
        sum = add(*plus, sum, value);
    }
    sum
}

// A chain of products and quotients, from the left.
#[cycle(evaluation)]
fn scale_all(first: Val, rest: &[(bool, Expr)], words: &Words<'_>) -> Val
    requires { AreProper words.now }
    ensures { result ≡ fold (λ product member. scaled member.0 product (value_of member.1 (environment words.now))) first rest.now }
{
    let mut product = first;
    for (times, expr) in rest {
        let value = operand(expr, words);
        product = scale(*times, product, value);
    }
    product
}
