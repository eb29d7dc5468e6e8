//! Which words an expression names, and so what its value doesn't depend on.

ghost use Rattle.std.specs.Prelude.{◌≡◌, ◌||◌, not, IsTrue, IsFalse};
ghost use Rattle.std.specs.List.{list_any};
ghost use Rattle.vertex_lang.specs.Ignoring.{IgnoresEdge, IgnoresOutdeg};
ghost use Rattle.vertex_lang.specs.Named.{names_edge, names_outdeg, names, check_names, seeks_outdeg};

use crate::program::{Check, Expr};

/// A word that is looked for.
#[derive(Clone, Copy)]
pub(crate) enum Word {
    /// A property of an edge.
    EdgeProperty,
    /// How many arcs leave the node.
    Outdeg,
}

/// Whether an expression names no property of an edge. Then its value is the same on all edges: as a message, along all
/// arcs that leave a node.
pub fn ignores_edge(expr: &Expr) -> bool
    ensures answer { result ≡ not (names_edge expr.now) }
    ensures ignores { IsTrue result → IgnoresEdge expr.now }
{
    !holds_word(Word::EdgeProperty, expr)
}

/// Whether an expression names `outdeg`. If not, its value doesn't depend on how many arcs leave the node.
pub fn names_outdeg(expr: &Expr) -> bool
    ensures answer { result ≡ names_outdeg expr.now }
    ensures ignores { IsFalse result → IgnoresOutdeg expr.now }
{
    holds_word(Word::Outdeg, expr)
}

// Whether an expression names the word.
#[cycle(reading)]
fn holds_word(word: Word, expr: &Expr) -> bool
    ensures { result ≡ names word expr.now }
{
    match expr {
        Expr::If(checks, yes, no) => {
            let tested = a_check_holds(word, checks.as_slice());
            let first = holds_word(word, yes.get());
            let second = holds_word(word, no.get());
            let chosen = either(first, second);
            either(tested, chosen)
        }
        Expr::Else(members) => a_member_holds(word, members.as_slice()),
        Expr::Sum(first, rest) => {
            let begins = holds_word(word, first.get());
            let follows = a_part_holds(word, rest.as_slice());
            either(begins, follows)
        }
        Expr::Product(first, rest) => {
            let begins = holds_word(word, first.get());
            let follows = a_part_holds(word, rest.as_slice());
            either(begins, follows)
        }
        Expr::Minus(positive) => holds_word(word, positive.get()),
        Expr::Number(_) => false,
        Expr::Nil => false,
        Expr::Id => false,
        Expr::Start => false,
        Expr::Value => false,
        Expr::Gathered => false,
        Expr::Count => false,
        Expr::Outdeg => is_outdeg(word),
        Expr::EdgeProp(_) => !is_outdeg(word),
        Expr::NodeProp(_) => false,
        Expr::Least(left, right) => {
            let left = holds_word(word, left.get());
            let right = holds_word(word, right.get());
            either(left, right)
        }
        Expr::Most(left, right) => {
            let left = holds_word(word, left.get());
            let right = holds_word(word, right.get());
            either(left, right)
        }
    }
}

// Whether one of two holds.
fn either(first: bool, second: bool) -> bool
    ensures { result ≡ (first || second) }
{
    first || second
}

// Whether the word that is looked for is `outdeg`.
fn is_outdeg(word: Word) -> bool
    ensures { result ≡ seeks_outdeg word }
{
    match word {
        Word::EdgeProperty => false,
        Word::Outdeg => true,
    }
}

// Whether a test names the word.
#[cycle(reading)]
fn check_holds(word: Word, check: &Check) -> bool
    ensures { result ≡ check_names word check.now }
{
    match check {
        Check::Compare(left, _, right) => {
            let left = holds_word(word, left);
            let right = holds_word(word, right);
            either(left, right)
        }
        Check::IsNil(tested) => holds_word(word, tested),
    }
}

// Whether one of the tests does.
#[cycle(reading)]
fn a_check_holds(word: Word, checks: &[Check]) -> bool
    ensures { result ≡ list_any (λ check. check_names word check) checks.now }
{
    for check in checks {
        if check_holds(word, check) {
            return true;
        }
    }
    false
}

// Whether one of the expressions does.
#[cycle(reading)]
fn a_member_holds(word: Word, members: &[Expr]) -> bool
    ensures { result ≡ list_any (λ member. names word member) members.now }
{
    for member in members {
        if holds_word(word, member) {
            return true;
        }
    }
    false
}

// Whether one of the parts of a chain does.
#[cycle(reading)]
fn a_part_holds(word: Word, rest: &[(bool, Expr)]) -> bool
    ensures { result ≡ list_any (λ part. names word part.1) rest.now }
{
    for (_, part) in rest {
        if holds_word(word, part) {
            return true;
        }
    }
    false
}
