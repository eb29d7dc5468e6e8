//! Expressions of vertex programs, as they are written.

use crate::predicate::Cmp;
use surge_outside::{Boxed, List, Text};

/// A word that stands for a value.
#[derive(Clone, Copy, Debug, PartialEq, Eq)]
pub enum Word {
    /// The node's id.
    Id,
    /// The node's value at the start.
    Start,
    /// The node's value.
    Value,
    /// What was gathered from the messages.
    Gathered,
    /// How many messages came.
    Count,
    /// How many arcs leave the node.
    Outdeg,
}

/// An expression.
#[cycle(expression)]
#[derive(Debug, Drop)]
pub enum ExprTree {
    /// `if`, one test or more with `and` between each two, `then` a sum, `else` an expression.
    If(List<Test>, Boxed<ExprTree>, Boxed<ExprTree>),
    /// Two members or more with `else` between each two.
    Else(List<ExprTree>),
    /// A first member, and one or more that are added (true) or subtracted (false).
    Sum(Boxed<ExprTree>, List<(bool, ExprTree)>),
    /// A first member, and one or more by which is multiplied (true) or divided (false).
    Product(Boxed<ExprTree>, List<(bool, ExprTree)>),
    /// `-` and an expression.
    Minus(Boxed<ExprTree>),
    /// A whole number from 0 to 2^63 - 1.
    Number(u64),
    /// `none`
    Nil,
    /// A word that stands for a value.
    Word(Word),
    /// The property of the edge that has this name: `edge.NAME`.
    EdgeProp(Text),
    /// The property of the node that has this name: `node.NAME`.
    NodeProp(Text),
    /// The parameter of this name.
    Param(Text),
    /// The lesser of two values: `min(A, B)`.
    Least(Boxed<ExprTree>, Boxed<ExprTree>),
    /// The greater of two values: `max(A, B)`.
    Most(Boxed<ExprTree>, Boxed<ExprTree>),
}

/// A test of an `if`.
#[cycle(expression)]
#[derive(Debug, Drop)]
pub enum Test {
    /// A comparison of two sums.
    Compare(ExprTree, Cmp, ExprTree),
    /// A sum `is none`.
    IsNil(ExprTree),
}
