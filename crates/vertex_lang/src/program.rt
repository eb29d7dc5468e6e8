//! Vertex programs, as trees.

use surge_outside::{Boxed, List};

/// In which direction the edges of a view carry messages.
#[derive(Clone, Copy, Debug, PartialEq, Eq)]
pub enum Along {
    /// From the source of an edge to its destination.
    Out,
    /// From the destination of an edge to its source.
    In,
    /// Both ways, so that an edge from a node to itself carries two.
    Both,
}

/// How the messages that a node gets become one value.
#[derive(Clone, Copy, Debug, PartialEq, Eq)]
pub enum Gather {
    /// The least message, and none of no message.
    Min,
    /// The greatest message, and none of no message.
    Max,
    /// The sum of all messages, exact and then clamped, and 0 of no message.
    Sum,
    /// How many messages there are.
    Count,
}

/// How two numbers are compared.
#[derive(Clone, Copy, Debug, PartialEq, Eq)]
pub enum Cmp {
    Eq,
    Ne,
    Lt,
    Le,
    Gt,
    Ge,
}

/// An expression. Its value is none or a whole number from -(2^63 - 1) to 2^63 - 1: each operation is computed exactly,
/// and then brought into that range. An operand none gives none, but the least and the greatest of two values ignore it.
/// Columns are numbered from 0. The value is computed on the tree as it is, with no recursion deeper than the tree.
#[cycle(expression)]
#[derive(Drop)]
pub enum Expr {
    /// The first branch where all tests hold, and else the second.
    If(List<Check>, Boxed<Expr>, Boxed<Expr>),
    /// The first member that is not none, and none where there is no such member.
    Else(List<Expr>),
    /// A chain of sums (true) and differences (false), computed from the left.
    Sum(Boxed<Expr>, List<(bool, Expr)>),
    /// A chain of products (true) and quotients (false), computed from the left. A quotient is cut towards zero, and
    /// none where the divisor is 0.
    Product(Boxed<Expr>, List<(bool, Expr)>),
    /// The number with the other sign.
    Minus(Boxed<Expr>),
    Number(i64),
    /// None.
    Nil,
    /// The id of the node.
    Id,
    /// The value with which the node started.
    Start,
    /// The value that the node has.
    Value,
    /// What became of the messages that the node got.
    Gathered,
    /// How many messages the node got.
    Count,
    /// How many arcs of the view leave the node.
    Outdeg,
    /// The edge's number in this column of the edges, and none where its cell is absent.
    EdgeProp(u32),
    /// The node's number in this column of the nodes, and none where its cell is absent.
    NodeProp(u32),
    /// The lesser of two values.
    Least(Boxed<Expr>, Boxed<Expr>),
    /// The greater of two values.
    Most(Boxed<Expr>, Boxed<Expr>),
}

/// A test of an `if`.
#[cycle(expression)]
#[derive(Drop)]
pub enum Check {
    /// A comparison of two numbers, which does not hold where either side is none.
    Compare(Expr, Cmp, Expr),
    /// The value is none.
    IsNil(Expr),
}

/// A vertex program. Each arc's tail sends its head the value of `send` (none is not sent); `gather` makes one value of
/// the messages that a node got, and `update` is the node's next value. The first value is that of `start`.
#[derive(Drop)]
pub struct Program {
    pub along: Along,
    pub start: Expr,
    pub send: Expr,
    pub gather: Gather,
    pub update: Expr,
}
