//! Predicates on edges, as they are written.

use surge_outside::{Boxed, List, Text};

/// How two values are compared.
#[derive(Clone, Copy, Debug, PartialEq, Eq)]
pub enum Cmp {
    /// `=`
    Eq,
    /// `!=`
    Ne,
    /// `<`
    Lt,
    /// `<=`
    Le,
    /// `>`
    Gt,
    /// `>=`
    Ge,
}

/// What is read of an end of an edge.
#[derive(Debug, Drop)]
pub enum Field {
    /// The node's id: `id`.
    Id,
    /// The node's property of this name.
    Prop(Text),
}

/// A side of a comparison.
#[derive(Debug, Drop)]
pub enum Operand {
    /// A whole number from -(2^63 - 1) to 2^63 - 1.
    Number(i64),
    /// A text: `'..'`.
    Str(Text),
    /// `true` or `false`.
    Bool(bool),
    /// Of the edge's source: `src.FIELD`.
    Src(Field),
    /// Of the edge's target: `dst.FIELD`.
    Dst(Field),
    /// The edge's property of this name.
    Edge(Text),
}

/// A predicate on edges.
#[derive(Debug, Drop)]
pub enum PredTree {
    /// Two members or more with `or` between each two.
    Or(List<PredTree>),
    /// Two members or more with `and` between each two.
    And(List<PredTree>),
    /// `not` and a member.
    Not(Boxed<PredTree>),
    /// `true` or `false`.
    Constant(bool),
    /// A comparison.
    Compare(Operand, Cmp, Operand),
    /// An operand `is absent`.
    Missing(Operand),
}
