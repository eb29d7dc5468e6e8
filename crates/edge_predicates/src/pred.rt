//! The checked form of predicates.

use surge_outside::{Boxed, List, Text};

/// How two values are compared.
#[derive(Clone, Copy, Debug, PartialEq, Eq)]
pub enum Cmp {
    /// `=`
    Eq,
    /// `!=`
    Ne,
    /// `<`
    Lt,
    /// `<=`
    Le,
    /// `>`
    Gt,
    /// `>=`
    Ge,
}

/// A side of a comparison: a value, or where at an edge it is read. Columns are numbered from 0.
#[derive(Debug, Drop)]
pub enum Place {
    /// A whole number.
    Number(i64),
    /// A text.
    Str(Text),
    /// A truth value.
    Bool(bool),
    /// The id of the edge's source.
    SrcId,
    /// The id of the edge's destination.
    DstId,
    /// The source's cell in this column of the nodes.
    Src(u32),
    /// The destination's cell in this column of the nodes.
    Dst(u32),
    /// The edge's cell in this column of the edges.
    Edge(u32),
}

/// A predicate on edges.
#[derive(Debug, Drop)]
pub enum Pred {
    /// Some member holds.
    Or(List<Pred>),
    /// Each member holds.
    And(List<Pred>),
    /// The member does not hold.
    Not(Boxed<Pred>),
    /// It holds of each edge (true) or of none.
    Constant(bool),
    /// The values compare so. With an absent cell on either side they do not, also for `!=`. Numbers compare by value, texts
    /// by their bytes, truth values by equality; values of two kinds never compare.
    Compare(Place, Cmp, Place),
    /// The cell is absent.
    Missing(Place),
}

/// The rule of a view: each of its predicates holds. A view on a view has the predicates of both.
#[derive(Debug, Drop)]
pub struct ViewRule {
    pub rules: List<Pred>,
}
