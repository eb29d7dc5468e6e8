//! Programs that can be called.

use gvdl_tree::Word;
use surge_outside::{Boxed, List};
use vertex_lang::{Along, Cmp, Gather};

/// An expression of a written program: its properties are columns, and a parameter stands for the number that a call gives
/// at its place.
#[cycle(template)]
#[derive(Drop)]
pub enum ExprTemplate {
    If(List<CheckTemplate>, Boxed<ExprTemplate>, Boxed<ExprTemplate>),
    Else(List<ExprTemplate>),
    Sum(Boxed<ExprTemplate>, List<(bool, ExprTemplate)>),
    Product(Boxed<ExprTemplate>, List<(bool, ExprTemplate)>),
    Minus(Boxed<ExprTemplate>),
    /// A number from -(2^63 - 1) to 2^63 - 1.
    Number(i64),
    Nil,
    Word(Word),
    /// The edge's number in this column of the edges.
    EdgeProp(u32),
    /// The node's number in this column of the nodes.
    NodeProp(u32),
    /// The parameter at this place, from 0.
    Param(usize),
    Least(Boxed<ExprTemplate>, Boxed<ExprTemplate>),
    Most(Boxed<ExprTemplate>, Boxed<ExprTemplate>),
}

/// A test of an `if`.
#[cycle(template)]
#[derive(Drop)]
pub enum CheckTemplate {
    Compare(ExprTemplate, Cmp, ExprTemplate),
    IsNil(ExprTemplate),
}

/// A written program, judged against a graph.
#[derive(Drop)]
pub struct ProgramTemplate {
    /// How many numbers a call gives.
    pub parameters: usize,
    pub along: Along,
    pub start: ExprTemplate,
    pub send: ExprTemplate,
    pub gather: Gather,
    pub update: ExprTemplate,
}

/// A program that a call can name.
#[derive(Drop)]
pub enum Callable {
    /// `hops(SOURCE)`
    Hops,
    /// `dist(SOURCE, PROPERTY)`
    Dist,
    /// `wcc`
    Wcc,
    /// `pagerank`
    Pagerank,
    /// A program that the script wrote.
    Written(ProgramTemplate),
}
