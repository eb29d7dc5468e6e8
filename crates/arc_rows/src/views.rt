//! A view and the one before it.

use crate::rows::Rows;
use graph_model::{EdgeNo, Graph};
use vertex_lang::Arc;

/// A view and the one before it, over the same arcs.
#[derive(Clone, Copy)]
pub struct TwoViews<'a> {
    pub graph: &'a Graph,
    pub rows: &'a Rows,
    /// Which edges are in the view before, and in the new one.
    pub old: &'a [bool],
    pub new: &'a [bool],
    /// Edges among which are all that are in one of the two views alone, and the arcs that they give.
    pub edges: &'a [EdgeNo],
    pub arcs: &'a [Arc],
}
