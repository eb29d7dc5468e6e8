//! What a step is given.

use change_lists::History;
use graph_model::{EdgeNo, Graph};
use vertex_lang::{Program, Rounds};

/// What is the same for all views of a segment: a program over a graph, and how many rounds its runs go through.
#[derive(Clone, Copy)]
pub struct Plan<'a> {
    pub program: &'a Program,
    pub graph: &'a Graph,
    pub rounds: Rounds,
}

/// A view behind another one.
#[derive(Clone, Copy)]
pub struct Behind<'a> {
    /// The history of the view before.
    pub history: &'a History,
    /// Which edges are in the view before, and in the new one.
    pub old: &'a [bool],
    pub new: &'a [bool],
    /// All edges that are in one of the two alone.
    pub turned: &'a [EdgeNo],
}
