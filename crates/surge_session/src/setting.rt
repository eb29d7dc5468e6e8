//! What a session executes, and what it has run.

use crate::kept::RunEngine;
use graph_model::Graph;
use gvdl_check::{CollectionPlan, Plan, RunPlan};
use result_tables::Form;
use std::alloc::Global;
use view_matrix::Matrix;

/// A plan over its graph, the form in which its tables are written, and the seed of turns where they are drawn.
#[derive(Clone, Copy)]
pub(crate) struct Setting<'g> {
    pub(crate) alloc: Global,
    pub(crate) graph: &'g Graph,
    pub(crate) plan: &'g Plan,
    pub(crate) form: Form,
    pub(crate) turns: Option<u64>,
}

/// A run over the graph on views of a collection, the matrix of the collection, and what has run the views.
#[derive(Clone, Copy)]
pub(crate) struct RanViews<'a> {
    pub(crate) graph: &'a Graph,
    pub(crate) run: &'a RunPlan,
    pub(crate) collection: &'a CollectionPlan,
    pub(crate) matrix: &'a Matrix,
    pub(crate) engine: &'a RunEngine<'a>,
}
