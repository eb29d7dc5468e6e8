//! What is kept of a view that was run.

use change_lists::History;
use graph_model::ViewNo;
use vertex_lang::Outcome;

/// The plain run of a view: what changes from round to round, and how it ended.
#[derive(Debug, Drop)]
pub struct ViewRun {
    pub(crate) view: ViewNo,
    pub(crate) history: History,
    pub(crate) outcome: Outcome,
}
