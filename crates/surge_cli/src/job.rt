//! What is to be done.

use crate::words::Task;
use change_text::ChangeText;
use graph_model::Graph;
use gvdl_check::Plan;
use gvdl_tree::Script;

/// A script that has a plan over its graph, and what is done of it.
#[derive(Drop)]
pub(crate) struct Job {
    pub(crate) task: Task,
    pub(crate) script: Script,
    pub(crate) graph: Graph,
    pub(crate) plan: Plan,
}

/// What is to be done.
#[derive(Drop)]
pub(crate) enum Due {
    /// A script is run or checked.
    Run(Job),
    /// The tables of a change text are written.
    Replay(ChangeText),
}
