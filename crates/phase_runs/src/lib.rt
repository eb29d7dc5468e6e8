//! A run in phases on the views of an order: a loop of rounds within a loop of phases.
//!
//! It stands on the plain runs of `vertex_lang`, on the matrix of edges by views (`view_matrix`) and on the answers of views as
//! they are kept (`result_tables`). It offers [`phased`], which runs a program on each view in a number of phases of a number of
//! rounds each: each phase begins with the values in which the one before it ended, as an inner loop begins again in a dataflow
//! with loops within loops (McSherry, Murray, Isaacs and Isard 2013). Its model is `phases_answer` of `vertex_lang`, over the
//! edges of each view (`specs/Answers.antt`). It promises this answer on each view of the order, and how often at most the
//! updater is called: a view that has the same edges as the one before it takes that one's answer, and no update is computed.
#![tactic(auto)]

mod changes;
mod course;
mod laws;
mod views;

pub use laws::equal_views;
pub use views::phased;
