//! A run of a program on views whose edges come and go.
//!
//! It stands on the kernel that steps one view behind another (`round_kernel`), on the matrix of edges by views (`view_matrix`) and
//! on what a run of views asks for (`view_segment`'s `specs/Tasks`). It offers a [`VersionEngine`], which runs the views of an order
//! one behind the other, and then brings each of them to a matrix in which edges came or went, by a step from its own run before:
//! of each view the run is kept round by round. Its model is `specs/Engines.antt`: for which matrices an engine stands. It promises
//! that the table of a view is then that of the plain run on it alone, and that an edit calls the updater exactly as often as the
//! works of the views between their two versions say, which is at most the touched nodes times the views times the rounds
//! (`specs/Touched.antt`): a view in which no edge came or went costs nothing. (Differences at pairs of a version and a round:
//! McSherry, Murray, Isaacs and Isard 2013.) [`count_touched`] counts the touched nodes by the definition, for tests.
#![tactic(auto)]

mod engine;
mod flags;
mod inputs;
mod laws;
mod run;
mod running;
mod slow;
mod step;
mod values;

pub use engine::VersionEngine;
pub use laws::{edits_are_taken_back, stands_with_more, works_are_touched};
pub use slow::{Versions, count_touched};
