//! A segment: views that are run one after the other, with the work shared.
//!
//! It stands on the kernel that steps one view behind another (`round_kernel`), on the matrix that tells which edges stand
//! in which view (`view_matrix`), and on the definition of counted work (`lone_work`). It offers a [`Segment`], to which
//! views are added and which steps the next of them. Its model is `specs/Segments.antt`: what a segment holds, by the
//! program, the rounds and the edges of each view (`specs/Tasks.antt`). It promises that each step gives the outcome of the
//! plain run on that view, how its last values differ from those of the view before, and that the calls of the updater are
//! exactly the counted work, which it keeps; a refused step leaves the segment as it was, and a step can be taken back.
#![tactic(auto)]

mod flags;
mod segment;
mod step;

pub use segment::{Given, Kept, Segment};
