//! The greedy order of the views of a collection.
//!
//! It stands on `view_matrix`, which tells in how many edges two views differ. What is shared between views is shared because
//! neighbours differ in few edges, so they are ordered by a greedy tour, as collections are in Graphsurge (Sahu and Salihoglu
//! 2021): from the empty column, or from the last view that was run, each time to the nearest view that is left, and of
//! several to the one declared first. Its model is `specs/Greedy.antt`: that tour over any distance of numbers. It promises
//! exactly that order of the views that are handed in, by the distances of the matrix, with each of them once; and it offers
//! the views of a matrix in declared order.
#![tactic(auto)]

mod nearest;
mod order;

pub use order::{greedy, views_from};
