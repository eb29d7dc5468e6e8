//! The matrix of edges by views: which edges stand in which view of a collection.
//!
//! It stands on `graph_model` and `edge_predicates`: a view keeps the live edges for which its predicates hold, as the
//! Boolean matrix of a view collection does in Graphsurge (Sahu and Salihoglu 2021). Each rule is told once for each
//! edge, when its view is added: a conjunction of comparisons of columns of the edges with numbers, as a window is,
//! from the numbers in these columns alone, which are read once for all views that come together (`bounds.rt`,
//! `conjunction.rt`, `numbers.rt`, `scan.rt`), and any other rule by its predicates. The matrix lies column by column:
//! for each view one bit an edge, in words of 64, and one more column of live edges, so that comparing two views is one
//! pass of `xor` and `count_ones` over their words. Contracts see a [`Matrix`] as lists of truth values (`MatrixData`
//! of `specs/Matrices.antt`). It promises that a bit is the rule's truth at a live edge, that sizes, distances,
//! edges and differences are those of the lists of edges of the views, and that a refused addition changes nothing.
//! Its readers and edits take no memory.
#![tactic(auto)]

mod bounds;
mod column;
mod conjunction;
mod counted;
mod flagged;
mod laws;
mod listed;
mod matrix;
mod numbers;
mod rules;
mod scan;
mod set_bits;
mod word;

pub use laws::{distance_over_lists, edges_of_views};
pub use matrix::Matrix;
