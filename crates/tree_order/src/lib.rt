//! An order of the views of a collection that is at most twice as long as the best one, with its certificate.
//!
//! It stands on `view_matrix`, which tells in how many edges two views differ, and on the definitions of `view_order`. The
//! number of such edges is a metric, so the least tree over the views and the empty column weighs at most as much as any order
//! is long, and the walk through it is at most twice as long as it weighs: the tree is that of Prim (1957), and the two bounds
//! are those of Rosenkrantz, Stearns and Lewis (1977) for tours, here for paths from the empty column on. Its model is
//! `specs/Trees.antt`: the tree, its walk and the length of an order over any distance of numbers. It promises exactly that
//! tree and that walk by the distances of the matrix, that each view stands in the order once, and both bounds for every order
//! of the views.
#![tactic(auto)]

mod grow;
mod link;
mod order;
mod walk;

pub use order::{TreeOrder, tree_order};
