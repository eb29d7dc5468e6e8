//! Rows, worked out by hand. Each file has those of a theme, but `small_graphs` and `views`, which have what these share.

mod inserts;
mod matrices;
mod places;
mod predicates;
mod small_graphs;
mod two_ways;
mod views;
