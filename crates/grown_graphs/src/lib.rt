//! A graph with more edges behind its own: what was read off the old edges stays as it was.
//!
//! It stands on `graph_model`, whose graphs grow by edges at the end alone, on `graph_loader`, whose further files of edges make
//! them grow, and on `edge_predicates`, `vertex_lang`, `lone_work`, `aggregate_views` and `result_tables`, whose definitions read
//! them. The room that executes statements stands on it: what it printed over the graph of its first files is what it prints over
//! the graph that further files have made longer.
//!
//! It promises that at the edges that were there each predicate has the same truth, and that their arcs are the same; that a
//! program on these arcs has the same values after each round, the same answer, also in phases, and the same work; that these
//! edges have the same rows of an aggregate; and that a table is the same text. Its functions have no code: the contract of each
//! is one law (`specs/Laws`), over graphs of which one grows to the other (`GrowsTo` of `specs/Growing`).
#![tactic(auto)]

pub mod laws;
