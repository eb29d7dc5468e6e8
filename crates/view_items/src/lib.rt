//! The items that the nodes of a view get, as functions of collections.
//!
//! A vertex program as a dataflow is fed nodes and arcs with weights. This room has no code. It says what comes into
//! its loop from such a collection, with the degrees that messages name (`specs/Prepared`), and which items each node
//! gets from what is in the loop, its own ones and what arcs bring from the values of their tails
//! (`specs/Collections`). Any weights are allowed: what the graph doesn't have gives nothing, and neither do the arcs
//! of a tail of which there are 2^32 or more. Its laws: where each node is fed once and the arcs of a view once each,
//! what comes in is that view with the starts of its nodes ([`view_is_prepared`]), and the items of a node are its
//! input in a round of the plain run, once each ([`items_are_inputs`]). So the loop makes up to each round the values
//! of the plain run ([`loop_is_lone`]). It stands on `vertex_items` for the records and on the functions of the
//! operators in `diff_join` and `reduce_theory`; `vertex_flow` stands on it.
#![tactic(auto)]

mod laws;

pub use laws::{items_are_inputs, loop_is_lone, view_is_prepared};
