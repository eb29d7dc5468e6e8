//! The work of a view, as what a reduce inside a loop is charged.
//!
//! A vertex program as a dataflow is a loop whose body ends in a reduce that is keyed by node (`vertex_flow`). At
//! partially ordered times a reduce evaluates a key at least upper bounds of its marks (`reduce_theory`); the work of a
//! view counts pairs of a node and a round by its plain run and that of the view before it (`lone_work`). This room has
//! no code: it says that both are the same. Its laws speak of one lap of the loop, at one outer time, over what came
//! before a seal (`specs/Laps`): where what was fed accumulates in each round to the items of a node's input, the keys
//! that are evaluated in a round are the nodes that are counted in it ([`evaluated_is_counted`],
//! [`only_nodes_are_evaluated`]), and what the lap is charged is the work ([`lap_is_work`]). `specs/Once` says how a
//! list is a collection.
#![tactic(auto)]

mod laws;

pub use laws::{evaluated_is_counted, lap_is_work, only_nodes_are_evaluated};
