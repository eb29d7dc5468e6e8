//! A vertex program as a dataflow over any time.
//!
//! It stands on `vertex_parts` for the functions of its parts, and on the operators. It offers [`vertex_flow`] and
//! [`start_flow`], operators from the nodes (or starts) and arcs of a view to the values of the nodes, round by round.
//! Where what such a dataflow was fed is a view, what it made up to each round is the values of the plain run
//! ([`tells_values`]), and the reduce inside, over pairs of a time and a round, was fed the inputs of each node
//! ([`inner_run`]); [`evaluations`] tells what it was charged, and [`last_round`] the last round in which it changed
//! anything. Of one that is fed starts [`tells_starts`], [`start_run`] and [`start_evaluations`] tell the same, by rounds that
//! begin with these starts.
#![tactic(auto)]

mod flow;
mod inside;
mod items;
mod laws;
mod mapped;
mod prep;
mod rounds;

pub use flow::{
    OneRound, StartFlow, VertexFlow, evaluations, start_evaluations, start_flow, vertex_flow,
};
pub use inside::{inner_run, start_run};
pub use items::{Items, Messages, Routed};
pub use laws::{tells_starts, tells_values};
pub use mapped::MappedReduce;
pub use prep::{FlowPrep, Prep, StartPrep, Told};
pub use rounds::last_round;
