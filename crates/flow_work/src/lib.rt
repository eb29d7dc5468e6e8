//! The charge of a vertex program as a dataflow, as the work of a view, and what it makes.
//!
//! It stands on `inner_theory`, which tells the run of the reduce inside a loop, on `view_items`, which tells what it
//! is fed where a view came in, and on `work_theory`. It has no code. Its law ([`turn_is_work`]): where a dataflow of
//! these parts was sealed, and then stepped once, at a later time, the charge since the seal is the work of the view at
//! that time behind the view at the seal, each pair of a node and a round that the work counts being one evaluation
//! (`specs/Turns`). Where a view was fed, each node inside was fed its inputs ([`inner_is_fed_inputs`], `specs/Inner`).
//! And any operator of the function of such a dataflow makes, where it was fed a view, the values of the plain run
//! after each round ([`makes_values`], `specs/Values`). The same holds of one whose nodes start with values that it is fed, of
//! rounds that begin with these ([`makes_starts`], [`loop_is_from_starts`], [`inner_is_fed_from_starts`], `specs/Starts`).
#![tactic(auto)]

mod laws;
mod starts;
mod values;

pub use laws::{inner_is_fed_inputs, turn_is_work};
pub use starts::{
    inner_is_fed_from_starts, loop_is_from_starts, makes_starts, rounds_are_from_starts,
};
pub use values::makes_values;
