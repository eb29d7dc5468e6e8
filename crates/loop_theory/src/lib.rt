//! What a loop owes: a body that is applied again and again.
//!
//! A loop over differences feeds its body at pairs of an outer time and a round: at round 0 what came in, and at each later
//! round what the body made at the round before, as in differential dataflow (McSherry, Murray, Isaacs and Isard, 2013).
//! This room stands on the operators of `flow_core`, and has no code but the record that a loop is fed, [`LoopInput`], and
//! [`loop_laws`], which does nothing and names the laws. `specs/Loops` says what a loop means, which steps its body takes in
//! one step of the loop (a lap), and for which runs a loop stands. It promises, of any body that keeps the contract of an
//! operator: at each outer time and round at or above its seal with nothing due at or below them, what it was fed sums to
//! the fixed part and to what that many applications give. `diff_iterate` stands on it.
#![tactic(auto)]

mod input;
mod laws;

pub use input::LoopInput;
pub use laws::loop_laws;
