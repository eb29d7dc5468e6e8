//! Loops over differences.
//!
//! A loop applies its body again and again to a collection, so many times, with a fixed part beside it, as in
//! differential dataflow (McSherry, Murray, Isaacs and Isard, 2013). This room stands on the operators of `flow_core`
//! and the laws of `loop_theory`. It offers [`Iterate`], an operator over any partially ordered time, whose body is an
//! operator over pairs of that time and a round: so a loop inside a loop is a loop like any other. A step feeds the
//! body round by round what the round before made, and skips rounds in which nothing is fed and nothing is due. It
//! promises the contract of an operator: at each outer time at or above the seal with nothing due at or below it, what
//! the loop made at round 0 sums to the moving part, and at each later round to the change that one more application of
//! the body makes.
#![tactic(auto)]

mod busy;
mod iterate;
mod lap;
mod parts;

pub use iterate::Iterate;
pub use loop_theory::LoopInput;
