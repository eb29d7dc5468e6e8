//! Weighted records at times.
//!
//! A trace keeps what a dataflow was fed: for each key, value and time a weight modulo 2^64. What counts at a time is
//! the sum of the weights at all times at or below it (McSherry, Murray, Isaacs and Isard, "Differential dataflow",
//! 2013). This room stands on times, batches and lists in chunks, and joins and reductions stand on it. It offers one
//! type, [`Trace`], and a [`Cursor`] with which keys are read in rising order. Its entries lie in sorted layers, each at least twice as long as the next newer one, so an insert
//! costs about its own entries, and a seal merges all layers into one. Contracts see a trace as the normal form of all
//! entries, a list of ((key, value), time) with weights other than zero, and two numbers: how many entries are kept and in
//! how many layers (`specs/Stored`). It promises that what is accumulated is that sum, that sealing changes no sum at or
//! above the sealed time, that layers are few, and that a call that finds no memory leaves the trace as it was.
//! `specs/Traces` has the words of these contracts, `specs/TraceLaws` their laws.
#![tactic(auto)]

mod cursor;
mod layer;
mod layers;
mod lookup;
mod sealing;
mod stamped;
mod trace;

// A crate can name a trace in a contract only if the types of its fields are exported.
pub use cursor::Cursor;
#[doc(hidden)]
pub use layer::Layer;
pub use trace::Trace;
