//! The turns of a run: an engine is turned until each of its views was stepped.
//!
//! It stands on the engine (`view_engine`), whose segments may be turned in any order, and on a stream of numbers that a seed
//! fixes (`draws`). It offers [`finish`], which turns the first segment that has a view left, or one that the stream draws.
//! Its model is `specs/Turns.antt`: which segments have a view left, which of them is turned, and what all views that were
//! stepped cost together. It promises that each turn was one of that segment, that each view was stepped then, and that the
//! updater was called exactly as often as the works of the views that were stepped say, whatever the order of the turns.
//! `specs/Laws.antt` says for the rooms above what the works are together then.
#![tactic(auto)]

mod turning;

pub use turning::finish;
