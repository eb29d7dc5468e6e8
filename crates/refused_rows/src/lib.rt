//! One whole run, over files and streams in memory, that is done or wants memory.
//!
//! It stands on `surge_cli` and on the updater that the program uses, and nothing stands on it. Its one test is made to be run
//! with requests for memory refused, one after the other, as `tests/refusals` does: what wants memory answers so, and has
//! written a front of the output and a front of its line. It has a crate of its own, since a crate's tests are all run for each
//! request that is refused.
#![tactic(auto)]

#[cfg(test)]
mod tests;
