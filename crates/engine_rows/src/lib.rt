//! Runs of an engine, against works and values that were worked out by hand.
//!
//! It stands on the loader, on matrices of views and on the engine, and nothing stands on it. Its tests load small graphs and
//! run hop counts on their views: with one segment, with a segment for each view in an order of turns that isn't that of the
//! views, with segments that are decided by works, and with views that are added later. What an engine answers is proved
//! there; these cases show that its calls find memory, that turns are taken as they are told, and what the works of small
//! views are. The graphs are those of the rows of the other rooms of tests.
#![tactic(auto)]

#[cfg(test)]
mod tests;
