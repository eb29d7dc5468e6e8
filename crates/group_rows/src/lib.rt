//! Groups over small graphs, through lists of changes, against rows that were worked out by hand or counted anew.
//!
//! It stands on `aggregate_views` and on the loader, and nothing stands on it. Its tests load graphs of a few edges, let
//! edges come and go, and print the rows behind each list of changes. What the rows are is proved in `aggregate_views`;
//! these cases compare the definitions themselves with small graphs, and call each function with memory.
#![tactic(auto)]

#[cfg(test)]
mod tests;
