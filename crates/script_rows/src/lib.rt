//! Tokens and trees of texts, and canonical texts of scripts that no graph takes, against answers that were worked out by hand.
//!
//! It stands on the rooms of the script's text, and nothing stands on it. Its tests are of those rooms, each by what it offers
//! to the rooms above: so none of them is proved a second time with its tests. They look at what the program doesn't show; first
//! faults and canonical texts, which it does, are rows of `tests/scripts`, on which the built program is run.
#![tactic(auto)]

#[cfg(test)]
mod tests;
