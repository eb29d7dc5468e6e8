//! Operators at random times, in any order that they allow, against their functions computed anew from all that was fed.
//!
//! It stands on the operators and on the drivers of `flow_rows`, and nothing stands on it. Its tests run joins, reduces,
//! linear operators, loops of these, and loops in loops from seeds, at versions, at pairs and at pairs in pairs. What was
//! made is compared with the same operator's function, written as a plain program: pair by pair, key by key, record by
//! record, round by round.
#![tactic(auto)]

#[cfg(test)]
mod tests;
