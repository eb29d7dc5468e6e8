//! Calls of a session, with a write that fails in the middle, and all statements at once.
//!
//! It stands on the loader, on the rooms from the text of a script to its plan and on `surge_session`, and nothing stands on
//! it. Its tests load a graph of four nodes, plan scripts with one run over three views, and call a session until it ends or is
//! spent. What each call answers and writes is proved in `surge_session`; these rows show that its calls find memory. What
//! statements print is shown by whole runs, in `tests/runs` and `tests/scripts`.
#![tactic(auto)]

#[cfg(test)]
mod tests;
