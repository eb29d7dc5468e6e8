//! Runs in phases and dataflows in phases over small graphs, against answers that were worked out by hand.
//!
//! It stands on `phase_runs` and `phase_flow`, on matrices of views and on the loader, and nothing stands on it. Its tests load
//! graphs of a few edges, run programs in phases on views of them, and print the answer on each view and how many updates were
//! computed; they step dataflows through the same views, at positions and at pairs of a version and a position, and print what
//! is made, or hold it against runs in phases where programs and edges are drawn. What the answers are is proved in the rooms
//! below; these cases compare the definitions themselves with small graphs, and call each function with memory.
#![tactic(auto)]

#[cfg(test)]
mod tests;
