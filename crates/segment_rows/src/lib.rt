//! Segments over small graphs, stepped view by view, against answers that were worked out by hand.
//!
//! It stands on segments and on the matrices that they read, on the built-in programs and on the loader, and nothing stands
//! on it. Its tests load graphs of a few edges, make a segment of several views, and step them all: edges that come, that
//! go and both, a view with the edges of the one before, and one without edges. Of each step the outcome, the values that
//! differ from those of the view before, and the counted work are compared. What a step gives is proved in `view_segment`;
//! these cases compare the definitions themselves with small graphs, and call each function with memory.
#![tactic(auto)]

#[cfg(test)]
mod tests;
