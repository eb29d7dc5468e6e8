//! Tree orders of the views of a small graph, against answers that were worked out by hand.
//!
//! It stands on tree orders, on matrices of views and on the loader, and nothing stands on it. Its tests load a graph of four
//! edges and order views of it: of each order its weight and length are compared, and its views with their parents. What an
//! order is is proved in `tree_order`; these cases compare the definitions themselves with a small graph, and call the
//! function with memory.
#![tactic(auto)]

#[cfg(test)]
mod tests;
