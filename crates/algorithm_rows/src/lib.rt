//! Plain runs of the built-in programs, and what vertex programs make of a few values, against what was worked out by hand.
//!
//! It stands on the loader, on graphs, on vertex programs and on what the built-in ones mean, and nothing stands on it. Its tests load
//! small graphs and run hop counts, distances and components over some of their edges: that the least weight of a walk need
//! not be that of the walk with the fewest arcs, that parallel edges and an edge from a node to itself are arcs too, that a
//! node without a walk has no value, and that as many rounds as there are nodes are enough, and one less may not be. What
//! the values mean is proved in `graph_meanings`; these cases compare the meanings themselves with small graphs. They also
//! gather a few messages, and compute each operation on a number below the range, which no script can write.
#![tactic(auto)]

#[cfg(test)]
mod tests;
