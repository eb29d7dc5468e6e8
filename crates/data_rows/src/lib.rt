//! Data files, the graphs in them, predicates on their edges and views of them, against answers that were worked out by hand.
//!
//! It stands on the loader, on graphs, predicates, matrices of views and their orders, and nothing stands on it. Its tests
//! cross crates, and each looks at what no output of the program shows: the numbers of nodes, edges and columns, edges that are
//! added to a graph, predicates that no script says, what a matrix answers, also at the end of a word of 64 edges and behind an
//! edit, and in which order views come. What the program shows of data files, right and faulty ones, and of predicates
//! stands in the tables of tests/files, on which it is run.
#![tactic(auto)]

#[cfg(test)]
mod tests;
