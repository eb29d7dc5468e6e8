//! Rows, worked out by hand. Each file has those of a room; `small_graphs` has what two of them share.

mod changes;
mod drawn;
mod files;
mod one_multiset;
mod phases;
mod pieces;
mod results;
mod small_graphs;
mod splits;
mod tables;
mod times;
mod updates;
mod walks;
mod weights;
mod works;
