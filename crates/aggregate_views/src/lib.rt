//! Edges by the groups of their ends, kept right by differences.
//!
//! An aggregate view has for each pair of groups of nodes the number of edges between them, and the sum of a number of
//! these. This room stands on the graph, and on the reduce of the dataflow: it counts anew only the pairs that a change
//! touches. Above it stands what prints such views. It offers [`Groups`], the present edges of a graph, which come and
//! go by lists of changes, and [`GroupRow`]. Contracts see the graph, the columns, and of each edge whether it is present
//! (`specs/Inside`). Its promise: after any list of changes, the rows are those that `specs/Rows` defines of the present
//! edges. How the groups are numbered and what an edge adds to its pair (`specs/Coding`) is seen by no contract of its
//! public functions.
#![tactic(auto)]

mod cell;
mod codes;
mod encoding;
mod group_key;
mod groups;
mod held;
mod kept;
mod laws;
mod part;
mod table;
mod totals;

pub use cell::{Cell, GroupRow};
pub use groups::Groups;
