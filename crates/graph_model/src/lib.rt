//! The property graph: nodes and edges with their columns of properties.
//!
//! It stands on `surge_outside` alone. It offers the numbers of nodes, edges and views, the values that a vertex program
//! computes ([`Val`]), columns and cells, and [`Graph`], which contracts see as plain lists (`GraphData` of
//! `specs/GraphData.antt`: the ids of the nodes, the ends of the edges, the columns and their cells, each in the order
//! of the files). The loader of data files makes graphs; the rooms above filter their edges and run programs on them.
//!
//! It promises that a graph is that of the lists it was made of, that [`Graph::add_edges`] alone changes it, by edges at
//! the end, and that a refusal leaves it as it was. Its readers take no memory.
#![tactic(auto)]

mod by_id;
mod cell;
mod find;
mod graph;
mod join;
mod number;
mod value;

pub use cell::{CellRef, Cells, Column, Kind};
pub use graph::Graph;
pub use number::{EdgeNo, NodeNo, ViewNo};
pub use value::Val;
