//! The numbers by which nodes, edges and views are named.

ghost use Rattle.graph_model.specs.Same.{node_same, edge_same, view_same};

use surge_outside::Record;

/// A node, by its place in the nodes file, from 0.
#[derive(Clone, Copy, Debug, PartialEq, Eq, PartialOrd, Ord)]
pub struct NodeNo(pub u32);

/// An edge, by its place in the edges file, from 0.
#[derive(Clone, Copy, Debug, PartialEq, Eq, PartialOrd, Ord)]
pub struct EdgeNo(pub u32);

/// A view of a collection, by its place in declared order, from 0.
#[derive(Clone, Copy, Debug, PartialEq, Eq, PartialOrd, Ord)]
pub struct ViewNo(pub u32);

impl Record for NodeNo {
    ghost same = { node_same };
}

impl Record for EdgeNo {
    ghost same = { edge_same };
}

impl Record for ViewNo {
    ghost same = { view_same };
}
