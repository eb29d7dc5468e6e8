//! What the words of an expression stand for.

ghost use Rattle.std.specs.Prelude.{◌≡◌, ◌<◌, length};
ghost use Rattle.graph_model.specs.GraphData.{cell_of, HasNodeCells, HasEdgeCells};
ghost use Rattle.vertex_lang.specs.Expressions.{node_value, edge_value};
ghost use Rattle.vertex_lang.specs.Naming.{AreThere, node_property_of, edge_property_of};
ghost use Rattle.vertex_lang.specs.Values.{value_of_cell};

use graph_model::{CellRef, EdgeNo, Graph, NodeNo, Val};

/// The words of an expression at one node or arc. What a part of a program may not name is zero or none there.
#[derive(Clone, Copy)]
pub(crate) struct Words<'a> {
    /// The id of the node.
    pub(crate) id: u64,
    /// The value with which the node started.
    pub(crate) start: Val,
    /// The value that the node has.
    pub(crate) value: Val,
    /// What became of the messages that the node got.
    pub(crate) gathered: Val,
    /// How many messages the node got.
    pub(crate) count: u64,
    /// How many arcs leave the node.
    pub(crate) outdeg: u64,
    /// Whose properties can be named.
    pub(crate) properties: Properties<'a>,
}

/// Whose properties an expression names.
#[derive(Clone, Copy)]
pub(crate) enum Properties<'a> {
    Nobody,
    Node(&'a Graph, NodeNo),
    Edge(&'a Graph, EdgeNo),
}

impl Properties<'_> {
    /// The value of the node's property in this column, none where there is none.
    pub(crate) fn of_node(&self, column: u32) -> Val
        requires { AreThere self.now }
        ensures { result ≡ node_property_of self.now column }
    {
        match self {
            Properties::Nobody => Val::Nil,
            Properties::Node(graph, node) => node_number(graph, *node, column as usize),
            Properties::Edge(_, _) => Val::Nil,
        }
    }

    /// The value of the edge's property in this column, none where there is none.
    pub(crate) fn of_edge(&self, column: u32) -> Val
        requires { AreThere self.now }
        ensures { result ≡ edge_property_of self.now column }
    {
        match self {
            Properties::Nobody => Val::Nil,
            Properties::Node(_, _) => Val::Nil,
            Properties::Edge(graph, edge) => edge_number(graph, *edge, column as usize),
        }
    }
}

/// What is known of the cells of each graph: none holds the number -(2^63).
pub(crate) fn cells_are_proper(graph: &Graph)
    ensures nodes { HasNodeCells graph.now }
    ensures edges { HasEdgeCells graph.now }
{
    let _ = graph.node_columns();
    let _ = graph.edge_columns();
}

// The number of a node in a column, none where the cell is absent.
fn node_number(graph: &Graph, node: NodeNo, column: usize) -> Val
    requires { node.0 < length graph.now.ids }
    ensures { result ≡ node_value graph.now node.0 column }
{
    if column < graph.node_columns().len() {
        number_in(graph.node_cell(node, column))
    } else {
        Val::Nil
    }
}

// The number of an edge in a column, none where the cell is absent.
fn edge_number(graph: &Graph, edge: EdgeNo, column: usize) -> Val
    requires { edge.0 < length graph.now.ends }
    ensures { result ≡ edge_value graph.now edge.0 column }
{
    if column < graph.edge_columns().len() {
        number_in(graph.edge_cell(edge, column))
    } else {
        Val::Nil
    }
}

// The number in a cell, and none of any other cell.
fn number_in(cell: CellRef<'_>) -> Val
    ensures { result ≡ value_of_cell (cell_of cell.entry) }
{
    match cell {
        CellRef::Int(number) => Val::Num(number),
        _ => Val::Nil,
    }
}
