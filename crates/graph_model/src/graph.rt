//! The property graph.

ghost use Rattle.std.specs.Prelude.{◌≡◌, ◌<◌, ◌≤◌, ◌+◌, ◌^◌, length, position, nat_eq, nat_lt, count_by, option_map, slice_get, All, MatchOption, IfOk, OnOk, OnErr};
ghost use Rattle.graph_model.specs.GraphData.{graph_data, ends_of, id_of, node, cell_of, node_cell_of, edge_cell_of, kind_at, names_of, nodes_by_id, with_edges, AddsEdges, AreDistinct, EndsAmong, FitColumns, HasEdgeCells, HasId, HasNodeCells, IsCellOf, IsGraphData, KeepsEdges, NoneHasId};

use crate::by_id::order_by_id;
use crate::cell::{CellRef, Cells, Column, cell_at};
use crate::find::node_with_id;
use crate::join::append_edges;
use crate::number::{EdgeNo, NodeNo};
use std::alloc::Global;
use std::marker::Model;
use surge_outside::{List, NoMemory};

/// A property graph: its edges have a direction, and nodes and edges have properties, which stand in columns. Nodes and
/// edges are numbered from 0 in the order of the files. Edges can be added at the end; nothing else changes.
#[derive(Debug, Drop)]
pub struct Graph {
    ids: List<u64>,
    node_columns: List<Column>,
    node_cells: List<Cells>,
    ends: List<(NodeNo, NodeNo)>,
    edge_columns: List<Column>,
    edge_cells: Vec<Cells>,
    by_id: List<NodeNo>,
}

impl Model for Graph {
    ghost use Rattle.graph_model.specs.GraphData.{GraphData};

    ghost Value = { GraphData };

    ghost use Rattle.graph_model.specs.GraphInside.{data_of, IsGraph};

    ghost view = { data_of };

    ghost invariant = { IsGraph };
}

impl Graph {
    /// The graph of these nodes, by their ids, and these edges, by their ends, with one list of cells for each column of
    /// the nodes and of the edges. It takes the time of a sort of the nodes. The one error is want of memory.
    ///
    /// The ids are distinct and below 2^63; there are at most 1,000,000 nodes, 4,000,000 edges, and 16 columns of nodes
    /// and of edges, whose names are distinct. Each list of cells is of its column's kind, with one cell for each node
    /// or edge, and no number in it is -(2^63).
    pub fn new(
        alloc: Global,
        ids: List<u64>,
        node_columns: List<Column>,
        node_cells: List<Cells>,
        ends: List<(NodeNo, NodeNo)>,
        edge_columns: List<Column>,
        edge_cells: List<Cells>,
    ) -> Result<Graph, NoMemory>
        requires { IsGraphData (graph_data ids node_columns node_cells ends edge_columns edge_cells) }
        ensures { IfOk result (λ g. g ≡ graph_data ids node_columns node_cells ends edge_columns edge_cells) }
    {
        let by_id = order_by_id(alloc, ids.as_slice())?;
        Ok(Graph {
            ids,
            node_columns,
            node_cells,
            ends,
            edge_columns,
            edge_cells: edge_cells.into_vec(),
            by_id,
        })
    }

    /// Adds these edges after those that are there, by their ends, with their cells in each column of the edges, in time
    /// of the edges added (amortised over many calls). The conditions are those of [`Graph::new`], for all edges
    /// together. The one error is want of memory, and it leaves the graph as it was.
    pub fn add_edges(
        &mut self,
        ends: List<(NodeNo, NodeNo)>,
        cells: List<Cells>,
    ) -> Result<(), NoMemory>
        requires few { length self.old.ends + length ends ≤ 4_000_000 }
        requires ends { All (EndsAmong (length self.old.ids)) ends }
        requires cells { FitColumns (length ends) self.old.edge_columns cells }
        ensures ok { OnOk result (self.new ≡ with_edges self.old ends cells) }
        ensures before { OnOk result (KeepsEdges self.old self.new) }
        ensures after { OnOk result (AddsEdges self.old ends cells self.new) }
        ensures err { OnErr result (self.new ≡ self.old) }
    {
        append_edges(&mut self.ends, &mut self.edge_cells, ends, cells)
    }

    /// How many nodes there are, at most 1,000,000.
    pub fn node_count(&self) -> u32
        ensures count { result ≡ length self.now.ids }
        ensures order { result ≡ length (nodes_by_id self.now.ids) }
        ensures limit { result ≤ 1_000_000 }
    {
        self.ids.len() as u32
    }

    /// How many edges there are, at most 4,000,000.
    pub fn edge_count(&self) -> u32
        ensures count { result ≡ length self.now.ends }
        ensures limit { result ≤ 4_000_000 }
    {
        self.ends.len() as u32
    }

    /// The id of a node, below 2^63, which no other node has.
    pub fn id(&self, n: NodeNo) -> u64
        requires { n.0 < length self.now.ids }
        ensures value { result ≡ id_of self.now n.0 }
        ensures limit { result < 2 ^ 63 }
        ensures distinct { AreDistinct self.now.ids }
    {
        self.ids.as_slice()[n.0 as usize]
    }

    /// The node that has `i` nodes of smaller id.
    pub fn by_id(&self, i: u32) -> NodeNo
        requires { i < length self.now.ids }
        ensures place { slice_get (nodes_by_id self.now.ids) i ≡ Some result }
        ensures smaller { count_by (λ id. nat_lt id (id_of self.now result.0)) self.now.ids ≡ i }
        ensures within { result.0 < length self.now.ids }
    {
        self.by_id.as_slice()[i as usize]
    }

    /// The node with this id, or `None` exactly where no node has it. It takes the time of a binary search.
    pub fn find(&self, id: u64) -> Option<NodeNo>
        ensures value { result ≡ option_map node (position (nat_eq id) self.now.ids) }
        ensures has { MatchOption result (NoneHasId self.now.ids id) (HasId self.now.ids id) }
    {
        node_with_id(self.ids.as_slice(), self.by_id.as_slice(), id)
    }

    /// The node that an edge leaves.
    pub fn src(&self, e: EdgeNo) -> NodeNo
        requires { e.0 < length self.now.ends }
        ensures value { result ≡ (ends_of self.now e.0).0 }
        ensures within { result.0 < length self.now.ids }
    {
        self.ends.as_slice()[e.0 as usize].0
    }

    /// The node that an edge comes to.
    pub fn dst(&self, e: EdgeNo) -> NodeNo
        requires { e.0 < length self.now.ends }
        ensures value { result ≡ (ends_of self.now e.0).1 }
        ensures within { result.0 < length self.now.ids }
    {
        self.ends.as_slice()[e.0 as usize].1
    }

    /// The columns of the nodes, in the order of the file's header: at most 16, with distinct names. Each cell is of its
    /// column's kind, and none is the number -(2^63).
    pub fn node_columns(&self) -> &List<Column>
        ensures value { result.now ≡ self.now.node_columns }
        ensures few { length self.now.node_columns ≤ 16 }
        ensures names { AreDistinct (names_of self.now.node_columns) }
        ensures cells { HasNodeCells self.now }
    {
        &self.node_columns
    }

    /// The columns of the edges, in the order of the file's header: at most 16, with distinct names. Each cell is of its
    /// column's kind, and none is the number -(2^63).
    pub fn edge_columns(&self) -> &List<Column>
        ensures value { result.now ≡ self.now.edge_columns }
        ensures few { length self.now.edge_columns ≤ 16 }
        ensures names { AreDistinct (names_of self.now.edge_columns) }
        ensures cells { HasEdgeCells self.now }
    {
        &self.edge_columns
    }

    /// The cell of a node in a column, by the column's place from 0.
    pub fn node_cell(&self, n: NodeNo, column: usize) -> CellRef<'_>
        requires node { n.0 < length self.now.ids }
        requires column { column < length self.now.node_columns }
        ensures value { cell_of result ≡ node_cell_of self.now n.0 column }
        ensures kind { IsCellOf (kind_at self.now.node_columns column) (cell_of result) }
    {
        cell_at(self.node_cells.as_slice(), column, n.0 as usize)
    }

    /// The cell of an edge in a column, by the column's place from 0.
    pub fn edge_cell(&self, e: EdgeNo, column: usize) -> CellRef<'_>
        requires edge { e.0 < length self.now.ends }
        requires column { column < length self.now.edge_columns }
        ensures value { cell_of result ≡ edge_cell_of self.now e.0 column }
        ensures kind { IsCellOf (kind_at self.now.edge_columns column) (cell_of result) }
    {
        cell_at(self.edge_cells.as_slice(), column, e.0 as usize)
    }
}
