//! The files of edges: the one that a graph is loaded from, and further ones.

ghost use Rattle.std.specs.Prelude.{◌≡◌, ◌+◌, ◌≤◌, ◌<◌, ◌++◌, ◌∷◌, [], length, map, IfErr, IfOk, OnErr, OnOk, Some};
ghost use Rattle.csv.specs.Records.{fields_of};
ghost use Rattle.graph_model.specs.GraphData.{kind_of};
ghost use Rattle.graph_loader.specs.Answers.{IfFault, TellsBut, TellsFault};
ghost use Rattle.graph_loader.specs.DataFiles.{cells_of, edge_fault, edges_table, ends_of_row, insert_rows, kinds_of, records_of};
ghost use Rattle.graph_loader.specs.LoadLaws.{AreMore};
ghost use Rattle.graph_loader.specs.LoadSteps.{IsTableOf, ends_so_far, fault_by_row, pair_ends, pair_fault, pair_of_row, pairs_fault, pushed, source_fault, SpellsEdges, SpellsMore};
ghost use Rattle.graph_loader.specs.RowsLeft.{IsReady, left_of};

use crate::cells::{add_cells, empty_cells};
use crate::ends::{ends_with, link, make_room, pair_from};
use crate::fault::{DataFile, DataKind, LoadFault, Refusal};
use crate::header::{edge_columns, expect_header};
use crate::places::{NodeIndex, places_of};
use crate::rows::Rows;
use csv::ByteRecord;
use graph_model::{Cells, Column, Graph, NodeNo};
use indexmap::IndexSet;
use std::alloc::Global;
use surge_outside::List;

/// A graph has at most so many edges.
const MOST_EDGES: usize = 4_000_000;

/// A file of edges.
#[derive(Clone, Copy)]
pub(crate) struct EdgeSource {
    /// Which file it is.
    pub(crate) file: DataFile,
    /// So many edges of the graph come before its own.
    pub(crate) before: u32,
}

/// What an edges file gives: the edges, and the columns of their cells.
#[derive(Drop)]
pub(crate) struct EdgeTable {
    pub(crate) edges: EdgeList,
    pub(crate) columns: List<Column>,
}

/// Edges: the ends of each, and the cells of each column.
#[derive(Drop)]
pub(crate) struct EdgeList {
    pub(crate) ends: List<(NodeNo, NodeNo)>,
    pub(crate) cells: List<Cells>,
}

/// The edges that an edges file lists between these nodes, or its first fault.
pub(crate) fn edge_table(
    alloc: Global,
    ids: &IndexSet<u64>,
    bytes: &[u8],
) -> Result<EdgeTable, LoadFault>
    requires { length ids.now.keys ≤ 1_000_000 }
    ensures ok { IfOk result (λ t. SpellsEdges ids.now.keys bytes.now t.edges.ends t.columns t.edges.cells) }
    ensures fault { IfErr result (λ e. IfFault e (λ f. edges_table ids.now.keys bytes.now ≡ Err f)) }
{
    let source = EdgeSource {
        file: DataFile::Edges,
        before: 0,
    };
    let mut rows = Rows::new(alloc, bytes);
    rows.read_header(source.file)?;
    match edge_columns(alloc, rows.row()) {
        Ok(columns) => {
            let edges = edges_under(alloc, source, ids, columns.as_slice(), &mut rows)?;
            Ok(EdgeTable { edges, columns })
        }
        Err(refusal) => Err(refusal.of_record(source.file, 1)),
    }
}

/// The edges that the file of edges that a statement names adds to a graph, whose nodes have these ids, or its first fault.
pub(crate) fn more_edges(
    alloc: Global,
    graph: &Graph,
    ids: &IndexSet<u64>,
    bytes: &[u8],
    statement: u32,
) -> Result<EdgeList, LoadFault>
    requires same { ids.now.keys ≡ graph.now.ids }
    requires few_nodes { length ids.now.keys ≤ 1_000_000 }
    ensures ok { IfOk result (λ t. SpellsMore statement bytes.now graph.now t.ends t.cells) }
    ensures fit { IfOk result (λ t. AreMore graph.now t.ends t.cells) }
    ensures fault { IfErr result (λ e. IfFault e (λ f. insert_rows statement graph.now (records_of bytes.now) ≡ Err f)) }
{
    let source = EdgeSource {
        file: DataFile::Insert(statement),
        before: graph.edge_count(),
    };
    let columns = graph.edge_columns().as_slice();
    let mut rows = Rows::new(alloc, bytes);
    rows.read_header(source.file)?;
    match expect_header(alloc, rows.row(), columns) {
        Ok(()) => edges_under(alloc, source, ids, columns, &mut rows),
        Err(refusal) => Err(refusal.of_record(source.file, 1)),
    }
}

/// The edges of the records that are left of a file, under these columns.
fn edges_under(
    alloc: Global,
    source: EdgeSource,
    ids: &IndexSet<u64>,
    columns: &[Column],
    rows: &mut Rows<'_>,
) -> Result<EdgeList, LoadFault>
    requires few_before { source.before ≤ 4_000_000 }
    requires few_nodes { length ids.now.keys ≤ 1_000_000 }
    requires few_columns { length columns.now ≤ 16 }
    requires ready { IsReady rows.old.reader }
    ensures told { TellsFault (source_fault source (kinds_of columns.now) ids.now.keys (left_of rows.old.reader)) result }
    ensures ends { IfOk result (λ t. t.ends ≡ map (ends_of_row ids.now.keys) (left_of rows.old.reader)) }
    ensures cells { IfOk result (λ t. t.cells ≡ cells_of (left_of rows.old.reader) 2 (kinds_of columns.now)) }
{
    let mut ends = List::new(alloc);
    let mut waiting = List::new(alloc);
    let places = places_of(alloc, ids)?;
    let nodes = NodeIndex {
        ids,
        places: places.as_slice(),
    };
    let mut cells = empty_cells(alloc, columns)?;
    while rows.advance()? {
        add_edge(
            alloc,
            source,
            &nodes,
            &mut ends,
            &mut waiting,
            &mut cells,
            rows.row(),
        )?;
    }
    link(source.file, &nodes, &mut ends, &mut waiting)?;
    Ok(EdgeList {
        ends,
        cells: List::from_vec(cells),
    })
}

/// Adds the edge of a record to those of the earlier records, or tells the first fault of these. Its ends may wait.
fn add_edge(
    alloc: Global,
    source: EdgeSource,
    nodes: &NodeIndex<'_>,
    ends: &mut List<(NodeNo, NodeNo)>,
    waiting: &mut List<(u64, u64)>,
    cells: &mut Vec<Cells>,
    row: &ByteRecord,
) -> Result<(), LoadFault>
    requires few_nodes { length nodes.now.ids.now.keys ≤ 1_000_000 }
    requires table { IsTableOf nodes.now.ids.now.keys nodes.now.places.now }
    requires few_edges { source.before + length ends.old + length waiting.old ≤ 4_000_000 }
    requires few_columns { length cells.old.items ≤ 16 }
    ensures told { IfErr result (λ e. IfFault e (λ f. fault_by_row source (map kind_of cells.old.items) nodes.now.ids.now.keys ends.old waiting.old (fields_of row.now) ≡ Some f)) }
    ensures waits { OnOk result (pairs_fault source.file nodes.now.ids.now.keys (length ends.new) waiting.new ≡ fault_by_row source (map kind_of cells.old.items) nodes.now.ids.now.keys ends.old waiting.old (fields_of row.now)) }
    ensures ends { OnOk result (ends_so_far nodes.now.ids.now.keys ends.new waiting.new ≡ ends_so_far nodes.now.ids.now.keys ends.old waiting.old ++ ends_of_row nodes.now.ids.now.keys (fields_of row.now) ∷ []) }
    ensures few { OnOk result (source.before + length ends.new + length waiting.new ≤ 4_000_000) }
    ensures cells { OnOk result (cells.new.items ≡ pushed (fields_of row.now) 2 cells.old.items) }
{
    make_room(source.file, nodes, ends, waiting)?;
    let number = (ends.len() + waiting.len()) as u32 + 2;
    match read_edge(alloc, source.before, nodes, ends, waiting, cells, row) {
        Ok(()) => Ok(()),
        Err(refusal) => {
            link(source.file, nodes, ends, waiting)?;
            Err(refusal.of_record(source.file, number))
        }
    }
}

/// Reads the edge of a record, before which so many edges come that are none of its file: its cells are added to those of the earlier records, and the ids of its ends to those that
/// wait. A refusal tells what is wrong with the record; a record that is taken may have an end that is no node.
fn read_edge(
    alloc: Global,
    before: u32,
    nodes: &NodeIndex<'_>,
    ends: &List<(NodeNo, NodeNo)>,
    waiting: &mut List<(u64, u64)>,
    cells: &mut Vec<Cells>,
    row: &ByteRecord,
) -> Result<(), Refusal>
    requires few_nodes { length nodes.now.ids.now.keys ≤ 1_000_000 }
    requires table { IsTableOf nodes.now.ids.now.keys nodes.now.places.now }
    requires few_edges { before + length ends.now + length waiting.old ≤ 4_000_000 }
    requires few_columns { length cells.old.items ≤ 16 }
    ensures told { TellsBut (pair_fault nodes.now.ids.now.keys (pair_of_row (fields_of row.now))) (edge_fault before (map kind_of cells.old.items) nodes.now.ids.now.keys (ends_so_far nodes.now.ids.now.keys ends.now waiting.old) (fields_of row.now)) result }
    ensures room { OnOk result (before + length ends.now + length waiting.old < 4_000_000) }
    ensures waits { OnOk result (waiting.new ≡ waiting.old ++ pair_of_row (fields_of row.now) ∷ []) }
    ensures same { OnErr result (waiting.new ≡ waiting.old) }
    ensures ends { OnOk result (pair_ends nodes.now.ids.now.keys (pair_of_row (fields_of row.now)) ≡ ends_of_row nodes.now.ids.now.keys (fields_of row.now)) }
    ensures cells { OnOk result (cells.new.items ≡ pushed (fields_of row.now) 2 cells.old.items) }
{
    if before as usize + ends.len() + waiting.len() >= MOST_EDGES {
        return Err(Refusal::blame(0, DataKind::TooManyEdges));
    }
    if row.len() != cells.len() + 2 {
        return Err(Refusal::blame(0, DataKind::WrongWidth));
    }
    let pair = pair_from(nodes, row)?;
    if let Err(refusal) = add_cells(alloc, row, 2, cells) {
        ends_with(nodes, pair)?;
        return Err(refusal);
    }
    waiting.push(pair)?;
    Ok(())
}
