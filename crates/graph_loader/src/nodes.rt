//! The nodes file.

ghost use Rattle.std.specs.Prelude.{◌≡◌, ◌≤◌, ◌++◌, ◌∷◌, [], length, map, option_map, unwrap_or, IfErr, IfOk, OnOk};
ghost use Rattle.csv.specs.Records.{fields_of};
ghost use Rattle.graph_model.specs.GraphData.{kind_of};
ghost use Rattle.graph_loader.specs.Answers.{IfFault, Tells, TellsFault};
ghost use Rattle.graph_loader.specs.DataFiles.{blame, cells_of, id_fault, id_of_row, ids_of, kinds_of, node_fault, nodes_table, rows_fault};
ghost use Rattle.graph_loader.specs.LoadSteps.{pushed, SpellsNodes};
ghost use Rattle.graph_loader.specs.RowsLeft.{IsReady, left_of};
ghost use Rattle.graph_loader.specs.Spelling.{id_spelled};

use crate::cells::{add_cells, empty_cells};
use crate::fault::{DataFile, DataKind, LoadFault, Refusal};
use crate::fields::field;
use crate::header::node_columns;
use crate::rows::Rows;
use crate::spelling::id_from;
use csv::ByteRecord;
use graph_model::{Cells, Column};
use indexmap::IndexSet;
use std::alloc::Global;
use surge_outside::List;

/// A nodes file lists at most so many nodes.
const MOST_NODES: usize = 1_000_000;

/// What a nodes file gives: the id of each node, the columns, and the cells of each column.
#[derive(Drop)]
pub(crate) struct NodeTable {
    pub(crate) ids: IndexSet<u64>,
    pub(crate) columns: List<Column>,
    pub(crate) cells: List<Cells>,
}

/// The nodes that a nodes file lists, or its first fault.
pub(crate) fn node_table(alloc: Global, bytes: &[u8]) -> Result<NodeTable, LoadFault>
    ensures ok { IfOk result (λ t. SpellsNodes bytes.now t.ids.keys t.columns t.cells) }
    ensures fault { IfErr result (λ e. IfFault e (λ f. nodes_table bytes.now ≡ Err f)) }
{
    let mut rows = Rows::new(alloc, bytes);
    rows.read_header(DataFile::Nodes)?;
    match node_columns(alloc, rows.row()) {
        Ok(columns) => nodes_under(alloc, columns, &mut rows),
        Err(refusal) => Err(refusal.of_record(DataFile::Nodes, 1)),
    }
}

/// The nodes of the records that are left, under these columns.
fn nodes_under(
    alloc: Global,
    columns: List<Column>,
    rows: &mut Rows<'_>,
) -> Result<NodeTable, LoadFault>
    requires few { length columns ≤ 16 }
    requires ready { IsReady rows.old.reader }
    ensures told { TellsFault (rows_fault DataFile.Nodes (node_fault (kinds_of columns)) id_of_row [] (left_of rows.old.reader)) result }
    ensures ids { IfOk result (λ t. t.ids.keys ≡ ids_of (left_of rows.old.reader)) }
    ensures columns { IfOk result (λ t. t.columns ≡ columns) }
    ensures cells { IfOk result (λ t. t.cells ≡ cells_of (left_of rows.old.reader) 1 (kinds_of columns)) }
{
    let mut ids = IndexSet::new(alloc);
    let mut cells = empty_cells(alloc, columns.as_slice())?;
    while rows.advance()? {
        let number = ids.len() as u32 + 2;
        if let Err(refusal) = add_node(alloc, &mut ids, &mut cells, rows.row()) {
            return Err(refusal.of_record(DataFile::Nodes, number));
        }
    }
    Ok(NodeTable {
        ids,
        columns,
        cells: List::from_vec(cells),
    })
}

/// Adds the node of a record to those of the earlier records.
fn add_node(
    alloc: Global,
    ids: &mut IndexSet<u64>,
    cells: &mut Vec<Cells>,
    row: &ByteRecord,
) -> Result<(), Refusal>
    requires { length cells.old.items ≤ 16 }
    ensures told { Tells (node_fault (map kind_of cells.old.items) ids.old.keys (fields_of row.now)) result }
    ensures id { OnOk result (ids.new.keys ≡ ids.old.keys ++ id_of_row (fields_of row.now) ∷ []) }
    ensures cells { OnOk result (cells.new.items ≡ pushed (fields_of row.now) 1 cells.old.items) }
{
    if ids.len() >= MOST_NODES {
        return Err(Refusal::blame(0, DataKind::TooManyNodes));
    }
    if row.len() != cells.len() + 1 {
        return Err(Refusal::blame(0, DataKind::WrongWidth));
    }
    add_id(ids, field(row, 0))?;
    add_cells(alloc, row, 1, cells)
}

/// Adds the id that the first field of a record spells to those of the earlier nodes.
fn add_id(ids: &mut IndexSet<u64>, field: &[u8]) -> Result<(), Refusal>
    ensures told { Tells (option_map (blame 1) (id_fault ids.old.keys (id_spelled field.now))) result }
    ensures id { OnOk result (ids.new.keys ≡ ids.old.keys ++ unwrap_or (id_spelled field.now) 0 ∷ []) }
{
    let Some(id) = id_from(field) else {
        return Err(Refusal::blame(1, DataKind::BadId));
    };
    match ids.insert_full(id) {
        Ok((_, true)) => Ok(()),
        Ok((_, false)) => Err(Refusal::blame(1, DataKind::RepeatedId)),
        Err(_) => Err(Refusal::NoMemory),
    }
}
