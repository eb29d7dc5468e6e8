//! The cells of records, kept in columns.

ghost use Rattle.std.specs.Prelude.{◌≡◌, ◌+◌, ◌≤◌, ◌^◌, ◌<◌, length, map, OnOk, IfOk, option_map};
ghost use Rattle.csv.specs.Records.{fields_of};
ghost use Rattle.graph_model.specs.GraphData.{kind_of};
ghost use Rattle.graph_loader.specs.Answers.{Tells};
ghost use Rattle.graph_loader.specs.DataFiles.{bool_in, blame, cell_fault, cells_fault, int_in};
ghost use Rattle.graph_loader.specs.LoadSteps.{bad_field, no_cells, pushed, with_cell};

use crate::fault::{DataKind, Refusal};
use crate::fields::field;
use crate::spelling::{bool_from, int_from};
use csv::ByteRecord;
use graph_model::{Cells, Column, Kind};
use std::alloc::Global;
use surge_outside::{List, NoMemory, Text};

/// A list of cells for each of these columns, with no cell yet.
pub(crate) fn empty_cells(alloc: Global, columns: &[Column]) -> Result<Vec<Cells>, NoMemory>
    ensures { IfOk result (λ cells. cells.items ≡ map (λ c. no_cells c.kind) columns.now) }
{
    let mut cells = Vec::new(alloc);
    for column in columns {
        cells.push(empty_column(alloc, column.kind))?;
    }
    Ok(cells)
}

/// No cells of this kind.
fn empty_column(alloc: Global, kind: Kind) -> Cells
    ensures { result ≡ no_cells kind }
{
    match kind {
        Kind::Int => Cells::Int(List::new(alloc)),
        Kind::Str => Cells::Str(List::new(alloc)),
        Kind::Bool => Cells::Bool(List::new(alloc)),
    }
}

/// Adds the cells that a record has from its field at `first` on, one to each of these columns.
pub(crate) fn add_cells(
    alloc: Global,
    row: &ByteRecord,
    first: usize,
    columns: &mut Vec<Cells>,
) -> Result<(), Refusal>
    requires width { length (fields_of row.now) ≡ length columns.old.items + first }
    requires few { length columns.old.items + first < 2 ^ 32 }
    ensures told { Tells (cells_fault (fields_of row.now) first (map kind_of columns.old.items)) result }
    ensures added { OnOk result (columns.new.items ≡ pushed (fields_of row.now) first columns.old.items) }
{
    for place in 0..columns.len() {
        let field_place = first + place;
        add_cell(
            alloc,
            &mut columns[place],
            field_place as u32 + 1,
            field(row, field_place),
        )?;
    }
    Ok(())
}

/// Adds the cell that a field spells, which stands in this column of its record.
fn add_cell(alloc: Global, cells: &mut Cells, column: u32, field: &[u8]) -> Result<(), Refusal>
    ensures told { Tells (option_map (blame column) (cell_fault (kind_of cells.old) field.now)) result }
    ensures added { OnOk result (cells.new ≡ with_cell cells.old field.now) }
{
    match cells {
        Cells::Int(items) => match int_cell(field) {
            Ok(cell) => Ok(items.push(cell)?),
            Err(kind) => Err(Refusal::blame(column, kind)),
        },
        Cells::Str(items) => match str::from_utf8(field) {
            Ok(text) => Ok(items.push(Text::from_string(String::from_str(alloc, text)?))?),
            Err(_) => Err(Refusal::blame(column, DataKind::NotUtf8)),
        },
        Cells::Bool(items) => match bool_cell(field) {
            Ok(cell) => Ok(items.push(cell)?),
            Err(kind) => Err(Refusal::blame(column, kind)),
        },
    }
}

/// The cell that a field of a column of whole numbers spells, or what is wrong with it.
fn int_cell(field: &[u8]) -> Result<Option<i64>, DataKind>
    ensures { result ≡ int_in field.now }
{
    match int_from(field) {
        Some(cell) => Ok(cell),
        None => Err(no_cell(field)),
    }
}

/// The cell that a field of a column of truth values spells, or what is wrong with it.
fn bool_cell(field: &[u8]) -> Result<Option<bool>, DataKind>
    ensures { result ≡ bool_in field.now }
{
    match bool_from(field) {
        Some(cell) => Ok(cell),
        None => Err(no_cell(field)),
    }
}

/// What is wrong with a field that spells no cell: it isn't text, or not of its column's kind.
fn no_cell(field: &[u8]) -> DataKind
    ensures { result ≡ bad_field field.now }
{
    match str::from_utf8(field) {
        Ok(_) => DataKind::BadCell,
        Err(_) => DataKind::NotUtf8,
    }
}
