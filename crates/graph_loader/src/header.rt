//! The header of a data file.

ghost use Rattle.std.specs.Prelude.{◌≡◌, ◌+◌, ◌<◌, ◌≤◌, ◌^◌, [], drop, length, option_map, string_bytes, IfOk, Result, Ok, Err};
ghost use Rattle.std.specs.List.{list_all};
ghost use Rattle.csv.specs.Records.{fields_of};
ghost use Rattle.graph_loader.specs.Answers.{Answers, Tells};
ghost use Rattle.graph_loader.specs.DataFiles.{blame, column_word, columns_after, first_words, has_name, header_fault, insert_words, kind_word, properties_from, property_in, result_map, result_map_err};
ghost use Rattle.graph_loader.specs.declared.fault.DataFile.TheVariants as file;
ghost use Rattle.graph_loader.specs.LoadSteps.{column_parts, word_fault};
ghost use Rattle.graph_loader.specs.Spelling.{column_spelled, kind_spelled, is_property, is_printing};

use crate::fault::{DataKind, Refusal};
use crate::fields::field;
use csv::ByteRecord;
use graph_model::{Column, Kind};
use std::alloc::Global;
use surge_outside::{List, NoMemory, Text};

/// A file has at most so many properties.
const MOST_PROPERTIES: usize = 16;

/// The properties of a nodes file, from its header: `id` and then properties.
pub(crate) fn node_columns(alloc: Global, row: &ByteRecord) -> Result<List<Column>, Refusal>
    ensures { Answers (columns_after 1 (first_words file.Nodes) (fields_of row.now)) result }
{
    expect_word(row, 0, "id")?;
    properties(alloc, row, 1)
}

/// The properties of an edges file, from its header: `src`, `dst` and then properties.
pub(crate) fn edge_columns(alloc: Global, row: &ByteRecord) -> Result<List<Column>, Refusal>
    ensures { Answers (columns_after 1 (first_words file.Edges) (fields_of row.now)) result }
{
    expect_word(row, 0, "src")?;
    expect_word(row, 1, "dst")?;
    properties(alloc, row, 2)
}

/// Refuses a header that isn't `src`, `dst` and then these columns, in their order.
pub(crate) fn expect_header(
    alloc: Global,
    row: &ByteRecord,
    columns: &[Column],
) -> Result<(), Refusal>
    requires { length columns.now ≤ 16 }
    ensures { Tells (header_fault 1 (insert_words columns.now) (fields_of row.now)) result }
{
    expect_word(row, 0, "src")?;
    expect_word(row, 1, "dst")?;
    for place in 0..columns.len() {
        let word = header_word(alloc, &columns[place])?;
        expect_word(row, place + 2, word.as_str())?;
    }
    expect_end(row, columns.len() + 2)
}

/// The field of a column in a header.
fn header_word(alloc: Global, column: &Column) -> Result<String, NoMemory>
    ensures { IfOk result (λ word. string_bytes word ≡ column_word column.now) }
{
    let mut word = String::from_str(alloc, column.name.as_str())?;
    word.push_str(":")?;
    word.push_str(word_of(column.kind))?;
    Ok(word)
}

/// The word of a kind.
fn word_of(kind: Kind) -> &'static str
    ensures { result.now ≡ kind_word kind }
{
    match kind {
        Kind::Int => "int",
        Kind::Str => "str",
        Kind::Bool => "bool",
    }
}

/// Refuses a header that has a field at this place.
fn expect_end(row: &ByteRecord, place: usize) -> Result<(), Refusal>
    requires { place ≤ 18 }
    ensures { Tells (header_fault (place + 1) [] (drop place (fields_of row.now))) result }
{
    if place < row.len() {
        Err(Refusal::blame(place as u32 + 1, DataKind::BadHeader))
    } else {
        Ok(())
    }
}

/// Refuses a header that has another field than this word at this place, or none.
fn expect_word(row: &ByteRecord, place: usize, word: &str) -> Result<(), Refusal>
    requires { place < 18 }
    ensures { Tells (word_fault (fields_of row.now) place word.now) result }
{
    if place < row.len() && field(row, place) == word.as_bytes() {
        Ok(())
    } else {
        Err(Refusal::blame(place as u32 + 1, DataKind::BadHeader))
    }
}

/// The properties that the fields of a header name from this place on.
fn properties(alloc: Global, row: &ByteRecord, first: usize) -> Result<List<Column>, Refusal>
    requires { first ≤ 2 }
    ensures { Answers (properties_from (first + 1) [] (drop first (fields_of row.now))) result }
{
    let mut columns = List::new(alloc);
    for place in first..row.len() {
        let column = place as u32 + 1;
        let property = property_after(alloc, columns.as_slice(), column, field(row, place))?;
        columns.push(property)?;
    }
    Ok(columns)
}

/// The property that a field of a header names, in this column after those of the earlier ones.
fn property_after(
    alloc: Global,
    earlier: &[Column],
    column: u32,
    field: &[u8],
) -> Result<Column, Refusal>
    ensures { Answers (result_map_err (blame column) (property_in earlier.now field.now)) result }
{
    match named_property(earlier, field) {
        Ok((name, kind)) => match String::from_str(alloc, name) {
            Ok(name) => Ok(Column {
                name: Text::from_string(name),
                kind,
            }),
            Err(_) => Err(Refusal::NoMemory),
        },
        Err(kind) => Err(Refusal::blame(column, kind)),
    }
}

/// The name and the kind of the property that a field of a header names, after those of the earlier columns.
fn named_property<'a>(earlier: &[Column], field: &'a [u8]) -> Result<(&'a str, Kind), DataKind>
    ensures { result_map column_parts result ≡ property_in earlier.now field.now }
{
    if earlier.len() >= MOST_PROPERTIES {
        return Err(DataKind::TooManyColumns);
    }
    let Ok(text) = str::from_utf8(field) else {
        return Err(DataKind::NotUtf8);
    };
    match property_from(text) {
        Some((name, kind)) => {
            if has_column(earlier, name) {
                Err(DataKind::BadHeader)
            } else {
                Ok((name, kind))
            }
        }
        None => Err(DataKind::BadHeader),
    }
}

/// Whether one of these columns has this name.
fn has_column(columns: &[Column], name: &str) -> bool
    ensures { result ≡ has_name columns.now name.now }
{
    columns.iter().any(|column| column.name.as_str() == name)
}

/// The name and the kind of a property, which the last colon of its field parts.
fn property_from(field: &str) -> Option<(&str, Kind)>
    ensures { option_map column_parts result ≡ column_spelled field.now }
{
    let (name, word) = field.rsplit_once(':')?;
    let kind = kind_from(word)?;
    if is_property_name(name) {
        Some((name, kind))
    } else {
        None
    }
}

/// The kind that a word names.
fn kind_from(word: &str) -> Option<Kind>
    ensures { result ≡ kind_spelled word.now }
{
    if word == "int" {
        Some(Kind::Int)
    } else if word == "str" {
        Some(Kind::Str)
    } else if word == "bool" {
        Some(Kind::Bool)
    } else {
        None
    }
}

/// Whether a property may have this name: it isn't empty, isn't the name of a column of ids, and holds no control byte.
fn is_property_name(name: &str) -> bool
    ensures { result ≡ is_property name.now }
{
    !name.is_empty()
        && name != "id"
        && name != "src"
        && name != "dst"
        && holds_no_control(name.as_bytes())
}

/// Whether no byte is below 32 or 127.
fn holds_no_control(bytes: &[u8]) -> bool
    ensures { result ≡ list_all is_printing bytes.now }
{
    bytes.iter().all(|byte| *byte >= 32 && *byte != 127)
}
