//! Change texts: tables as differences from the table before, and back.
//!
//! It stands on the graph's nodes and ids (`graph_model`), on how runs end (`vertex_lang`), on tables and their text
//! (`result_tables`) and on the sinks of `surge_outside`. It offers [`write_change`], which hands a table to a sink as a block:
//! all its rows, or the rows that differ from the table before; [`read_changes`], which reads a text of blocks as a
//! [`ChangeText`] or tells its first bad line; and [`replay`], which writes the tables that such a text comes to. Its models
//! are `specs/Blocks.antt`, which lists of blocks there are and what their tables are, `specs/Spelling.antt`, the text of
//! blocks as lines, and `specs/Reading.antt`, what a first bad line is. It promises that a text is read as its one list of
//! blocks, or that its first bad line is named; that a change block has exactly the rows that differ; and that exactly the
//! tables of a text go out, or a front of them where a write fails. A text is read line by line, once: a block costs its
//! rows, and each row of a change a search that begins behind the row before it.
#![tactic(auto)]

mod changes;
mod fault;
mod flat;
mod kind;
mod laws;
mod lay;
mod line;
mod number;
mod opening;
mod place;
mod reader;
mod row;
mod tables;
mod text;
mod write;

pub use changes::{ChangeText, read_changes};
pub use fault::{ReplayError, ReplayFault, ReplayStop};
pub use laws::{one_fault, one_reading, tables_are_blocks, tables_come_back};
pub use tables::replay;
pub use write::write_change;
