//! The tables of views: what a run answers on a view, the text of it, and the answers of many views, kept as differences.
//!
//! It stands on the graph's nodes and ids (`graph_model`), on how runs end (`vertex_lang`) and on the sinks of
//! `surge_outside`. It offers [`Table`], the answer of a run on one view; [`write_table`], which hands its text to a sink as
//! a table with a line for each node, or as one line that sums it up ([`Form`]); and [`Results`], which is given how the
//! values of each view differ from those of the view before, and answers tables. Its models are `specs/TableText.antt`, the
//! text as a function of the head, the graph and the table, and `specs/Results.antt`, the held answers as a list. It promises
//! that exactly this text goes out, or a front of it where a write fails, and that a table is what the changes come to; a
//! refused addition changes nothing. Lines are laid out from their end: a table has two numbers for each of up to 1,000,000 nodes.
#![tactic(auto)]

mod digits;
mod entries;
mod form;
mod laws;
mod lines;
mod results;
mod table;
mod text;
mod totals;
mod writing;

pub use form::Form;
pub use laws::{added_is_held, all_gives, changes_give, ids_rise, others_stay};
pub use results::Results;
pub use table::Table;
pub use text::head_text;
pub use writing::write_table;
