//! What the nodes of a vertex program get in a round, as collections.
//!
//! A vertex program as a dataflow keeps, for each node, the things that it gets in a round as words of a reduce: its
//! start, its value and its messages ([`NodeItem`]). This room has no code but the records that such a dataflow is fed
//! and hands on from part to part. It says what a node gives under the words that it has (`specs/Given`), and that
//! under the items of its input, each once, it gives the next value of the plain run ([`input_gives_next`]), whatever
//! order of items it is read in that is like that of the records ([`items_are_ordered`]). It stands on `vertex_lang`
//! and `lone_work`, whose plain runs and inputs it speaks of; `view_items` stands on it.
#![tactic(auto)]

mod input;
mod item;
mod laws;

pub use input::{FixedItem, FlowInput, StartInput};
pub use item::NodeItem;
pub use laws::{input_gives_next, items_are_ordered, records_are_ordered};
