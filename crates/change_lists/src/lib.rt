//! What changes from round to round: nodes with their new values, list by list.
//!
//! It stands on `vertex_lang`, whose values it compares. A [`Change`] is a node with the value that it changed to. A list of them
//! leads from one list of values to another (`HasChanges`), and is applied by [`assign`], by [`catch_up`] where the values are at
//! hand, and found by [`changes_between`]. [`ChainedLists`] keep many short lists one behind the other, and the long ones each
//! alone; contracts see the list of the lists. A [`History`] is a plain run as two of them: by round, what changes in it, and
//! which nodes got another input. What a history says of a run is said above, where the work of a view is known.
#![tactic(auto)]

mod chained;
mod history;
mod values;

pub use chained::ChainedLists;
pub use history::{Change, History};
pub use values::{
    all_changes, assign, catch_up, changes_between, differs, is_other, push_change, push_mark,
};
