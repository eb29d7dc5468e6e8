//! The execution of a plan, statement by statement.
//!
//! It stands on the plan of a script (`gvdl_check`), on the graph (`graph_model`), on the matrix of a collection and the
//! order of its views (`view_matrix`, `view_order`), on the engine that runs views one after the other and its turns
//! (`view_engine`, `view_turns`), on the text of tables, as they are or as blocks of a change text, and of calls (`result_tables`,
//! `change_text`, `gvdl_printer`) and on the sinks of `surge_outside`. It offers a [`Session`] over a graph and a plan, whose call [`Session::next`] executes one more statement
//! and writes what it prints, and [`run_all`], which executes them all. Its model is `specs/Output.antt`: the text of each
//! statement, by the statement and those before it, the order in which a run takes its views, and how often the updater is
//! called at most. It promises the rooms above that each call that answers [`Next::Ran`] wrote exactly the text of the next
//! statement, that a call that answers a fault wrote a front of it, and that a longer script prints what the shorter one
//! did, and more ([`keeps_texts`]); and that the change text of a script comes to the tables of the script without its shows and
//! aggregates ([`changes_replay`]). A matrix is made once for each collection, grows at an append and follows edges that
//! come and go, and the engine of a kept run goes on from the views that it has run: where edges come or go behind it, it
//! is one that follows them.
#![tactic(auto)]

mod all;
mod edit;
mod groups;
mod kept;
mod laws;
mod order;
mod run;
mod session;
mod setting;
mod state;
mod statement;
mod tables;
mod tree;
mod view;
mod work;

pub use all::run_all;
pub use laws::{Planned, changes_replay, keeps_texts};
pub use session::{Next, Session, SessionFault};
