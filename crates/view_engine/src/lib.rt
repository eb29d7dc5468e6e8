//! The engine: the views of a run, one after the other, in segments that share work.
//!
//! It stands on segments (`view_segment`), on the rule that says where one begins (`segment_split`), on the matrix of edges
//! by views (`view_matrix`) and on the answers of views as they are kept (`result_tables`). It offers an [`Engine`] over a
//! graph, a program and the views of a matrix in an order, whose segments are turned in any order, and which takes more views
//! later. Its model is `specs/Engines.antt`: for which matrices an engine stands, which says what its segments are
//! (`specs/Splits.antt`), what each view's work is, and that its results are the answers of the plain run alone on each
//! view, whatever the order of the turns and the split. It promises that a turn calls the updater exactly as often as the
//! work of the view that it steps.
#![tactic(auto)]

mod changes;
mod counting;
mod engine;
mod placing;

pub use engine::{Engine, Turn};
