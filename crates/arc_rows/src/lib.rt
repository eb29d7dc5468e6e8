//! The arcs of a graph in rows, by head and by tail, and those of one view.
//!
//! It stands on `vertex_lang`, which says which arcs the edges give in a direction, and on `message_forms`, whose links it lists.
//! [`Rows`] hold the arcs of all edges, or of those alone whose edge is in one of two views: the row of a node has exactly its
//! arcs (`specs/RowLists`). A view is told by a flag for each edge (`specs/Views`). [`Live`] lists hold for each node what a
//! message is made of, of those arcs to it that are in one view, and [`CachedArcs`] keeps them from a view to the next one: only
//! rows of nodes to which an arc comes that is in one of the two views alone are made anew. [`Degrees`] count how many arcs leave
//! each node in both views, and [`Turned`] holds the arcs that are in one of the two alone.
#![tactic(auto)]

mod cached;
mod degrees;
mod live;
mod rows;
mod turned;
mod views;

pub use cached::{CachedArcs, Listed};
pub use degrees::Degrees;
pub use live::{Live, live_links, live_tails};
pub use rows::{Rows, count_either, keep};
pub use turned::{Turned, has_edge};
pub use views::TwoViews;
