//! Predicates on the edges of a property graph.
//!
//! It stands on `graph_model`. A view of a graph keeps the edges for which its predicates hold, as filtered views do in
//! Graphsurge (Sahu and Salihoglu 2021). It offers the checked form of a predicate ([`Pred`]), in which properties are
//! the numbers of columns, a view's list of them ([`ViewRule`]), their truth at an edge ([`holds`], [`rule_holds`]), which
//! takes no memory, and the edges of a view ([`view_edges`]). Its model is `specs/Truth.antt`: truth by cases on the
//! predicate, where a comparison with an absent cell is false, whatever its sign; and `specs/ViewEdges.antt`: the edges
//! of the graph for which the rule holds, filtered in the order of the file. It promises exactly that truth for every
//! predicate, also for one that names columns that the graph lacks, and exactly those edges.
#![tactic(auto)]

mod compare;
mod edges;
mod pred;
mod truth;

pub use edges::view_edges;
pub use pred::{Cmp, Place, Pred, ViewRule};
pub use truth::{holds, rule_holds};
