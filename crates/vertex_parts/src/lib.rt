//! The functions of the parts of a vertex program as a dataflow.
//!
//! It stands on `view_items`, which says what each part makes, and on the operators whose functions they are. It offers
//! what comes into the loop from a node or a start ([`NodeBegins`], [`StartBegins`]) and from an arc ([`FlowTails`],
//! [`StartTails`], [`Degrees`], [`ArcInLoop`]), and in the loop the items of a node itself ([`OwnItems`]) and those
//! that arcs bring ([`Sides`], [`Sends`]), and what is made of a node of them ([`Update`]). Each promises its function
//! of `view_items/specs`.
#![tactic(auto)]

mod arcs;
mod begins;
mod degrees;
mod items;
mod update;

pub use arcs::{ArcInLoop, FlowTails, StartTails};
pub use begins::{NodeBegins, StartBegins};
pub use degrees::Degrees;
use graph_model::{NodeNo, Val};
pub use items::{OwnItems, Sends, Sides};
use loop_theory::LoopInput;
pub use update::Update;
use vertex_items::FixedItem;

/// What is in the loop: what stays in each round, and the values of nodes.
pub type InLoop = LoopInput<FixedItem, (NodeNo, Val)>;
