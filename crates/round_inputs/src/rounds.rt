//! Rounds of views, as they are looked at.

use crate::movers::Movers;
use arc_rows::Rows;
use graph_model::Graph;
use round_messages::Side;
use vertex_lang::{Arc, Program};

/// A round of a view, and the arcs over which it goes.
#[derive(Clone, Copy)]
pub struct ViewRound<'a> {
    pub program: &'a Program,
    pub graph: &'a Graph,
    pub rows: &'a Rows,
    pub side: Side<'a>,
    /// The number of the round.
    pub number: u32,
}

/// A round and another one, and what tells where they may differ.
#[derive(Clone, Copy)]
pub struct TwoRounds<'a> {
    pub left: &'a ViewRound<'a>,
    pub right: &'a Side<'a>,
    /// Arcs among which are all that are looked at whose edge is in one of the two views alone.
    pub turned: &'a [Arc],
    /// The nodes that may send something else in the one than in the other.
    pub movers: Movers<'a>,
}
