//! A node in a round.

use crate::lookups::Lookups;
use graph_model::{NodeNo, Val};
use round_inputs::ViewRound;
use round_messages::Side;

/// A node in a round, and what is known of it and of the round.
#[derive(Clone, Copy)]
pub(crate) struct Spot<'a> {
    /// The round of the new view.
    pub(crate) new: ViewRound<'a>,
    /// The same round of the view before, if there is one.
    pub(crate) old: Side<'a>,
    /// The values of the round before it in the new view, and those with which the nodes start.
    pub(crate) before: &'a [Val],
    pub(crate) starts: &'a [Val],
    pub(crate) lookups: &'a Lookups,
    pub(crate) node: NodeNo,
    /// Whether there is no view before.
    pub(crate) first: bool,
    /// Whether the node was touched in an earlier round.
    pub(crate) was: bool,
    /// Whether its input changed in this round of the view before. At round 0 it is not looked at.
    pub(crate) marked: bool,
}
