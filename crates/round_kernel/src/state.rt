//! What goes from round to round.

use crate::frame::Lists;
use crate::lookups::Lookups;
use crate::made::Made;
use value_codes::Kept;

/// What goes from round to round.
#[derive(Drop)]
pub(crate) struct State {
    pub(crate) lists: Lists,
    /// What is kept of the messages of each touched node, in the round in which it was visited last.
    pub(crate) kept: Vec<Kept>,
    pub(crate) lookups: Lookups,
    /// What the last round gave.
    pub(crate) made: Made,
}
