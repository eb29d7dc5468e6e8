//! What nodes send in a round of a view, and what of it is kept as numbers.
//!
//! It stands on `message_forms` and `value_codes`, whose numbers it keeps, on `change_lists`, and on `arc_rows`, whose flags tell a
//! view. A [`Side`] is a round of a view: which edges are in it, the value of each node, and how many arcs leave it. What an arc
//! brings is the message of its tail, and none where its edge is not in the view (`specs/Sides`): [`message`] finds it, and
//! [`tally`] what all that some arcs bring comes to. Where the message of a node is the same along all arcs that leave it, and
//! each has a number, [`send_all`] keeps those of all nodes, and [`apply`] those of the next round, given what changes to it.
#![tactic(auto)]

mod sending;
mod side;

pub use sending::{Sender, apply, send_all};
pub use side::{Side, kept, message, sends_nothing, tally};
