//! The nodes that are looked at in a round: those that what changed before it may reach.
//!
//! It stands on `arc_rows` and `change_lists`, and on `round_messages`, which tells where nothing is sent. A [`Queue`] holds nodes that
//! wait for a visit. [`add_at_start`] adds those that arcs may reach that are in one of two views alone, [`add_changed`] nodes that
//! changed and those to which they send, where what they get may differ between the views, and [`add_marked`] nodes with a mark in
//! the view before. What each promises is that such nodes wait (`specs/Queues`): that no other node is active follows above.
#![tactic(auto)]

mod queue;

pub use queue::{Pairs, Queue, Unlike, add_all, add_at_start, add_changed, add_marked};
