//! What a node gets in a round of a view, and whether it gets something else in another round.
//!
//! It stands on `lone_work`, which says what a node gets in a round of the plain run, and on `round_messages`.
//! [`MessageSource::tally`] finds what the messages to a node come to, by what is kept of the arcs and the values, if anything
//! is. [`differ`] and [`differ_if_listed`] tell whether the messages to a node are other ones in two rounds, as multisets: in the
//! same round of two views, or in two rounds of one view. They are told which nodes may send something else ([`Movers`]), and
//! look at these alone.
#![tactic(auto)]

mod compare;
mod movers;
mod numbers;
mod rounds;
mod source;
mod tails;

pub use compare::{Scratch, differ};
pub use movers::Movers;
pub use rounds::{TwoRounds, ViewRound};
pub use source::MessageSource;
pub use tails::differ_if_listed;
