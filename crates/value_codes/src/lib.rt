//! Values and messages of all nodes as packed numbers, and what messages come to that are read from them.
//!
//! It stands on `message_forms`, which says which value a number stands for, and on `change_lists`. [`Codes`] hold a number for each
//! node, in four bytes each as long as all of them fit; contracts see the list of the numbers. A [`Tally`] is what messages come
//! to: the least or the greatest, their exact sum, and how many they are (`specs/Tallies`); a [`Span`] is the same whichever way
//! they are gathered, so that going over the arcs into a node asks nothing of how. [`Codes::tally`] and [`tally_links`] promise
//! that what is made of packed numbers is what is made of the values for which they stand.
#![tactic(auto)]

mod codes;
mod numbers;
mod short_span;
mod span;
mod tally;

pub use codes::{Codes, lengthened, short_code};
pub use numbers::{numbers_of, renew, tally_links};
pub use span::Span;
pub use tally::{Kept, Tally};
