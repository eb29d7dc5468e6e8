//! Vertex programs: what a node computes from its own value and from the messages that its arcs bring.
//!
//! It stands on `surge_outside`, `graph_model` and `multisets`. It offers the program ([`Program`], three expression
//! trees and a way of gathering), the arcs of a view ([`arcs_of`]), the value of each expression ([`start`], [`send`],
//! [`eval`]), what it doesn't depend on ([`ignores_edge`], [`names_outdeg`]), the gathered value ([`gather`]), the
//! arithmetic of values ([`arithmetic`]), who computes an update ([`Updater`]), the plain run of a program ([`lone_run`]), a
//! run that begins with given values ([`rounds_run`]), and what follows from all this for the rooms above ([`laws`]): one
//! value of a round, fixpoints, phases, and that the order of arcs doesn't matter. Contracts see programs, arcs and values
//! as data, and a run as synchronous rounds over all nodes: the list of values after each round, by node number. The
//! promise to the rooms above: each value is that of the written rules, and `lone_run` answers the values of the least
//! round after which nothing changes, or that there is none within the rounds allowed, or where it is asked so the values
//! after exactly so many rounds.
#![tactic(auto)]

mod arc;
pub mod arithmetic;
mod delivery;
mod evaluate;
pub mod laws;
mod lone;
mod mail;
mod names;
mod parts;
mod phase;
mod program;
mod round;
mod setting;
mod updater;
mod words;

pub use arc::{Arc, arcs_of};
pub use lone::{Lone, Outcome, Rounds, lone_run};
pub use names::{ignores_edge, names_outdeg};
pub use parts::{gather, send, start};
pub use phase::{Ended, rounds_run};
pub use program::{Along, Check, Cmp, Expr, Gather, Program};
pub use updater::{Updater, eval};
