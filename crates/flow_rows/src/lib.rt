//! Operators driven at times that are only known when they come, for rooms of tests.
//!
//! It stands on `flow_core`, and `random_rows` and `vertex_rows` stand on it. A step or a seal is taken where the contract of
//! an operator allows it ([`take_step`], [`take_seal`]), and one behind the other at times that are given ([`driven`]). A
//! run ([`run`]) draws times, batches and seals, steps an operator
//! where that is allowed and where it is due, and keeps what was fed and made (`history`), at any times that are drawn
//! from a grid (`grid`): versions, and pairs in pairs. It compares what was made with a function computed anew from all that
//! was fed ([`Reference`]). The steps that are taken are proved to be allowed; that what was made is right is tested above.
#![tactic(auto)]

mod drive;
mod grid;
mod history;
mod random;

pub use drive::{Fed, driven, may_step, take_seal, take_step};
pub use grid::Grid;
pub use history::{Draws, Reference, Timed, drawn, note, same, sum_to};
pub use random::{History, run};
