//! Updates of the commonest forms, made without a walk through their expression.
//!
//! It stands on `surge_outside`, `graph_model` and `vertex_lang`. It offers [`QuickSteps`], which computes updates in place
//! of the plain counter `surge_outside::Steps`. The lesser of a node's start and of what it gathered, as in `hops`, `dist`
//! and `wcc`, and a number with a share of what was gathered, as in `pagerank`, are told by the tree of the update
//! (`specs/Forms.antt`) and computed at once, by the same arithmetic; every other update goes to `vertex_lang::eval`.
//! Contracts see it as its number of calls, and its answer as the value of the update expression. The promise to the rooms
//! above: whoever hands it in gets the very values that the expressions stand for, and each update is one call. `main`
//! hands it in, and no room between names it.
#![tactic(auto)]

mod form;
mod quick_steps;
mod values;

pub use quick_steps::QuickSteps;
