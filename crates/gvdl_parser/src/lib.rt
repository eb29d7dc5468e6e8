//! From the text of a script to its tree, or to its first fault.
//!
//! It stands on `gvdl_tokens`, which cuts a text into tokens with places, on the trees of `gvdl_tree`, and on
//! `phrase_theory`, which says what it is to read by a grammar. The grammar is a relation between lists of tokens and
//! trees by the number of levels that may be open at once (`specs/Predicates.antt`, `Expressions`, `Statements`); a text
//! is a script where its tokens are one with 64 levels (`specs/Script.antt`). The promise to the rooms above: [`parse`]
//! answers the one script that a text is, or the first fault of the text, exactly where it has one. Each function that
//! reads a part has one clause, `Reads`: what was read is the only phrase there, or the fault is the first.
#![tactic(auto)]

mod aggregate;
mod call;
mod cursor;
mod edits;
mod expression;
mod fault;
mod leaf;
mod meaning;
mod parser;
mod predicate;
mod program;
mod run;
mod script;
mod terminal;
mod view;

pub use fault::{ParseFault, ScriptFault};
pub use parser::parse;
