//! From the tree of a script to its canonical text.
//!
//! It stands on `gvdl_tokens`, which spells tokens, on the trees of `gvdl_tree`, and on the grammar of `gvdl_parser`. Its
//! model is the list of a tree's tokens, each with what is said of the space around it, as a fold over the tree and the
//! place where it stands (`specs/Canonical.antt`), and the layout of such tokens in lines (`specs/Layout.antt`). The
//! promise to the rooms above: [`print`] answers exactly the canonical text of a script, [`print_call`] that of a
//! call, [`print_property`] that of a property and [`print_string`] that of a string, as outputs show them. The text has
//! one statement a line, the line of the form first where one is written, one space between tokens but where none is
//! wanted, and parentheses only where they are needed; where some text is the script, the printed one is that script
//! again, with no more levels, the fewest tokens and at most twice as many bytes.
#![tactic(auto)]

mod aggregate;
mod edits;
mod expression;
mod leaf;
mod page;
mod place;
mod predicate;
mod printer;
mod program;
mod run;
mod view;

pub use printer::{print, print_call, print_property, print_string};
