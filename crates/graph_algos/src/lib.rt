//! Built-in vertex programs.
//!
//! It stands on `vertex_lang`, whose programs it makes. It offers [`hops`], the least number of edges from a node to each
//! node; [`dist`], the least weight of a walk from a node; [`wcc`], the least id that a node is joined to; and
//! [`pagerank`]. The check of scripts plans a program for each call by name, and the rooms above run it like any other.
//! Its model is the program itself, as data (`specs/`): so whatever is proved of a run speaks of these trees. It promises
//! that the answer is exactly that program, and that it fits every graph (`dist` those that have its column): each part
//! holds only the words that it may hold.
#![tactic(auto)]

mod component;
mod distance;
mod hop_count;
mod rank;
mod shared;

pub use component::wcc;
pub use distance::dist;
pub use hop_count::hops;
pub use rank::pagerank;
