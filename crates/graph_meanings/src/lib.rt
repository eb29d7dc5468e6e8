//! What the built-in programs mean.
//!
//! It stands on `graph_algos`, whose programs it is about, on the plain run of `vertex_lang`, and on `walk_theory`. It
//! offers [`hop_run`], [`dist_run`] and [`wcc_run`], the plain runs of `hops`, `dist` and `wcc`; [`has_weights`], which tells
//! whether a column gives weights; and the laws of these programs ([`laws`]), which speak of every plain run of them
//! with the program's own updates, as `main` makes them. Its model is walks in a graph, their lengths and weights, and what they join
//! (`specs/Meanings`), without rounds, messages or programs. It promises that where such a run settles, its values are the
//! least numbers of arcs, the least weights and the least ids of components, and that it settles within as many rounds as
//! there are nodes.
#![tactic(auto)]

mod component;
mod distance;
mod facts;
mod hop_count;
pub mod laws;
mod weights;

pub use component::wcc_run;
pub use distance::dist_run;
pub use hop_count::hop_run;
pub use weights::has_weights;
