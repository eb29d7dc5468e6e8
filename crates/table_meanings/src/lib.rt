//! What the printed tables of the built-in programs mean.
//!
//! It stands on `surge_session`, whose definitions say what a run on a view answers and prints, and on `graph_meanings`,
//! which says what `hops`, `dist` and `wcc` mean over the edges of a view. It joins the two: its functions have no code, and
//! the contract of each is one law of the answers that sessions print, where the updates are those of the program
//! (`specs/Laws`). No room stands on it.
#![tactic(auto)]

pub mod laws;
