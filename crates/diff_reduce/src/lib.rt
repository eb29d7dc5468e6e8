//! A function of the values of each key, kept right by changes.
//!
//! A reduce is an operator that gives for each key what a logic makes of the key's values: a count, a least value, the
//! next state of a vertex. At partially ordered times the result of a key can change where its values change and also
//! at least upper bounds of such times (McSherry, Murray, Isaacs and Isard, "Differential dataflow", 2013), so a reduce
//! names times that are due. This room stands on the traces of `trace_store`, the operators of `flow_core`, the ranges
//! of `ordered_pairs` and the laws of one key in `reduce_theory`. It offers the trait [`KeyLogic`] and the operator
//! [`Reduce`]. Contracts see what a reduce holds: two traces, the times at which each key was evaluated, and the keys
//! that are due (`specs/Stands`). Its promise: beside that of every operator, that a step calls the logic once for each
//! key that `reduce_theory` names, and for no other.
#![tactic(auto)]

mod count;
mod evaluate;
mod key_logic;
mod keys;
mod pairs;
mod reading;
mod reduce;
mod sets;

pub use key_logic::KeyLogic;
pub use reduce::Reduce;
