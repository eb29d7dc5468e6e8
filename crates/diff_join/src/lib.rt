//! Joins of two collections.
//!
//! A join takes two collections of keys with values, and gives a record for each left and each right value of one key,
//! with the product of their weights, as in differential dataflow (McSherry, Murray, Isaacs and Isard, 2013). This room
//! stands on the traces of `trace_store`, the operators of `flow_core` and the ranges of `ordered_pairs`. It offers
//! [`Pairing`], what a join gives for two values, and [`Join`], an operator over every partially ordered time. A
//! difference meets all differences of the other side, and each product stands at the least upper bound of both times:
//! it goes out where that is the time of the step, and is kept otherwise in an ordered map, due at its time. What a
//! join means is a relation to its runs (`specs/Standing`), and `specs/Joins` has its function. It promises the
//! contract of an operator: at each time at or above the seal with nothing due at or below it, what was made sums to
//! the function of the sum of what was fed.
#![tactic(auto)]

mod join;
mod kept;
mod pairing;
mod products;

pub use join::Join;
pub use pairing::Pairing;
