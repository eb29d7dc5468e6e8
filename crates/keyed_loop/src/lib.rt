//! A loop whose body ends in a reduce: it made of its parts, and the run of that reduce.
//!
//! It stands on `inner_theory`, and on the operators of `diff_reduce` and `diff_iterate`. It makes the body of a quiet
//! part and the logic of a reduce ([`body_of`]), and the loop of any body behind a quiet part ([`loop_of`]), whatever
//! the quiet parts are. And it tells contracts what the reduce inside was fed and what it was charged, of a body and of
//! a loop in hand ([`body_inside`], [`loop_inside`]): so no contract above has to name the parts one by one.
#![tactic(auto)]

mod inside;
mod make;

pub use inside::{body_inside, loop_inside};
pub use make::{KeyedBody, KeyedLoop, body_of, loop_of};
