//! What an operator is, and the operators that take no memory of what they were fed.
//!
//! A dataflow is made of operators. Each is fed changes of a collection, at partially ordered times, and makes the
//! changes of a function of that collection, as in differential dataflow (McSherry, Murray, Isaacs and Isard, 2013).
//! This room stands on the times of `lattice_time` and the batches of `weighted`; joins, reduces and loops stand on it.
//! It offers the trait [`Operator`], a function on each record to one ([`Map`]) or to several ([`FlatMap`]), a test on
//! each record ([`Filter`]), the sum of two collections ([`Concat`]), operators one after the other ([`Chain`]) and
//! side by side ([`Fork`]), one past which a part of what comes in goes ([`Bypass`]), one whose calls are not counted
//! ([`Quiet`]), and the two sides of a batch ([`split`]). What an operator means is a relation to its runs
//! (`specs/Runs`): which steps it took, and what each was fed and made. Its promise: at each time at or above the seal
//! with nothing due at or below it, what was made sums to the function of the sum of what was fed.
#![tactic(auto)]

mod bypass;
mod chain;
mod closing;
mod concat;
mod each;
mod earlier;
mod expand;
mod filter;
mod flat_map;
mod fork;
mod keep;
mod laws;
mod map;
mod operator;
mod quiet;
mod side;

pub use bypass::Bypass;
pub use chain::Chain;
pub use closing::{settled, settled_below};
pub use concat::Concat;
pub use each::Each;
pub use expand::Expand;
pub use filter::Filter;
pub use flat_map::FlatMap;
pub use fork::Fork;
pub use keep::Keep;
pub use laws::lawful;
pub use map::Map;
pub use operator::Operator;
pub use quiet::{NoCalls, Quiet};
pub use side::{Side, split};
