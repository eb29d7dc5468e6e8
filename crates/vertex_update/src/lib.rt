//! What is made of a node in a vertex program as a dataflow.
//!
//! It stands on `vertex_items`, which says what a node gives under the words that it has. It offers [`evaluate`], what
//! the reduce of such a dataflow does with each node: it reads the node's words once, and where there is one start and
//! one value, each of weight 1, and fewer than 2^32 messages, it gathers the messages and asks the updater for the next
//! value. Words of another form give nothing, and the updater isn't called: its count rises by one where the node gives a
//! value, and else not. So each evaluation of a node is one call of the updater at most.
#![tactic(auto)]

mod evaluation;
mod found;
mod single;

pub use evaluation::evaluate;
