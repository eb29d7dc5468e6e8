//! What a script says, as a tree.
//!
//! It stands on `surge_outside`, whose lists, texts and boxes contracts see as plain data. So two trees are equal to a
//! contract exactly where they say the same: the relation between texts and trees, the check and the printer all speak of
//! these types. A [`Script`] is a load and the [`Statement`]s after it; predicates on edges are [`PredTree`]s, the parts
//! of programs are [`ExprTree`]s. Chains (`a or b or c`, `1 + 2 - 3`) are kept as written: a chain of one member is that
//! member, parentheses leave no node of their own, but a chain in parentheses inside a chain of the same kind stays a
//! node. The language is that of views over one graph (Sahu and Salihoglu 2021).
#![tactic(auto)]

mod expression;
mod predicate;
mod script;

pub use expression::{ExprTree, Test, Word};
pub use predicate::{Cmp, Field, Operand, PredTree};
pub use script::{
    Along, Arg, Call, Gather, Item, ItemBody, OrderWord, Script, SplitWord, Statement,
};
