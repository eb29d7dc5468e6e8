//! The theory of phrases: what it is for a parser that reads tokens from the left to be right.
//!
//! It stands on `surge_outside` and speaks of no language of its own. A grammar is written as a relation between lists of
//! tokens and trees, in the combinators of `specs/Phrases.antt`. A parse function has one clause, `Reads` of
//! `specs/Reading.antt`: where it answers a tree, the tokens that it took are a phrase with that tree, and no other list
//! of tokens that agrees with the input up to the token behind them is one; where it answers a fault, the token before
//! which it stopped is the first at which no phrase can go on, or the first that would open a level too many. The other
//! files of `specs/` prove how such clauses go together, by combinator: parts in a row, one of several, chains, parts
//! that may be left out, parts behind one more level, and from the front of the tokens to all of them.
#![tactic(auto)]

mod fault;

pub use fault::Fault;
