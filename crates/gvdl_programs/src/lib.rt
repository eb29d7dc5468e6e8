//! Vertex programs of a script against a graph: the programs that a script writes, and the calls of programs.
//!
//! It stands on the trees of `gvdl_tree`, the columns of `graph_model`, the programs of `vertex_lang` and the built-in ones of
//! `graph_algos`. It offers [`declare`], which judges a written program ([`WrittenProgram`]) and keeps it with its properties as columns and its
//! parameters by their places ([`ProgramTemplate`]); and [`call`], which judges the arguments of a call and makes the
//! [`Program`](vertex_lang::Program) that is run. It says what it is to judge, too: to give a value or the first
//! [`Refusal`], and how a property's column is found ([`column_of`], [`int_column`]).
//! Its model is `specs/`: a tree is judged from the left by cases on it, and a call fills the numbers in. It promises exactly
//! that template, that program or that refusal, or that it found no memory; and that each program which a call makes fits the
//! graph that it was judged against.
#![tactic(auto)]

mod arguments;
mod column;
mod expression;
mod fill;
mod parameters;
mod refusal;
mod template;
mod written;

pub use arguments::call;
pub use column::{column_of, int_column};
pub use refusal::{Refusal, Stop};
pub use template::{Callable, CheckTemplate, ExprTemplate, ProgramTemplate};
pub use written::{WrittenProgram, declare};
