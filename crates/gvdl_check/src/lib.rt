//! The check of a script against its graph: names, types and limits.
//!
//! It stands on the trees of `gvdl_tree`, the columns of `graph_model`, the checked predicates of `edge_predicates`, the
//! written and called programs of `gvdl_programs` and the rules of `segment_split`; of `gvdl_parser` it uses what
//! a script is.
//! It offers [`check`] and the [`Plan`] that it answers: views with the predicates of all views that they stand on, with
//! properties as columns, and what each statement asks for. The rooms above run a plan and judge nothing more.
//! Its model is `specs/Plans.antt`: statements are judged one after the other, each over what is known then, and the first
//! refusal is the answer. It promises exactly that plan or that fault; where it finds no memory it says so. Names are looked up in a table of hashes, so a script is checked in time of its length and of
//! what its plan holds.
#![tactic(auto)]

mod call;
mod copies;
mod fault;
mod form;
mod item;
mod keep;
mod known;
mod laws;
mod names;
mod plan;
mod predicate;
mod script;
mod singles;
mod statement;
mod window;

pub use fault::{CheckFault, StatementFault};
pub use laws::{
    plans_continue, plans_fit, plans_hold_no_lowest, plans_name_lines, plans_without_shows,
};
pub use plan::{CollectionPlan, OrderRule, Plan, RunPlan, Step, ViewPlan};
pub use script::check;
