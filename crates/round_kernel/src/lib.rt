//! One step of a segment: the plain run of a view, found from that of the view before it.
//!
//! It stands on `vertex_lang`, whose plain runs its contracts speak of, and on `lone_work`, whose count of work it meets
//! exactly. What it keeps of arcs, messages, values and changes is in `arc_rows`, `message_forms`, `value_codes` and
//! `change_lists`; what nodes send and get in a round, and which of them are looked at, in `round_messages`, `round_inputs` and
//! `waiting_nodes`. Of a view a history is kept: by round, which nodes changed and to which value, and which nodes got another
//! input than in the round before. A [`Kernel`] holds the arcs, and what a step leaves to the next one.
//! [`Kernel::first_step`] makes the history of the first view of a segment, and [`Kernel::next_step`] that of a view from the
//! history of the one before it; both answer the outcome of the plain run, how its last values differ, and the work, which is the
//! number of calls of the updater. [`Kernel::only_step`] and [`Kernel::last_step`] answer the same of a view behind which none
//! comes: nobody reads its history, so none is kept.
//! Differences are taken in order of rounds, and a node is evaluated exactly where the work counts it: rounds behind the last
//! change of both views cost nothing. (Differences at pairs of a version and a round: McSherry, Murray, Isaacs and Isard 2013.)
#![tactic(auto)]

mod copies;
mod ended;
mod frame;
mod kernel;
mod log;
mod lookups;
mod made;
mod plan;
mod round;
mod same;
mod sorted;
mod source;
mod spare;
mod spot;
mod state;
mod step;
mod suspects;
mod values;
mod visit;
mod waiting;

pub use ended::Ended;
pub use kernel::Kernel;
pub use plan::{Behind, Plan};
pub use step::Stepped;
