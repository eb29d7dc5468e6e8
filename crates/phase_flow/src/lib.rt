//! A vertex program in phases as a dataflow over any time: a loop round a loop.
//!
//! It stands on `vertex_flow`, whose dataflow from given starts makes the rounds of a phase, and on the operators. It offers
//! [`phase_flow`], an operator from the starts of the nodes and the arcs of a view to what each phase comes to ([`PhaseItem`]): the
//! values at its end, and the change that its last round made. It is a loop ([`phases_over`]) whose body begins a phase with the
//! values of the one before, as loops stand within loops in differential dataflow (McSherry, Murray, Isaacs and Isard 2013). The
//! rounds of a phase are those of any dataflow from starts and arcs to values, made by whoever makes such ones ([`MakesRounds`],
//! [`StartFlows`]). It promises that an operator of this function makes, at each time at which what it was fed is one start a node
//! and a view, the phases of the program from these starts ([`tells_phases`], `specs/Phases`). The run of the same phases on the
//! views of an order, by plain runs, is offered again here ([`phased`]).
#![tactic(auto)]

mod flow;
mod item;
mod laws;
mod looped;
mod parts;
mod rounds;

pub use flow::{OnePhase, PhaseFlow, PhasePrep, phase_flow, phase_of, phases_over};
pub use item::PhaseItem;
pub use laws::{loop_is_phases, makes_phases, tells_phases};
pub use looped::Looped;
pub use parts::{Begins, Ends, Enters, InPhase};
pub use phase_runs::phased;
pub use rounds::{MakesRounds, StartFlows};
