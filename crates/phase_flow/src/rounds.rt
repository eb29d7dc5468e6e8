//! Dataflows of the rounds of a program, made where their type is not to be seen.

ghost use Rattle.std.specs.Prelude.{◌≡◌, ◌≤◌};
ghost use Rattle.flow_core.specs.Runs.{IsFresh};
ghost use Rattle.vertex_lang.specs.Leaves.{IsChecked};
ghost use Rattle.flow_work.specs.Values.{start_apply};

use crate::looped::Looped;
use flow_core::Operator;
use graph_model::{Graph, NodeNo, Val};
use lattice_time::{Pair, Round, Time};
use std::alloc::Global;
use vertex_flow::{OneRound, StartPrep, start_flow};
use vertex_items::{NodeItem, StartInput};
use vertex_lang::{Arc, Program, Updater};

/// Makes dataflows from starts and arcs to values round by round. The type of one over pairs of pairs of times, written out, is
/// too large for a check; so a loop round it is generic in who makes it.
pub trait MakesRounds<'g, T: Time, U: Updater> {
    /// The dataflow.
    type Flow: Operator<T, U, Input = StartInput, Output = (Round, (NodeNo, Val))> + Drop;

    /// The dataflow of a program over a graph, against which it was checked, in 1 to 1,000,000 rounds, which was not stepped yet.
    /// It takes no memory; its steps use `alloc`.
    fn make(alloc: Global, graph: &'g Graph, program: &'g Program, rounds: u32) -> Self::Flow
        requires checked { IsChecked program.now graph.now }
        requires some { 1 ≤ rounds }
        requires few { rounds ≤ 1_000_000 }
        ensures fresh { IsFresh Self.Flow.stands Self.Flow.due Self.Flow.seal Self.Flow.spent T.least result }
        ensures apply { Self.Flow.apply result ≡ start_apply ⟦<NodeNo as Ord>⟧.cmp ⟦<Arc as Ord>⟧.cmp ⟦<NodeItem as Ord>⟧.cmp U.answer program.now graph.now rounds }
        ensures charge { Self.Flow.charge result ≡ 0 };
}

/// The dataflows of `vertex_flow`.
#[derive(Clone, Copy, Drop)]
pub struct StartFlows;

impl<'g, T: Time, U: Updater> MakesRounds<'g, T, U> for StartFlows {
    type Flow = Looped<StartPrep<'g, T>, OneRound<'g, Pair<T, Round>, U>, T, U>;

    fn make(
        alloc: Global,
        graph: &'g Graph,
        program: &'g Program,
        rounds: u32,
    ) -> Looped<StartPrep<'g, T>, OneRound<'g, Pair<T, Round>, U>, T, U> {
        Looped {
            flow: start_flow(alloc, graph, program, rounds),
        }
    }
}
