//! A vertex program in phases as a dataflow, made of its parts.

ghost use Rattle.std.specs.Prelude.{◌≡◌, ◌≤◌};
ghost use Rattle.flow_core.specs.Runs.{IsFresh};
ghost use Rattle.flow_core.specs.Expanded.{expanded};
ghost use Rattle.loop_theory.specs.Loops.{loop_apply};
ghost use Rattle.vertex_lang.specs.Leaves.{IsChecked};
ghost use Rattle.phase_flow.specs.Items.{begins, ends, enters, phases_apply};

use crate::item::PhaseItem;
use crate::parts::{Begins, Ends, Enters, InPhase};
use crate::rounds::MakesRounds;
use diff_iterate::Iterate;
use flow_core::{Chain, FlatMap, NoCalls, Operator, Quiet};
use graph_model::{Graph, NodeNo, Val};
use keyed_loop::loop_of;
use lattice_time::{Pair, Round, Time};
use std::alloc::Global;
use surge_outside::Counted;
use vertex_items::{NodeItem, StartInput};
use vertex_lang::{Arc, Program, Updater};

/// What comes into the loop of phases.
pub type PhasePrep<T> = FlatMap<Enters, StartInput, InPhase, T, NoCalls>;

/// One phase, whose rounds are those of a dataflow from starts and arcs.
pub type OnePhase<S, T, U> = Chain<
    FlatMap<Begins, InPhase, StartInput, T, U>,
    Chain<S, FlatMap<Ends, (Round, (NodeNo, Val)), PhaseItem, T, U>>,
>;

/// From the starts of the nodes and the arcs of a view to what each phase comes to: a loop of phases round such a dataflow.
pub type PhaseFlow<S, T, U> = Chain<
    Quiet<PhasePrep<T>>,
    Iterate<OnePhase<S, Pair<T, Round>, U>, T, U>,
>;

/// One phase, of so many rounds, of a dataflow that was not stepped yet. It takes no memory; its steps use `alloc`.
pub fn phase_of<
    T: Time,
    U: Counted,
    S: Operator<T, U, Input = StartInput, Output = (Round, (NodeNo, Val))>,
>(alloc: Global, flow: S, rounds: u32) -> OnePhase<S, T, U>
    requires { IsFresh S.stands S.due S.seal S.spent T.least flow }
    ensures fresh { let it = ⟦<OnePhase<S, T, U> as Operator<T, U>>⟧ in IsFresh it.stands it.due it.seal it.spent T.least result }
    ensures apply { ⟦<OnePhase<S, T, U> as Operator<T, U>>⟧.apply result ≡ (λ held. expanded (ends rounds) (S.apply flow (expanded begins held))) }
    ensures charge { ⟦<OnePhase<S, T, U> as Operator<T, U>>⟧.charge result ≡ S.charge flow }
{
    let begins: FlatMap<Begins, InPhase, StartInput, T, U> = FlatMap::new(alloc, Begins);
    let ends: FlatMap<Ends, (Round, (NodeNo, Val)), PhaseItem, T, U> = FlatMap::new(
        alloc,
        Ends::new(rounds),
    );
    let ended: Chain<S, FlatMap<Ends, (Round, (NodeNo, Val)), PhaseItem, T, U>> = Chain::new::<
        T,
        U,
    >(flow, ends);
    Chain::new::<T, U>(begins, ended)
}

/// The loop of so many phases, each of so many rounds, round a dataflow that was not stepped yet. It takes no memory; its steps
/// use `alloc`.
pub fn phases_over<
    T: Time,
    U: Counted,
    S: Operator<Pair<T, Round>, U, Input = StartInput, Output = (Round, (NodeNo, Val))>,
>(alloc: Global, flow: S, rounds: u32, phases: u32) -> PhaseFlow<S, T, U>
    requires fresh { IsFresh S.stands S.due S.seal S.spent ⟦<Pair<T, Round> as Time>⟧.least flow }
    requires some { 1 ≤ phases }
    requires few { phases ≤ 1_000 }
    ensures fresh { let it = ⟦<PhaseFlow<S, T, U> as Operator<T, U>>⟧ in IsFresh it.stands it.due it.seal it.spent T.least result }
    ensures apply { ⟦<PhaseFlow<S, T, U> as Operator<T, U>>⟧.apply result ≡ (λ fed. loop_apply (λ held. expanded (ends rounds) (S.apply flow (expanded begins held))) phases (expanded enters fed)) }
    ensures charge { ⟦<PhaseFlow<S, T, U> as Operator<T, U>>⟧.charge result ≡ S.charge flow }
{
    let prep: PhasePrep<T> = FlatMap::new(alloc, Enters);
    let body: OnePhase<S, Pair<T, Round>, U> = phase_of(alloc, flow, rounds);
    loop_of(alloc, prep, body, phases)
}

/// The dataflow of a program over a graph, against which it was checked, in 1 to 1,000 phases of 1 to 1,000,000 rounds each, round a
/// dataflow of its rounds that is made for it. It takes no memory; its steps use `alloc`.
pub fn phase_flow<'g, T: Time, U: Updater, R: MakesRounds<'g, Pair<T, Round>, U>>(
    alloc: Global,
    graph: &'g Graph,
    program: &'g Program,
    rounds: u32,
    phases: u32,
) -> PhaseFlow<R::Flow, T, U>
    requires checked { IsChecked program.now graph.now }
    requires some { 1 ≤ rounds }
    requires limit { rounds ≤ 1_000_000 }
    requires begun { 1 ≤ phases }
    requires few { phases ≤ 1_000 }
    ensures fresh { let it = ⟦<PhaseFlow<R::Flow, T, U> as Operator<T, U>>⟧ in IsFresh it.stands it.due it.seal it.spent T.least result }
    ensures apply { ⟦<PhaseFlow<R::Flow, T, U> as Operator<T, U>>⟧.apply result ≡ phases_apply ⟦<NodeNo as Ord>⟧.cmp ⟦<Arc as Ord>⟧.cmp ⟦<NodeItem as Ord>⟧.cmp U.answer program.now graph.now rounds phases }
    ensures charge { ⟦<PhaseFlow<R::Flow, T, U> as Operator<T, U>>⟧.charge result ≡ 0 }
{
    let flow: R::Flow = R::make(alloc, graph, program, rounds);
    phases_over(alloc, flow, rounds, phases)
}
