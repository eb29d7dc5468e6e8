//! The run of the reduce inside a vertex program as a dataflow, and what it is charged.

ghost use Rattle.std.specs.Prelude.{◌≡◌, ℕ};
ghost use Rattle.flow_core.specs.Runs.{Run};
ghost use Rattle.graph_model.specs.GraphData.{GraphData};
ghost use Rattle.vertex_lang.specs.declared.program.Program.{Program};
ghost use Rattle.flow_work.specs.Inner.{InnerRun};
ghost use Rattle.flow_work.specs.Starts.{InnerFromStarts, start_parts};
ghost use Rattle.flow_work.specs.Turns.{ChargesWork};
ghost use Rattle.flow_work.specs.Values.{flow_parts};

use crate::flow::{OneRound, StartFlow, VertexFlow};
use crate::prep::{FlowPrep, StartPrep};
use flow_core::Operator;
use flow_work::{inner_is_fed_from_starts, inner_is_fed_inputs, turn_is_work};
use graph_model::{NodeNo, Val};
use keyed_loop::{body_inside, loop_inside};
use lattice_time::{Pair, Round, Time};
use vertex_items::{
    FixedItem, FlowInput, NodeItem, StartInput, items_are_ordered, records_are_ordered,
};
use vertex_lang::{Arc, Updater};

/// Does nothing, and tells contracts of a dataflow in hand, whose parts have the functions of a program over a graph
/// (as a new one's have, and a step and a seal leave them), the run of the reduce inside it, for each run for which it
/// stands: that it takes a step a round of each step, and is sealed at round 0 where the whole is sealed; that where
/// what was fed is a view each node was fed its inputs in each round; that each step of the whole was charged what its
/// rounds were, and each of these since the seal the nodes that are evaluated at it; and that these are all that is
/// charged. So a step at a time adds the pairs of a node and a round that are evaluated there; and where it was sealed
/// at one view and then stepped once to another, what it was charged since the seal is the work of that view behind the
/// other one. It takes no memory.
pub fn inner_run<'g, T: Time, U: Updater>(flow: &VertexFlow<'g, T, U>)
    ensures inner { let it = ⟦<VertexFlow<'g, T, U> as Operator<T, U>>⟧ in (p : Program) (graph : GraphData) (rounds : ℕ) → flow_parts ⟦<NodeNo as Ord>⟧.cmp ⟦<Arc as Ord>⟧.cmp ⟦<NodeItem as Ord>⟧.cmp U.answer p graph rounds ≡ it.kept flow.now → (run : Run T FlowInput (Round × (NodeNo × Val))) → it.stands flow.now run → InnerRun T.leq T.lub ⟦<Pair<T, Round> as Ord>⟧.cmp ⟦<NodeNo as Ord>⟧.cmp ⟦<NodeItem as Ord>⟧.cmp U.answer p graph rounds (it.seal flow.now) (it.due flow.now) (it.charge flow.now) run }
    ensures work { let it = ⟦<VertexFlow<'g, T, U> as Operator<T, U>>⟧ in (p : Program) (graph : GraphData) (rounds : ℕ) → flow_parts ⟦<NodeNo as Ord>⟧.cmp ⟦<Arc as Ord>⟧.cmp ⟦<NodeItem as Ord>⟧.cmp U.answer p graph rounds ≡ it.kept flow.now → (run : Run T FlowInput (Round × (NodeNo × Val))) → it.stands flow.now run → ChargesWork T.leq U.answer p graph rounds (it.seal flow.now) (it.due flow.now) (it.charge flow.now) run }
{
    let body: &OneRound<'g, Pair<T, Round>, U> = flow.second().body();
    body_inside(body);
    loop_inside::<
        T,
        U,
        FixedItem,
        NodeNo,
        NodeItem,
        Val,
        FlowPrep<'g, T>,
        OneRound<'g, Pair<T, Round>, U>,
    >(flow, body);
    inner_is_fed_inputs::<T>();
    turn_is_work::<T>();
    records_are_ordered::<Pair<T, Round>>();
    records_are_ordered::<NodeNo>();
    records_are_ordered::<Arc>();
    items_are_ordered();
}

/// The same of a dataflow from starts that are given: where what was fed is one start a node and the arcs of a view, each node was
/// fed its input in each round from these starts. It takes no memory.
pub fn start_run<'g, T: Time, U: Updater>(flow: &StartFlow<'g, T, U>)
    ensures { let it = ⟦<StartFlow<'g, T, U> as Operator<T, U>>⟧ in (p : Program) (graph : GraphData) (rounds : ℕ) → start_parts ⟦<NodeNo as Ord>⟧.cmp ⟦<Arc as Ord>⟧.cmp ⟦<NodeItem as Ord>⟧.cmp U.answer p graph rounds ≡ it.kept flow.now → (run : Run T StartInput (Round × (NodeNo × Val))) → it.stands flow.now run → InnerFromStarts T.leq T.lub ⟦<Pair<T, Round> as Ord>⟧.cmp ⟦<NodeNo as Ord>⟧.cmp ⟦<NodeItem as Ord>⟧.cmp U.answer p graph rounds (it.seal flow.now) (it.due flow.now) (it.charge flow.now) run }
{
    let body: &OneRound<'g, Pair<T, Round>, U> = flow.second().body();
    body_inside(body);
    loop_inside::<
        T,
        U,
        FixedItem,
        NodeNo,
        NodeItem,
        Val,
        StartPrep<'g, T>,
        OneRound<'g, Pair<T, Round>, U>,
    >(flow, body);
    inner_is_fed_from_starts::<T>();
    records_are_ordered::<NodeNo>();
    records_are_ordered::<Arc>();
    items_are_ordered();
}
