//! What a dataflow in phases makes.

ghost use Rattle.std.specs.Prelude.{◌≡◌, ◌≤◌, ℕ};
ghost use Rattle.flow_core.specs.Runs.{Run};
ghost use Rattle.graph_model.specs.GraphData.{GraphData};
ghost use Rattle.vertex_lang.specs.declared.program.Program.{Program};
ghost use Rattle.phase_flow.specs.Items.{phases_apply};
ghost use Rattle.phase_flow.specs.Phases.{LoopIsPhases, MakesPhases};

use crate::flow::PhaseFlow;
use crate::item::PhaseItem;
use flow_core::Operator;
use graph_model::{NodeNo, Val};
use lattice_time::{Pair, Round, Time};
use vertex_items::{NodeItem, StartInput, items_are_ordered, records_are_ordered};
use vertex_lang::{Arc, Updater};

/// The function of a dataflow in phases makes, of one start a node and the arcs of a view, up to each phase the values at its end,
/// once each, and the change of its last round.
pub fn loop_is_phases()
    ensures { LoopIsPhases }
{}

/// Does nothing, and tells contracts of an operator whose function is that of a vertex program in phases: at each time at or above
/// its seal with nothing due at or below it, where what was fed is one start a node and the arcs of a view, what it made up to each
/// phase is the values at its end, once each, and the change of its last round.
pub fn makes_phases<
    T: Time,
    U: Updater,
    O: Operator<T, U, Input = StartInput, Output = (Round, PhaseItem)>,
>(flow: &O)
    ensures { (p : Program) (graph : GraphData) (rounds phases : ℕ) → 1 ≤ rounds → O.apply flow.now ≡ phases_apply ⟦<NodeNo as Ord>⟧.cmp ⟦<Arc as Ord>⟧.cmp ⟦<NodeItem as Ord>⟧.cmp U.answer p graph rounds phases → (run : Run T StartInput (Round × PhaseItem)) → O.stands flow.now run → MakesPhases T.leq U.answer p graph rounds phases (O.seal flow.now) (O.due flow.now) run }
{
    records_are_ordered::<NodeNo>();
    records_are_ordered::<Arc>();
    items_are_ordered();
}

/// The same of a dataflow in phases in hand that has the function of a program over a graph, as a new one has, and as a step and a
/// seal leave it. It takes no memory.
pub fn tells_phases<
    T: Time,
    U: Updater,
    S: Operator<Pair<T, Round>, U, Input = StartInput, Output = (Round, (NodeNo, Val))>,
>(flow: &PhaseFlow<S, T, U>)
    ensures { let it = ⟦<PhaseFlow<S, T, U> as Operator<T, U>>⟧ in (p : Program) (graph : GraphData) (rounds phases : ℕ) → 1 ≤ rounds → it.apply flow.now ≡ phases_apply ⟦<NodeNo as Ord>⟧.cmp ⟦<Arc as Ord>⟧.cmp ⟦<NodeItem as Ord>⟧.cmp U.answer p graph rounds phases → (run : Run T StartInput (Round × PhaseItem)) → it.stands flow.now run → MakesPhases T.leq U.answer p graph rounds phases (it.seal flow.now) (it.due flow.now) run }
{
    makes_phases::<T, U, PhaseFlow<S, T, U>>(flow);
}
