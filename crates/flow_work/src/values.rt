//! The values that a vertex program as a dataflow makes.

ghost use Rattle.std.specs.Prelude.{◌≡◌, ℕ};
ghost use Rattle.flow_core.specs.Runs.{Run};
ghost use Rattle.graph_model.specs.GraphData.{GraphData};
ghost use Rattle.vertex_lang.specs.declared.program.Program.{Program};
ghost use Rattle.flow_work.specs.Values.{MakesValues, flow_apply};

use flow_core::Operator;
use graph_model::{NodeNo, Val};
use lattice_time::{Round, Time};
use vertex_items::{FlowInput, NodeItem, items_are_ordered, records_are_ordered};
use vertex_lang::{Arc, Updater};

/// Does nothing, and tells contracts of an operator whose function is that of a vertex program as a dataflow: at each
/// time at or above its seal with nothing due at or below it, where what was fed is a view, what it made up to each
/// round is the values of the plain run after that round, once each.
pub fn makes_values<
    T: Time,
    U: Updater,
    O: Operator<T, U, Input = FlowInput, Output = (Round, (NodeNo, Val))>,
>(flow: &O)
    ensures { (p : Program) (graph : GraphData) (rounds : ℕ) → O.apply flow.now ≡ flow_apply ⟦<NodeNo as Ord>⟧.cmp ⟦<Arc as Ord>⟧.cmp ⟦<NodeItem as Ord>⟧.cmp U.answer p graph rounds → (run : Run T FlowInput (Round × (NodeNo × Val))) → O.stands flow.now run → MakesValues T.leq U.answer p graph rounds (O.seal flow.now) (O.due flow.now) run }
{
    records_are_ordered::<NodeNo>();
    records_are_ordered::<Arc>();
    items_are_ordered();
}
