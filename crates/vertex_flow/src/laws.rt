//! What a dataflow of a program makes.

ghost use Rattle.std.specs.Prelude.{◌≡◌, ℕ};
ghost use Rattle.flow_core.specs.Runs.{Run};
ghost use Rattle.graph_model.specs.GraphData.{GraphData};
ghost use Rattle.vertex_lang.specs.declared.program.Program.{Program};
ghost use Rattle.flow_work.specs.Starts.{MakesStarts};
ghost use Rattle.flow_work.specs.Values.{MakesValues, flow_apply, start_apply};

use crate::flow::{StartFlow, VertexFlow};
use flow_core::Operator;
use flow_work::{makes_starts, makes_values};
use graph_model::{NodeNo, Val};
use lattice_time::{Round, Time};
use vertex_items::{FlowInput, NodeItem, StartInput};
use vertex_lang::{Arc, Updater};

/// Does nothing, and tells contracts of a dataflow that has the function of a program over a graph: at each time at or
/// above its seal with nothing due at or below it, where what was fed is a view, what it made up to each round is the
/// values of the plain run after that round, once each. It takes no memory.
pub fn tells_values<'g, T: Time, U: Updater>(flow: &VertexFlow<'g, T, U>)
    ensures { let it = ⟦<VertexFlow<'g, T, U> as Operator<T, U>>⟧ in (p : Program) (graph : GraphData) (rounds : ℕ) → it.apply flow.now ≡ flow_apply ⟦<NodeNo as Ord>⟧.cmp ⟦<Arc as Ord>⟧.cmp ⟦<NodeItem as Ord>⟧.cmp U.answer p graph rounds → (run : Run T FlowInput (Round × (NodeNo × Val))) → it.stands flow.now run → MakesValues T.leq U.answer p graph rounds (it.seal flow.now) (it.due flow.now) run }
{
    makes_values::<T, U, VertexFlow<'g, T, U>>(flow);
}

/// The same of a dataflow that has the function of a program over a graph from given starts: where what was fed is one start a node
/// and the arcs of a view, what it made up to each round is the values after so many rounds that begin with these starts, once
/// each. It takes no memory.
pub fn tells_starts<'g, T: Time, U: Updater>(flow: &StartFlow<'g, T, U>)
    ensures { let it = ⟦<StartFlow<'g, T, U> as Operator<T, U>>⟧ in (p : Program) (graph : GraphData) (rounds : ℕ) → it.apply flow.now ≡ start_apply ⟦<NodeNo as Ord>⟧.cmp ⟦<Arc as Ord>⟧.cmp ⟦<NodeItem as Ord>⟧.cmp U.answer p graph rounds → (run : Run T StartInput (Round × (NodeNo × Val))) → it.stands flow.now run → MakesStarts T.leq U.answer p graph rounds (it.seal flow.now) (it.due flow.now) run }
{
    makes_starts::<T, U, StartFlow<'g, T, U>>(flow);
}
