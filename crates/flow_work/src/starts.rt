//! What a vertex program as a dataflow makes of starts that are given.

ghost use Rattle.std.specs.Prelude.{◌≡◌, ℕ};
ghost use Rattle.flow_core.specs.Runs.{Run};
ghost use Rattle.graph_model.specs.GraphData.{GraphData};
ghost use Rattle.vertex_lang.specs.declared.program.Program.{Program};
ghost use Rattle.flow_work.specs.Starts.{InnerIsFedFromStarts, LoopIsFromStarts, MakesStarts, RoundsAreFromStarts};
ghost use Rattle.flow_work.specs.Values.{start_apply};

use flow_core::Operator;
use graph_model::{NodeNo, Val};
use lattice_time::{Round, Time};
use loop_theory::LoopInput;
use trace_store::Trace;
use vertex_items::{NodeItem, StartInput, items_are_ordered, records_are_ordered};
use vertex_lang::{Arc, Updater};

/// Does nothing, and tells contracts of an operator whose function is that of a vertex program as a dataflow from given starts: at
/// each time at or above its seal with nothing due at or below it, where what was fed is one start a node and the arcs of a view,
/// what it made up to each round is the values after so many rounds that begin with these starts, once each.
pub fn makes_starts<
    T: Time,
    U: Updater,
    O: Operator<T, U, Input = StartInput, Output = (Round, (NodeNo, Val))>,
>(flow: &O)
    ensures { (p : Program) (graph : GraphData) (rounds : ℕ) → O.apply flow.now ≡ start_apply ⟦<NodeNo as Ord>⟧.cmp ⟦<Arc as Ord>⟧.cmp ⟦<NodeItem as Ord>⟧.cmp U.answer p graph rounds → (run : Run T StartInput (Round × (NodeNo × Val))) → O.stands flow.now run → MakesStarts T.leq U.answer p graph rounds (O.seal flow.now) (O.due flow.now) run }
{
    records_are_ordered::<NodeNo>();
    records_are_ordered::<Arc>();
    items_are_ordered();
}

/// In the loop of a program that is fed one start a node and the arcs of a view there are, after so many rounds, the values after so
/// many rounds that begin with these starts, once each.
pub fn rounds_are_from_starts()
    ensures { RoundsAreFromStarts }
{}

/// The function of a loop of a program makes, up to each round, of one start a node and the arcs of a view the values after so many
/// rounds that begin with these starts, once each.
pub fn loop_is_from_starts()
    ensures { LoopIsFromStarts }
{}

/// Where what such a dataflow was fed up to a time at which nothing is due is one start a node and the arcs of a view, the reduce
/// inside was fed the input of each node in each round from these starts.
pub fn inner_is_fed_from_starts<T: Time>()
    ensures { InnerIsFedFromStarts T T.leq T.lub }
{}
