//! What an arc brings in a round of a view.

ghost use Rattle.std.specs.Prelude.{◌≡◌, ◌<◌, ◌^◌, not, length, All, IsTrue};
ghost use Rattle.graph_model.specs.declared.value.Val.{Val};
ghost use Rattle.vertex_lang.specs.Leaves.{IsChecked};
ghost use Rattle.vertex_lang.specs.Arcs.{IsArc};
ghost use Rattle.graph_model.specs.declared.value.Val.TheVariants.{Nil};
ghost use Rattle.vertex_lang.specs.Values.{added};
ghost use Rattle.message_forms.specs.Codes.{number_at};
ghost use Rattle.round_messages.specs.Sides.{all_brought_in, brings_in, IsSide, sends_in};
ghost use Rattle.value_codes.specs.Tallies.{tally_of};

use change_lists::differs;
use graph_model::{Graph, Val};
use message_forms::{send, step_column, stepped, value_of};
use value_codes::{Codes, Tally};
use vertex_lang::{Arc, Program};

/// A round of a view: which edges are in the view, the value of each node in the round, and how many arcs of the view leave
/// it.
#[derive(Clone, Copy)]
pub struct Side<'a> {
    pub edges: &'a [bool],
    pub degrees: &'a [u64],
    pub values: &'a [Val],
    /// Whether the message of a node is the same along all arcs that leave it, and is kept in `sent`.
    pub alike: bool,
    pub sent: &'a Codes,
}

/// What an arc brings: none where its edge is not in the view.
pub fn message(program: &Program, graph: &Graph, side: &Side<'_>, arc: Arc) -> Val
    requires checked { IsChecked program.now graph.now }
    requires arc { IsArc graph.now arc }
    requires side { IsSide program.now graph.now side.now }
    ensures { result ≡ brings_in program.now graph.now side.now arc }
{
    if side.edges[arc.edge.0 as usize] {
        send_along(program, graph, side, arc)
    } else {
        Val::Nil
    }
}

// What is sent along an arc, whether or not its edge is in the view. Where it is the value and a property of the edge
// added, it is added here.
fn send_along(program: &Program, graph: &Graph, side: &Side<'_>, arc: Arc) -> Val
    requires checked { IsChecked program.now graph.now }
    requires arc { IsArc graph.now arc }
    requires side { IsSide program.now graph.now side.now }
    ensures { result ≡ sends_in program.now graph.now side.now arc }
{
    let tail = arc.tail.0 as usize;
    if side.alike {
        return kept(side.sent, tail);
    }
    if let Some(column) = step_column(program) {
        return stepped(graph, side.values[tail], arc.edge, column);
    }
    send(
        program,
        graph,
        arc.tail,
        side.values[tail],
        side.degrees[tail],
        arc.edge,
    )
}

/// Whether none is sent along an arc, whether or not its edge is in the view.
pub fn sends_nothing(program: &Program, graph: &Graph, side: &Side<'_>, arc: Arc) -> bool
    requires checked { IsChecked program.now graph.now }
    requires arc { IsArc graph.now arc }
    requires side { IsSide program.now graph.now side.now }
    ensures { IsTrue result → sends_in program.now graph.now side.now arc ≡ Nil }
{
    !differs(send_along(program, graph, side, arc), Val::Nil)
}

/// The message, or the value, that is kept for a node.
pub fn kept(sent: &Codes, node: usize) -> Val
    requires { node < length sent.now }
    ensures { result ≡ number_at sent.now node }
{
    value_of(sent.at(node))
}

/// What all that these arcs bring comes to, in one pass over them.
pub fn tally(program: &Program, graph: &Graph, side: &Side<'_>, row: &[Arc]) -> Tally
    requires checked { IsChecked program.now graph.now }
    requires row { All (IsArc graph.now) row.now }
    requires few { length row.now < 2 ^ 32 }
    requires side { IsSide program.now graph.now side.now }
    ensures { result ≡ tally_of program.now.gather (all_brought_in program.now graph.now side.now row.now) }
{
    let mut tally = Tally::new();
    for arc in row {
        tally = tally.with(program.gather, message(program, graph, side, *arc));
    }
    tally
}
