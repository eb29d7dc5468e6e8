//! What comes into the loop from arcs.

ghost use Rattle.std.specs.Prelude.{◌≡◌, [], OnOk};
ghost use Rattle.view_items.specs.Prepared.{arc_in_loop, flow_tails, has_arc, start_tails, tailed};

use crate::InLoop;
use flow_core::{Each, Expand};
use graph_model::{Graph, NodeNo};
use loop_theory::LoopInput;
use surge_outside::{List, NoMemory};
use vertex_items::{FixedItem, FlowInput, StartInput};
use vertex_lang::Arc;

/// An arc of the graph, by its tail, where nodes are fed too.
#[derive(Drop)]
pub struct FlowTails<'g> {
    graph: &'g Graph,
}

/// An arc of the graph, by its tail, where starts are fed too.
#[derive(Drop)]
pub struct StartTails<'g> {
    graph: &'g Graph,
}

/// An arc with the degree that is told, as it stands in the loop.
#[derive(Drop)]
pub struct ArcInLoop;

/// Whether the graph has the numbers of an arc.
fn has_arc(graph: &Graph, arc: Arc) -> bool
    ensures { result ≡ has_arc graph.now arc }
{
    let tail = arc.tail.0 < graph.node_count();
    let head = arc.head.0 < graph.node_count();
    let edge = arc.edge.0 < graph.edge_count();
    tail && (head && edge)
}

/// Pushes an arc of the graph, by its tail.
fn push_tailed(graph: &Graph, arc: Arc, into: &mut List<(NodeNo, Arc)>) -> Result<(), NoMemory>
    requires { into.old ≡ [] }
    ensures { OnOk result (into.new ≡ tailed graph.now arc) }
{
    if has_arc(graph, arc) {
        into.push((arc.tail, arc))?;
    }
    Ok(())
}

impl<'g> FlowTails<'g> {
    /// The function over a graph. It takes no memory.
    pub fn new(graph: &'g Graph) -> FlowTails<'g>
        ensures { ⟦<FlowTails<'g> as Expand<FlowInput, (NodeNo, Arc)>>⟧.gives result ≡ flow_tails graph.now }
    {
        FlowTails { graph }
    }
}

impl<'g> StartTails<'g> {
    /// The function over a graph. It takes no memory.
    pub fn new(graph: &'g Graph) -> StartTails<'g>
        ensures { ⟦<StartTails<'g> as Expand<StartInput, (NodeNo, Arc)>>⟧.gives result ≡ start_tails graph.now }
    {
        StartTails { graph }
    }
}

impl<'g> Expand<FlowInput, (NodeNo, Arc)> for FlowTails<'g> {
    ghost gives = { λ s. flow_tails s.graph.now };

    fn expand(&self, a: FlowInput, into: &mut List<(NodeNo, Arc)>) -> Result<(), NoMemory> {
        match a {
            FlowInput::Node(_) => Ok(()),
            FlowInput::Arc(arc) => push_tailed(self.graph, arc, into),
        }
    }
}

impl<'g> Expand<StartInput, (NodeNo, Arc)> for StartTails<'g> {
    ghost gives = { λ s. start_tails s.graph.now };

    fn expand(&self, a: StartInput, into: &mut List<(NodeNo, Arc)>) -> Result<(), NoMemory> {
        match a {
            StartInput::Start(_, _) => Ok(()),
            StartInput::Arc(arc) => push_tailed(self.graph, arc, into),
        }
    }
}

impl Each<(NodeNo, (Arc, u64)), InLoop> for ArcInLoop {
    ghost gives = { λ _. arc_in_loop };

    fn apply(&self, a: (NodeNo, (Arc, u64))) -> InLoop {
        let (_, (arc, degree)) = a;
        LoopInput::Fixed(FixedItem::Arc(arc, degree))
    }
}
