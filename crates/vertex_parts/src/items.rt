//! The items of nodes, from what is in the loop.

ghost use Rattle.std.specs.Prelude.{◌≡◌, ◌<◌, [], length};
ghost use Rattle.vertex_lang.specs.Leaves.{IsChecked};
ghost use Rattle.view_items.specs.Collections.{brought, is_sound, own_items, sends, sides};

use crate::InLoop;
use diff_join::Pairing;
use flow_core::{Expand, Side};
use graph_model::{Graph, NodeNo, Val};
use loop_theory::LoopInput;
use surge_outside::{List, NoMemory};
use vertex_items::{FixedItem, NodeItem};
use vertex_lang::{Arc, Program, send};

/// The start and the value of a node.
#[derive(Drop)]
pub struct OwnItems;

/// Arcs by their tails on the left side, and the values of nodes on the right one.
#[derive(Drop)]
pub struct Sides;

/// What an arc brings from the value of its tail to its head.
#[derive(Drop)]
pub struct Sends<'g> {
    graph: &'g Graph,
    program: &'g Program,
    ghost checked: { IsChecked program.now graph.now },
}

impl Expand<InLoop, (NodeNo, NodeItem)> for OwnItems {
    ghost gives = { λ _. own_items };

    fn expand(&self, a: InLoop, into: &mut List<(NodeNo, NodeItem)>) -> Result<(), NoMemory> {
        match a {
            LoopInput::Fixed(FixedItem::Start(node, value)) => {
                into.push((node, NodeItem::Start(value)))
            }
            LoopInput::Fixed(FixedItem::Arc(_, _)) => Ok(()),
            LoopInput::Moving((node, value)) => into.push((node, NodeItem::Own(value))),
        }
    }
}

impl Expand<InLoop, Side<(NodeNo, (Arc, u64)), (NodeNo, Val)>> for Sides {
    ghost gives = { λ _. sides };

    fn expand(
        &self,
        a: InLoop,
        into: &mut List<Side<(NodeNo, (Arc, u64)), (NodeNo, Val)>>,
    ) -> Result<(), NoMemory> {
        match a {
            LoopInput::Fixed(FixedItem::Start(_, _)) => Ok(()),
            LoopInput::Fixed(FixedItem::Arc(arc, degree)) => {
                into.push(Side::Left((arc.tail, (arc, degree))))
            }
            LoopInput::Moving((node, value)) => into.push(Side::Right((node, value))),
        }
    }
}

impl<'g> Sends<'g> {
    /// The messages of a program over a graph, against which it was checked. It takes no memory.
    pub fn new(graph: &'g Graph, program: &'g Program) -> Sends<'g>
        requires { IsChecked program.now graph.now }
        ensures { ⟦<Sends<'g> as Pairing<NodeNo, (Arc, u64), Val>>⟧.gives result ≡ sends program.now graph.now }
    {
        Sends { graph, program }
    }
}

/// Whether the graph has the tail and the edge of an arc, and fewer than 2^32 arcs are told.
fn is_sound(graph: &Graph, arc: Arc, degree: u64) -> bool
    ensures { result ≡ is_sound graph.now (arc, degree) }
{
    let tail = arc.tail.0 < graph.node_count();
    let edge = arc.edge.0 < graph.edge_count();
    let few = degree < 4_294_967_296;
    tail && (edge && few)
}

/// A message as an item; none isn't sent.
fn brought(head: NodeNo, message: Val) -> Option<(NodeNo, NodeItem)>
    ensures { result ≡ brought head message }
{
    match message {
        Val::Nil => None,
        Val::Num(number) => Some((head, NodeItem::Message(Val::Num(number)))),
    }
}

impl<'g> Pairing<NodeNo, (Arc, u64), Val> for Sends<'g> {
    type Output = (NodeNo, NodeItem);

    ghost gives = { λ s. sends s.program.now s.graph.now };

    fn pair(&self, _key: NodeNo, a: (Arc, u64), b: Val) -> Option<(NodeNo, NodeItem)> {
        let (arc, degree) = a;
        if !is_sound(self.graph, arc, degree) {
            return None;
        }
        let message = send(self.program, self.graph, arc.tail, b, degree, arc.edge);
        brought(arc.head, message)
    }
}
