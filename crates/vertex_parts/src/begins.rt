//! What begins with a node.

ghost use Rattle.std.specs.Prelude.{◌≡◌, [], OnOk};
ghost use Rattle.vertex_lang.specs.Leaves.{IsChecked};
ghost use Rattle.view_items.specs.Prepared.{begun, node_begins, start_begins};

use crate::InLoop;
use flow_core::Expand;
use graph_model::{Graph, NodeNo, Val};
use loop_theory::LoopInput;
use surge_outside::{List, NoMemory};
use vertex_items::{FixedItem, FlowInput, StartInput};
use vertex_lang::{Program, start};

/// A node of the graph begins with the start of the program, which stays beside it.
#[derive(Drop)]
pub struct NodeBegins<'g> {
    graph: &'g Graph,
    program: &'g Program,
    ghost checked: { IsChecked program.now graph.now },
}

/// A node of the graph begins with the start that is given, which stays beside it.
#[derive(Drop)]
pub struct StartBegins<'g> {
    graph: &'g Graph,
}

/// Pushes what begins with a node of the graph and a start.
fn begin(graph: &Graph, node: NodeNo, value: Val, into: &mut List<InLoop>) -> Result<(), NoMemory>
    requires { into.old ≡ [] }
    ensures { OnOk result (into.new ≡ begun graph.now node value) }
{
    if node.0 < graph.node_count() {
        into.push(LoopInput::Fixed(FixedItem::Start(node, value)))?;
        into.push(LoopInput::Moving((node, value)))?;
    }
    Ok(())
}

impl<'g> NodeBegins<'g> {
    /// The function over a graph, against which the program was checked. It takes no memory.
    pub fn new(graph: &'g Graph, program: &'g Program) -> NodeBegins<'g>
        requires { IsChecked program.now graph.now }
        ensures { ⟦<NodeBegins<'g> as Expand<FlowInput, InLoop>>⟧.gives result ≡ node_begins program.now graph.now }
    {
        NodeBegins { graph, program }
    }
}

impl<'g> StartBegins<'g> {
    /// The function over a graph. It takes no memory.
    pub fn new(graph: &'g Graph) -> StartBegins<'g>
        ensures { ⟦<StartBegins<'g> as Expand<StartInput, InLoop>>⟧.gives result ≡ start_begins graph.now }
    {
        StartBegins { graph }
    }
}

impl<'g> Expand<FlowInput, InLoop> for NodeBegins<'g> {
    ghost gives = { λ s. node_begins s.program.now s.graph.now };

    fn expand(&self, a: FlowInput, into: &mut List<InLoop>) -> Result<(), NoMemory> {
        match a {
            FlowInput::Node(node) => {
                if node.0 < self.graph.node_count() {
                    let value = start(self.program, self.graph, node);
                    return begin(self.graph, node, value, into);
                }
                Ok(())
            }
            FlowInput::Arc(_) => Ok(()),
        }
    }
}

impl<'g> Expand<StartInput, InLoop> for StartBegins<'g> {
    ghost gives = { λ s. start_begins s.graph.now };

    fn expand(&self, a: StartInput, into: &mut List<InLoop>) -> Result<(), NoMemory> {
        match a {
            StartInput::Start(node, value) => begin(self.graph, node, value, into),
            StartInput::Arc(_) => Ok(()),
        }
    }
}
