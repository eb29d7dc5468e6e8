//! The arcs of a view.

ghost use Rattle.std.specs.Prelude.{◌≡◌, ◌<◌, ◌≤◌, ◌*◌, ◌++◌, length, All, IfOk, OnOk};
ghost use Rattle.vertex_lang.specs.Arcs.{arcs_between, arcs_of_edge, forward, backward, IsArc};

use crate::program::Along;
use graph_model::{EdgeNo, Graph, NodeNo};
use std::alloc::Global;
use surge_outside::{List, NoMemory, Record};

/// An edge in the direction in which it carries a message, from the tail to the head. `back` tells an arc against its
/// edge.
#[derive(Clone, Copy, Debug, PartialEq, Eq, PartialOrd, Ord)]
pub struct Arc {
    pub tail: NodeNo,
    pub head: NodeNo,
    pub edge: EdgeNo,
    pub back: bool,
}

impl Record for Arc {
    ghost use Rattle.vertex_lang.specs.SameArc.{arc_same};

    ghost same = { arc_same };
}

/// The arcs of these edges, in their order. Along `Out` an edge gives the arc from its source to its destination, along
/// `In` the one back, and along `Both` first the one and then the other, also where it leads from a node to itself.
/// Parallel edges each give their own. The error is want of memory.
pub fn arcs_of(
    alloc: Global,
    graph: &Graph,
    along: Along,
    edges: &[EdgeNo],
) -> Result<List<Arc>, NoMemory>
    requires { All (λ e. e.0 < length graph.now.ends) edges.now }
    ensures arcs { IfOk result (λ arcs. arcs ≡ arcs_between along graph.now edges.now) }
    ensures within { IfOk result (λ arcs. All (IsArc graph.now) arcs) }
    ensures few { IfOk result (λ arcs. length arcs ≤ 2 * length edges.now) }
{
    let mut arcs = List::new(alloc);
    for edge in edges {
        push_arcs(&mut arcs, graph, along, *edge)?;
    }
    Ok(arcs)
}

// Adds the arcs of one edge.
fn push_arcs(
    arcs: &mut List<Arc>,
    graph: &Graph,
    along: Along,
    edge: EdgeNo,
) -> Result<(), NoMemory>
    requires { edge.0 < length graph.now.ends }
    ensures arcs { OnOk result (arcs.new ≡ arcs.old ++ arcs_of_edge along graph.now edge) }
    ensures within { All (IsArc graph.now) (arcs_of_edge along graph.now edge) }
{
    let forward = forward_arc(graph, edge);
    let backward = backward_arc(graph, edge);
    match along {
        Along::Out => arcs.push(forward),
        Along::In => arcs.push(backward),
        Along::Both => {
            arcs.push(forward)?;
            arcs.push(backward)
        }
    }
}

// The arc from the source of an edge to its destination.
fn forward_arc(graph: &Graph, edge: EdgeNo) -> Arc
    requires { edge.0 < length graph.now.ends }
    ensures arc { result ≡ forward graph.now edge }
    ensures within { IsArc graph.now result }
{
    Arc {
        tail: graph.src(edge),
        head: graph.dst(edge),
        edge,
        back: false,
    }
}

// The arc from the destination of an edge to its source.
fn backward_arc(graph: &Graph, edge: EdgeNo) -> Arc
    requires { edge.0 < length graph.now.ends }
    ensures arc { result ≡ backward graph.now edge }
    ensures within { IsArc graph.now result }
{
    Arc {
        tail: graph.dst(edge),
        head: graph.src(edge),
        edge,
        back: true,
    }
}
