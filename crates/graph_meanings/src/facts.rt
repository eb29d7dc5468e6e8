//! What holds of every graph, for contracts that speak of all its nodes.

ghost use Rattle.std.specs.Prelude.{◌≤◌, ◌<◌, ◌^◌, length, All};

use graph_model::{Graph, NodeNo};

/// There are at most 1,000,000 nodes.
pub(crate) fn nodes_are_few(graph: &Graph)
    ensures { length graph.now.ids ≤ 1_000_000 }
{
    let _ = graph.node_count();
}

/// Each id is below 2^63.
pub(crate) fn ids_are_small(graph: &Graph)
    ensures { All (λ id. id < 2 ^ 63) graph.now.ids }
{
    for node in 0..graph.node_count() {
        let _ = graph.id(NodeNo(node));
    }
}
