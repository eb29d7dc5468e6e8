//! Edges of a small graph.

ghost use Rattle.std.specs.Prelude.{◌<◌, ◌^◌, length, All, IfOk};

use graph_model::{EdgeNo, Graph};
use std::alloc::Global;
use surge_outside::NoMemory;

/// The edges of a view: of the first 32 ones those whose bit is set.
pub(super) fn edges_at(alloc: Global, graph: &Graph, bits: u32) -> Result<Vec<EdgeNo>, NoMemory>
    ensures within { IfOk result (λ edges. All (λ e. e.0 < length graph.now.ends) edges.items) }
    ensures few { IfOk result (λ edges. length edges.items < 2 ^ 31) }
{
    let mut edges = Vec::new(alloc);
    for edge in 0..graph.edge_count() {
        if edge < 32 && bits >> edge & 1 == 1 {
            edges.push(EdgeNo(edge))?;
        }
    }
    Ok(edges)
}
