//! Views of a small graph.

ghost use Rattle.std.specs.Prelude.{◌<◌, ◌^◌, length, All, IfOk};
ghost use Rattle.vertex_lang.specs.Arcs.{IsArc};

use graph_model::{EdgeNo, Graph};
use std::alloc::Global;
use surge_outside::{List, NoMemory};
use vertex_lang::{Along, Arc, arcs_of};

/// The edges of a view: of the first 32 ones those whose bit is set.
fn edges_at(alloc: Global, graph: &Graph, bits: u32) -> Result<Vec<EdgeNo>, NoMemory>
    ensures within { IfOk result (λ edges. All (λ e. e.0 < length graph.now.ends) edges.items) }
    ensures few { IfOk result (λ edges. length edges.items < 2 ^ 31) }
{
    let mut edges = Vec::new(alloc);
    for edge in 0..graph.edge_count() {
        if edge < 32 && bits >> edge & 1 == 1 {
            edges.push(EdgeNo(edge))?;
        }
    }
    Ok(edges)
}

/// The arcs of a view.
pub(crate) fn arcs_at(
    alloc: Global,
    graph: &Graph,
    along: Along,
    bits: u32,
) -> Result<List<Arc>, NoMemory>
    ensures within { IfOk result (λ arcs. All (IsArc graph.now) arcs) }
    ensures few { IfOk result (λ arcs. length arcs < 2 ^ 32) }
{
    let edges = edges_at(alloc, graph, bits)?;
    arcs_of(alloc, graph, along, edges.as_slice())
}
