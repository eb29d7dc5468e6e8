//! Whether the arcs of a view have weights.

ghost use Rattle.std.specs.Prelude.{◌≡◌, ◌<◌, length, All, IsTrue, MatchBool};
ghost use Rattle.graph_model.specs.GraphData.{edge_cell_of};
ghost use Rattle.vertex_lang.specs.Arcs.{IsArc};
ghost use Rattle.vertex_lang.specs.Leaves.{is_int_column};
ghost use Rattle.graph_meanings.specs.Meanings.{HasWeights};
ghost use Rattle.graph_meanings.specs.Weights.{natural_of, weight_at};

use graph_model::{CellRef, EdgeNo, Graph};
use vertex_lang::Arc;

/// Where the sum of all weights has to end: 2^62.
const TOO_HEAVY: u64 = 1 << 62;

/// Whether each of these arcs has a number in this column of the edges that is not negative, and all of them together are
/// below 2^62. It stops at the first arc that says no.
pub fn has_weights(graph: &Graph, column: usize, arcs: &[Arc]) -> bool
    requires column { IsTrue (is_int_column graph.now.edge_columns column) }
    requires arcs { All (IsArc graph.now) arcs.now }
    ensures { MatchBool result (HasWeights graph.now column arcs.now) (HasWeights graph.now column arcs.now → ⊥) }
{
    let mut total = 0;
    for arc in arcs {
        let Some(weight) = weight_of(graph, column, arc.edge) else {
            return false;
        };
        if weight >= TOO_HEAVY - total {
            return false;
        }
        total += weight;
    }
    true
}

// The number of an edge in a column, where it is there and not negative.
fn weight_of(graph: &Graph, column: usize, edge: EdgeNo) -> Option<u64>
    requires edge { edge.0 < length graph.now.ends }
    requires column { column < length graph.now.edge_columns }
    ensures { result ≡ weight_at (edge_cell_of graph.now edge.0 column) }
{
    match graph.edge_cell(edge, column) {
        CellRef::Int(number) => natural(number),
        _ => None,
    }
}

// The number, where it is not negative.
fn natural(number: i64) -> Option<u64>
    ensures { result ≡ natural_of number }
{
    if number < 0 {
        return None;
    }
    Some(number as u64)
}
