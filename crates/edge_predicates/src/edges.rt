//! The edges of a view.

ghost use Rattle.std.specs.Prelude.{◌≡◌, ◌<◌, ◌≤◌, length, All, IfOk};
ghost use Rattle.edge_predicates.specs.ViewEdges.{view_edges};

use crate::pred::ViewRule;
use crate::truth::rule_holds;
use graph_model::{EdgeNo, Graph};
use std::alloc::Global;
use surge_outside::{List, NoMemory};

/// The edges of a view, at most 4,000,000, in the order of the file. Each predicate is evaluated once for each edge. The
/// one error is want of memory.
pub fn view_edges(alloc: Global, rule: &ViewRule, graph: &Graph) -> Result<List<EdgeNo>, NoMemory>
    ensures edges { IfOk result (λ edges. edges ≡ view_edges graph.now rule.now) }
    ensures within { IfOk result (All (λ e. e.0 < length graph.now.ends)) }
    ensures few { IfOk result (λ edges. length edges ≤ 4_000_000) }
{
    let mut edges = List::new(alloc);
    for number in 0..graph.edge_count() {
        let edge = EdgeNo(number);
        let is_in = rule_holds(rule, graph, edge);
        if is_in {
            edges.push(edge)?;
        }
    }
    Ok(edges)
}
