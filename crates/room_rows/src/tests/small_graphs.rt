//! The graph that tables are of, and work is counted on.

ghost use Rattle.std.specs.Prelude.{◌≡◌, ◌≤◌, ◌<◌, [], ◌∷◌, length, All, IfOk};
ghost use Rattle.graph_model.specs.GraphData.{EndsAmong};

use graph_model::{EdgeNo, Graph, NodeNo};
use std::alloc::Global;
use surge_outside::{List, NoMemory};

fn ids(alloc: Global) -> Result<List<u64>, NoMemory>
    ensures { IfOk result (λ l. l ≡ 70 ∷ 3 ∷ []) }
{
    Ok(List::from_vec(Vec::from_slice(alloc, &[70, 3])?))
}

fn ends(alloc: Global) -> Result<List<(NodeNo, NodeNo)>, NoMemory>
    ensures count { IfOk result (λ l. length l ≡ 2) }
    ensures among { IfOk result (All (EndsAmong 2)) }
{
    let ends = [(NodeNo(0), NodeNo(1)), (NodeNo(0), NodeNo(1))];
    Ok(List::from_vec(Vec::from_slice(alloc, &ends)?))
}

/// The nodes 70 and 3, and two edges from 70 to 3.
pub(crate) fn two_edges(alloc: Global) -> Result<Graph, NoMemory>
    ensures nodes { IfOk result (λ g. length g.ids ≡ 2) }
    ensures edges { IfOk result (λ g. length g.ends ≡ 2) }
{
    let ids = ids(alloc)?;
    let ends = ends(alloc)?;
    let none = List::new(alloc);
    let empty = List::new(alloc);
    Graph::new(
        alloc,
        ids,
        none,
        empty,
        ends,
        List::new(alloc),
        List::new(alloc),
    )
}

/// Some of the edges: none, the first, both, or both in the other order.
pub(crate) fn edges_of(choice: u32) -> &'static [EdgeNo]
    ensures within { All (λ e. e.0 < 2) result.now }
    ensures few { length result.now ≤ 2 }
{
    match choice {
        0 => &[],
        1 => &[EdgeNo(0)],
        2 => &[EdgeNo(0), EdgeNo(1)],
        _ => &[EdgeNo(1), EdgeNo(0)],
    }
}
