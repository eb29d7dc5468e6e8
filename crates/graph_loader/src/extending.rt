//! From a further file of edges to a graph with more edges.

ghost use Rattle.std.specs.Prelude.{◌≡◌, ◌≢◌, ◌≤◌, ◌++◌, ◌∷◌, [], false, length, nat_eq, IfErr, IfOk, OnErr, OnOk};
ghost use Rattle.std.specs.List.{list_any};
ghost use Rattle.graph_loader.specs.Answers.{IfFault};
ghost use Rattle.graph_loader.specs.DataFiles.{extended};
ghost use Rattle.graph_loader.specs.declared.fault.DataKind.TheVariants as wrong;

use crate::edges::more_edges;
use crate::fault::LoadFault;
use graph_model::{Graph, NodeNo};
use indexmap::IndexSet;
use std::alloc::Global;
use surge_outside::NoMemory;

/// Adds the edges of a further file, which the statement with this number names, behind those of the graph.
///
/// The file is read as the edges file of [`load`](crate::load) is, but for two things. Its header has the fields `src` and
/// `dst` and then the properties of the graph's edges, their names and kinds in the same order: the first field that differs,
/// is missing or is one too many is `BadHeader` in its column. And the edges that are there count for the limit: the record
/// that would be edge 4,000,001 of the graph is `TooManyEdges`.
///
/// The time is that of reading the file, of a table of the nodes' ids, and of a look-up for each end.
///
/// `Fault` tells the first fault, in the order of [`load`](crate::load), and `NoMemory` that a request for memory was refused.
/// Either leaves the graph as it was.
pub fn extend(
    alloc: Global,
    graph: &mut Graph,
    edges: &[u8],
    statement: u32,
) -> Result<(), LoadFault>
    ensures ok { OnOk result (extended statement edges.now graph.old ≡ Ok graph.new) }
    ensures fault { IfErr result (λ e. IfFault e (λ f. extended statement edges.now graph.old ≡ Err f)) }
    ensures size { IfErr result (λ e. IfFault e (λ f. f.kind ≢ wrong.TooLarge)) }
    ensures same { OnErr result (graph.new ≡ graph.old) }
{
    let ids = ids_of(alloc, graph)?;
    let more = more_edges(alloc, graph, &ids, edges, statement)?;
    Ok(graph.add_edges(more.ends, more.cells)?)
}

/// The ids of a graph's nodes, in the order of their numbers.
fn ids_of(alloc: Global, graph: &Graph) -> Result<IndexSet<u64>, NoMemory>
    ensures same { IfOk result (λ ids. ids.keys ≡ graph.now.ids) }
    ensures few { IfOk result (λ ids. length ids.keys ≤ 1_000_000) }
{
    let mut ids = IndexSet::new(alloc);
    for n in 0..graph.node_count() {
        add_id(&mut ids, graph.id(NodeNo(n)))?;
    }
    Ok(ids)
}

/// Adds the id of a node to those of the nodes before it, none of which has it.
fn add_id(ids: &mut IndexSet<u64>, id: u64) -> Result<(), NoMemory>
    requires { list_any (nat_eq id) ids.old.keys ≡ false }
    ensures { OnOk result (ids.new.keys ≡ ids.old.keys ++ id ∷ []) }
{
    match ids.insert_full(id) {
        Ok(_) => Ok(()),
        Err(_) => Err(NoMemory),
    }
}
