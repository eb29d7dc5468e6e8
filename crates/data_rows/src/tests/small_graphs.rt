//! Graphs of small data files.

use graph_loader::load;
use graph_model::Graph;
use std::alloc::Global;
use std::test::Fail;

/// Four nodes.
pub(crate) const FOUR_NODES: &str = "id\n1\n2\n3\n4\n";

/// Four edges with a number.
pub(crate) const FOUR_EDGES: &str = "src,dst,y:int\n1,2,1\n2,3,1\n1,3,2\n3,4,3\n";

/// The graph of two files. Nothing is said of it, so that no proof reads them.
pub(crate) fn graph_of(alloc: Global, nodes: &str, edges: &str) -> Result<Graph, Fail> {
    let graph = load(alloc, nodes.as_bytes(), edges.as_bytes())?;
    Ok(graph)
}
