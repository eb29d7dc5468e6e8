//! From two data files to a graph.

ghost use Rattle.std.specs.Prelude.{◌≡◌, ◌≢◌, IfErr, IfOk};
ghost use Rattle.graph_model.specs.GraphData.{IsGraphData};
ghost use Rattle.graph_loader.specs.Answers.{IfFault};
ghost use Rattle.graph_loader.specs.DataFiles.{graph_of};
ghost use Rattle.graph_loader.specs.declared.fault.DataKind.TheVariants as wrong;

use crate::edges::{EdgeList, EdgeTable, edge_table};
use crate::fault::LoadFault;
use crate::nodes::{NodeTable, node_table};
use graph_model::Graph;
use std::alloc::Global;
use surge_outside::{List, NoMemory};

/// The graph that the bytes of a nodes file and of an edges file spell, or their first fault.
///
/// Both are comma-separated (RFC 4180): fields are plain or stand in double quotes, a record ends at a line's end, and
/// blank lines are no records. One byte order mark at the start of a file is skipped.
///
/// - The header of the nodes file is `id`, and that of the edges file is `src`, `dst`; behind these each has up to 16
///   properties `name:kind`, of kind `int`, `str` or `bool`. The last colon parts the two. The name is text with no
///   control byte, isn't empty, isn't `id`, `src` or `dst`, and no earlier property of the file has it.
/// - Each other record, of which there are up to 1,000,000 nodes and up to 4,000,000 edges, has a field for each field of
///   the header. An id is 1 to 19 decimal digits of value at most 2^63 - 1; leading zeros don't count. No two nodes have
///   one id, and each end of an edge is the id of a node.
/// - The field of a property is text. Of kind `int` it is empty, which is an absent cell, or a number from -(2^63 - 1) to
///   2^63 - 1 as 1 to 19 digits behind an optional minus sign; of kind `bool` it is empty or one of `true`, `True`,
///   `TRUE`, `false`, `False` and `FALSE`; of kind `str` it is any text, and never absent.
///
/// Nodes and edges are numbered in the order of the files, from 0. The time is that of reading the files, of a look-up for
/// each id and each end, and of a sort of the nodes.
///
/// `Fault` tells the first fault. The nodes file is judged wholly before the edges file, and each file record by record
/// from the top: the header from the left, and of another record first whether there is one too many, then how many
/// fields it has, then its fields from the left. `NoMemory` says that a request for memory was refused.
pub fn load(alloc: Global, nodes: &[u8], edges: &[u8]) -> Result<Graph, LoadFault>
    ensures ok { IfOk result (λ g. graph_of nodes.now edges.now ≡ Ok g) }
    ensures fits { IfOk result IsGraphData }
    ensures fault { IfErr result (λ e. IfFault e (λ f. graph_of nodes.now edges.now ≡ Err f)) }
    ensures size { IfErr result (λ e. IfFault e (λ f. f.kind ≢ wrong.TooLarge)) }
{
    let NodeTable {
        ids,
        columns: node_columns,
        cells: node_cells,
    } = node_table(alloc, nodes)?;
    let EdgeTable {
        edges: EdgeList { ends, cells },
        columns,
    } = edge_table(alloc, &ids, edges)?;
    let ids = listed(alloc, ids.as_slice())?;
    Ok(Graph::new(alloc, ids, node_columns, node_cells, ends, columns, cells)?)
}

/// The same numbers as a list.
fn listed(alloc: Global, numbers: &[u64]) -> Result<List<u64>, NoMemory>
    ensures { IfOk result (λ list. list ≡ numbers.now) }
{
    Ok(List::from_vec(Vec::from_slice(alloc, numbers)?))
}
