//! The built-in program `dist`.

ghost use Rattle.std.specs.Prelude.{◌≡◌, ◌<◌, ◌^◌, IfOk, IsTrue};
ghost use Rattle.graph_model.specs.GraphData.{GraphData};
ghost use Rattle.vertex_lang.specs.Leaves.{IsChecked, is_int_column};
ghost use Rattle.graph_algos.specs.Dist.{dist};

use crate::shared::{from_source, least_so_far, value_and};
use std::alloc::Global;
use surge_outside::NoMemory;
use vertex_lang::{Along, Expr, Gather, Program};

/// The least weight of a walk from the node with this id to each node, where the weight of an edge is its number in this
/// column of the edges, from 0 and below 2^32 (shortest distance, as a vertex program). The id may be that of no node: then
/// no node has a value. It fits each graph where this is a column of whole numbers. The one error is want of memory.
pub fn dist(alloc: Global, source: i64, column: usize) -> Result<Program, NoMemory>
    requires { column < 2 ^ 32 }
    ensures program { IfOk result (λ p. p ≡ dist source column) }
    ensures checked { IfOk result (λ p. (graph : GraphData) → IsTrue (is_int_column graph.edge_columns column) → IsChecked p graph) }
{
    Ok(Program {
        along: Along::Out,
        start: from_source(alloc, source)?,
        send: value_and(alloc, Expr::EdgeProp(column as u32))?,
        gather: Gather::Min,
        update: least_so_far(alloc)?,
    })
}
