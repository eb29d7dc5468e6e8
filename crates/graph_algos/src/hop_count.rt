//! The built-in program `hops`.

ghost use Rattle.std.specs.Prelude.{◌≡◌, IfOk};
ghost use Rattle.graph_model.specs.GraphData.{GraphData};
ghost use Rattle.vertex_lang.specs.Leaves.{IsChecked};
ghost use Rattle.graph_algos.specs.Hops.{hops};

use crate::shared::{from_source, least_so_far, value_and};
use std::alloc::Global;
use surge_outside::NoMemory;
use vertex_lang::{Along, Expr, Gather, Program};

/// The least number of edges from the node with this id to each node (breadth-first distance, as a vertex program). The
/// id may be that of no node: then no node has a value. It fits every graph. The one error is want of memory.
pub fn hops(alloc: Global, source: i64) -> Result<Program, NoMemory>
    ensures program { IfOk result (λ p. p ≡ hops source) }
    ensures checked { IfOk result (λ p. (graph : GraphData) → IsChecked p graph) }
{
    Ok(Program {
        along: Along::Out,
        start: from_source(alloc, source)?,
        send: value_and(alloc, Expr::Number(1))?,
        gather: Gather::Min,
        update: least_so_far(alloc)?,
    })
}
