//! The built-in program `wcc`.

ghost use Rattle.std.specs.Prelude.{◌≡◌, IfOk};
ghost use Rattle.graph_model.specs.GraphData.{GraphData};
ghost use Rattle.vertex_lang.specs.Leaves.{IsChecked};
ghost use Rattle.graph_algos.specs.Wcc.{wcc};

use crate::shared::least_so_far;
use std::alloc::Global;
use surge_outside::NoMemory;
use vertex_lang::{Along, Expr, Gather, Program};

/// The least id of the nodes that each node is joined to by edges, whatever their direction (weakly connected components by
/// the least label, as a vertex program). It fits every graph. The one error is want of memory.
pub fn wcc(alloc: Global) -> Result<Program, NoMemory>
    ensures program { IfOk result (λ p. p ≡ wcc) }
    ensures checked { IfOk result (λ p. (graph : GraphData) → IsChecked p graph) }
{
    Ok(Program {
        along: Along::Both,
        start: Expr::Id,
        send: Expr::Value,
        gather: Gather::Min,
        update: least_so_far(alloc)?,
    })
}
