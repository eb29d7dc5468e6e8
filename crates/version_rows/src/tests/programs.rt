//! Programs that fit every graph.

ghost use Rattle.std.specs.Prelude.{IfOk};
ghost use Rattle.graph_model.specs.GraphData.{GraphData};
ghost use Rattle.vertex_lang.specs.Leaves.{IsChecked};

use graph_algos::{hops, pagerank, wcc};
use std::alloc::Global;
use surge_outside::NoMemory;
use vertex_lang::{Along, Expr, Gather, Program};

/// Which program is run.
#[derive(Clone, Copy)]
pub(crate) enum Choice {
    /// Hop counts from the node 1.
    Hops,
    Components,
    Ranks,
    /// The values that a node gets, gathered in this way.
    Values(Along, Gather),
    /// How many arcs leave each node from which a message comes, gathered in this way.
    Degrees(Along, Gather),
}

/// The program. The error is want of memory.
pub(crate) fn program(alloc: Global, choice: Choice) -> Result<Program, NoMemory>
    ensures { IfOk result (λ p. (graph : GraphData) → IsChecked p graph) }
{
    match choice {
        Choice::Hops => hops(alloc, 1),
        Choice::Components => wcc(alloc),
        Choice::Ranks => pagerank(alloc),
        Choice::Values(along, gather) => Ok(values(along, gather)),
        Choice::Degrees(along, gather) => Ok(degrees(along, gather)),
    }
}

fn values(along: Along, gather: Gather) -> Program
    ensures { (graph : GraphData) → IsChecked result graph }
{
    Program {
        along,
        start: Expr::Id,
        send: Expr::Value,
        gather,
        update: Expr::Gathered,
    }
}

fn degrees(along: Along, gather: Gather) -> Program
    ensures { (graph : GraphData) → IsChecked result graph }
{
    Program {
        along,
        start: Expr::Id,
        send: Expr::Outdeg,
        gather,
        update: Expr::Gathered,
    }
}
