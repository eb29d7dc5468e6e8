//! The programs of the cases, which fit every graph.

ghost use Rattle.std.specs.Prelude.{IfOk};
ghost use Rattle.graph_model.specs.GraphData.{GraphData};
ghost use Rattle.vertex_lang.specs.Leaves.{IsChecked};

use flow_rows::Draws;
use graph_algos::{hops, pagerank, wcc};
use std::alloc::Global;
use surge_outside::NoMemory;
use vertex_lang::{Along, Expr, Gather, Program};

/// Which program a case runs.
#[derive(Clone, Copy)]
pub(crate) enum Choice {
    /// Hop counts from the node 1.
    Hops,
    Components,
    Ranks,
    /// The values that a node gets, gathered in this way.
    Values(Along, Gather),
    /// How many arcs leave each node from which a message comes, gathered in this way.
    Degrees(Along, Gather),
}

/// The program. The one error is want of memory.
pub(crate) fn program(alloc: Global, choice: Choice) -> Result<Program, NoMemory>
    ensures { IfOk result (λ p. (graph : GraphData) → IsChecked p graph) }
{
    match choice {
        Choice::Hops => hops(alloc, 1),
        Choice::Components => wcc(alloc),
        Choice::Ranks => pagerank(alloc),
        Choice::Values(along, gather) => Ok(values(along, gather)),
        Choice::Degrees(along, gather) => Ok(degrees(along, gather)),
    }
}

fn values(along: Along, gather: Gather) -> Program
    ensures { (graph : GraphData) → IsChecked result graph }
{
    Program {
        along,
        start: Expr::Id,
        send: Expr::Value,
        gather,
        update: Expr::Gathered,
    }
}

fn degrees(along: Along, gather: Gather) -> Program
    ensures { (graph : GraphData) → IsChecked result graph }
{
    Program {
        along,
        start: Expr::Id,
        send: Expr::Outdeg,
        gather,
        update: Expr::Gathered,
    }
}

fn drawn_along(draws: &mut Draws) -> Along {
    match draws.draw(3) {
        0 => Along::Out,
        1 => Along::In,
        _ => Along::Both,
    }
}

fn drawn_gather(draws: &mut Draws) -> Gather {
    match draws.draw(4) {
        0 => Gather::Min,
        1 => Gather::Max,
        2 => Gather::Sum,
        _ => Gather::Count,
    }
}

/// A program that is drawn.
pub(crate) fn drawn_choice(draws: &mut Draws) -> Choice {
    let along = drawn_along(draws);
    let gather = drawn_gather(draws);
    match draws.draw(7) {
        0 => Choice::Hops,
        1 => Choice::Components,
        2 => Choice::Ranks,
        3 | 4 => Choice::Values(along, gather),
        _ => Choice::Degrees(along, gather),
    }
}
