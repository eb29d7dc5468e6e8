//! The programs of the cases.

ghost use Rattle.std.specs.Prelude.{◌≡◌, IfOk, IfSome, IsTrue};
ghost use Rattle.std.specs.List.{list_all};
ghost use Rattle.graph_model.specs.GraphData.{GraphData};
ghost use Rattle.vertex_lang.specs.Leaves.{IsChecked, in_update, is_int, is_int_column, leaves_of};
ghost use Rattle.phase_rows.specs.Programs.{grown, grown_at_first, plus};

use graph_algos::{dist, hops, pagerank, wcc};
use graph_model::{Graph, Kind};
use std::alloc::Global;
use surge_outside::{Boxed, List, NoMemory};
use vertex_lang::{Along, Check, Cmp, Expr, Gather, Program};

/// Which program a case runs.
#[derive(Clone, Copy)]
pub(crate) enum Choice {
    /// Each node adds to its start how many arcs come to it.
    Grow,
    /// The same where its start is below 3, and else it adds them to its value.
    GrowAtFirst,
    /// Hop counts from the node 1.
    Hops,
    /// Distances from the node 1 by the first column of the edges.
    Distances,
    Components,
    Ranks,
}

fn plus(alloc: Global, first: Expr, second: Expr) -> Result<Expr, NoMemory>
    ensures { IfOk result (λ e. e ≡ plus first second) }
{
    let rest = List::from_vec(vec![in alloc; (true, second)]?);
    Ok(Expr::Sum(Boxed::new(alloc, first)?, rest))
}

fn grown(alloc: Global) -> Result<Expr, NoMemory>
    ensures { IfOk result (λ e. e ≡ grown) }
{
    plus(alloc, Expr::Start, Expr::Gathered)
}

fn grown_at_first(alloc: Global) -> Result<Expr, NoMemory>
    ensures { IfOk result (λ e. e ≡ grown_at_first) }
{
    let is_low = List::from_vec(vec![in alloc;
        Check::Compare(Expr::Start, Cmp::Lt, Expr::Number(3)),
    ]?);
    let low = Boxed::new(alloc, grown(alloc)?)?;
    let high = plus(alloc, Expr::Value, Expr::Gathered)?;
    Ok(Expr::If(is_low, low, Boxed::new(alloc, high)?))
}

// Each node starts with 1, sends 1 along each arc, and gathers the sum.
fn counting(update: Expr) -> Program
    requires { IsTrue (list_all in_update (leaves_of update)) }
    ensures { (graph : GraphData) → IsChecked result graph }
{
    Program {
        along: Along::Out,
        start: Expr::Number(1),
        send: Expr::Number(1),
        gather: Gather::Sum,
        update,
    }
}

fn is_of_numbers(kind: Kind) -> bool
    ensures { result ≡ is_int kind }
{
    match kind {
        Kind::Int => true,
        Kind::Str => false,
        Kind::Bool => false,
    }
}

// Whether the first column of the edges is one of numbers.
fn begins_with_numbers(graph: &Graph) -> bool
    ensures { IsTrue result → IsTrue (is_int_column graph.now.edge_columns 0) }
{
    match graph.edge_columns().as_slice() {
        [column, ..] => is_of_numbers(column.kind),
        [] => false,
    }
}

fn distances(alloc: Global, graph: &Graph) -> Result<Option<Program>, NoMemory>
    ensures { IfOk result (λ o. IfSome o (λ p. IsChecked p graph.now)) }
{
    if begins_with_numbers(graph) {
        Ok(Some(dist(alloc, 1, 0)?))
    } else {
        Ok(None)
    }
}

/// The program, where it fits the graph.
pub(crate) fn program(
    alloc: Global,
    graph: &Graph,
    choice: Choice,
) -> Result<Option<Program>, NoMemory>
    ensures { IfOk result (λ o. IfSome o (λ p. IsChecked p graph.now)) }
{
    match choice {
        Choice::Grow => Ok(Some(counting(grown(alloc)?))),
        Choice::GrowAtFirst => Ok(Some(counting(grown_at_first(alloc)?))),
        Choice::Hops => Ok(Some(hops(alloc, 1)?)),
        Choice::Distances => distances(alloc, graph),
        Choice::Components => Ok(Some(wcc(alloc)?)),
        Choice::Ranks => Ok(Some(pagerank(alloc)?)),
    }
}
