//! The built-in program `pagerank`.

ghost use Rattle.std.specs.Prelude.{◌≡◌, IfOk};
ghost use Rattle.graph_model.specs.GraphData.{GraphData};
ghost use Rattle.vertex_lang.specs.Leaves.{IsChecked};
ghost use Rattle.graph_algos.specs.PageRank.{pagerank, share};

use std::alloc::Global;
use surge_outside::{Boxed, List, NoMemory};
use vertex_lang::{Along, Expr, Gather, Program};

/// The rank of each node in millionths, by rounds of PageRank with damping 0.85 in whole numbers (Page, Brin, Motwani and
/// Winograd 1999): each node starts at 1,000,000 and sends an equal share along each of its arcs. It fits every graph. The
/// one error is want of memory.
pub fn pagerank(alloc: Global) -> Result<Program, NoMemory>
    ensures program { IfOk result (λ p. p ≡ pagerank) }
    ensures checked { IfOk result (λ p. (graph : GraphData) → IsChecked p graph) }
{
    Ok(Program {
        along: Along::Out,
        start: Expr::Number(1_000_000),
        send: equal_share(alloc)?,
        gather: Gather::Sum,
        update: next_rank(alloc)?,
    })
}

// The value, divided by the number of arcs that leave the node.
fn equal_share(alloc: Global) -> Result<Expr, NoMemory>
    ensures { IfOk result (λ e. e ≡ pagerank.send) }
{
    let by_degree = List::from_vec(vec![in alloc; (false, Expr::Outdeg)]?);
    Ok(Expr::Product(Boxed::new(alloc, Expr::Value)?, by_degree))
}

// 0.15 of the start, and what was gathered, times 0.85.
fn next_rank(alloc: Global) -> Result<Expr, NoMemory>
    ensures { IfOk result (λ e. e ≡ pagerank.update) }
{
    let damped = List::from_vec(vec![in alloc; (true, damped_share(alloc)?)]?);
    Ok(Expr::Sum(Boxed::new(alloc, Expr::Number(150_000))?, damped))
}

// What was gathered, times 0.85.
fn damped_share(alloc: Global) -> Result<Expr, NoMemory>
    ensures { IfOk result (λ e. e ≡ share) }
{
    let factors = List::from_vec(vec![in alloc;
        (true, Expr::Number(850_000)),
        (false, Expr::Number(1_000_000)),
    ]?);
    Ok(Expr::Product(Boxed::new(alloc, Expr::Gathered)?, factors))
}
