//! Views of two nodes and two edges, whose work was counted by hand.

ghost use Rattle.std.specs.Prelude.{◌≡◌, ◌≤◌, ◌<◌, ◌^◌, length, All, IfOk};
ghost use Rattle.graph_model.specs.GraphData.{GraphData};
ghost use Rattle.vertex_lang.specs.Arcs.{IsArc};
ghost use Rattle.vertex_lang.specs.Leaves.{IsChecked};

use crate::tests::small_graphs::{edges_of, two_edges};
use graph_model::Graph;
use lone_work::{count_first_work, count_work};
use std::alloc::Global;
use std::fmt::Write;
use std::marker::Brand;
use std::sync::ledger::{Blank, Ledger};
use std::test::Fail;
use surge_outside::{List, NoMemory, Steps};
use vertex_lang::{Along, Arc, Expr, Gather, Program, arcs_of};

// How many messages a node gets. Each value stays from round 1 on.
fn counts() -> Program
    ensures { (graph : GraphData) → IsChecked result graph }
{
    Program {
        along: Along::Out,
        start: Expr::Number(0),
        send: Expr::Number(1),
        gather: Gather::Count,
        update: Expr::Gathered,
    }
}

// The arcs of some edges.
fn arcs(alloc: Global, graph: &Graph, edges: u32) -> Result<List<Arc>, NoMemory>
    requires edges { length graph.now.ends ≡ 2 }
    ensures within { IfOk result (λ arcs. All (IsArc graph.now) arcs) }
    ensures few { IfOk result (λ arcs. length arcs < 2 ^ 32) }
{
    let arcs = arcs_of(alloc, graph, Along::Out, edges_of(edges))?;
    Ok(arcs)
}

// The work of a view alone, and that of another one behind it.
fn both_works<L: Ledger>(
    alloc: Global,
    program: &Program,
    graph: &Graph,
    old: &[Arc],
    new: &[Arc],
    rounds: u32,
    blank: Blank,
) -> Result<(u64, u64), NoMemory>
    requires checked { IsChecked program.now graph.now }
    requires old { All (IsArc graph.now) old.now }
    requires new { All (IsArc graph.now) new.now }
    requires old_few { length old.now < 2 ^ 32 }
    requires new_few { length new.now < 2 ^ 32 }
    requires limit { rounds ≤ 1_000_000 }
    requires name { blank.name ≡ L.name }
    requires parts { blank.parts ≡ L.parts }
    requires some { 0 < L.parts }
{
    let mut steps = Steps::<L>::new(blank);
    let first = count_first_work(alloc, program, graph, old, rounds, &mut steps)?;
    let later = count_work(alloc, program, graph, new, old, rounds, &mut steps)?;
    Ok((first, later))
}

// The work of the view of both edges, and that of a view of these edges behind it.
fn works(
    alloc: Global,
    program: &Program,
    graph: &Graph,
    edges: u32,
    rounds: u32,
) -> Result<(u64, u64), NoMemory>
    requires checked { IsChecked program.now graph.now }
    requires edges { length graph.now.ends ≡ 2 }
    requires limit { rounds ≤ 1_000_000 }
{
    let old = arcs(alloc, graph, 2)?;
    let new = arcs(alloc, graph, edges)?;
    both_works::<Brand>(
        alloc,
        program,
        graph,
        old.as_slice(),
        new.as_slice(),
        rounds,
        Blank::new(1),
    )
}

// The edges of the later view, and for how many rounds.
const ROWS: [(u32, u32); 3] = [(1, 1), (1, 3), (3, 3)];

// The works of each.
const WORKS: &str = "2 1;3 2;3 0;";

// The works of all rows. None goes on for more than twenty rounds.
fn works_text(alloc: Global, program: &Program, graph: &Graph) -> Result<String, NoMemory>
    requires checked { IsChecked program.now graph.now }
    requires edges { length graph.now.ends ≡ 2 }
{
    let mut text = String::new(alloc);
    for (edges, rounds) in ROWS {
        let (first, later) = works(alloc, program, graph, edges, rounds.min(20))?;
        write!(text, "{first} {later};")?;
    }
    Ok(text)
}

// The same of the program over this graph.
fn works_over(alloc: Global, graph: &Graph) -> Result<String, NoMemory>
    requires { length graph.now.ends ≡ 2 }
{
    let program = counts();
    works_text(alloc, &program, graph)
}

fn works_on_two_edges(alloc: Global) -> Result<String, NoMemory> {
    let graph = two_edges(alloc)?;
    works_over(alloc, &graph)
}

#[test]
fn later_views_count_what_differs(rt: HostRuntime) -> Result<(), Fail> {
    assert_eq!(rt; works_on_two_edges(rt.alloc())?.as_str(), WORKS);
    Ok(())
}
