//! Rounds that begin with given values, worked out by hand, and the calls of the updater counted as they come.

ghost use Rattle.std.specs.Prelude.{◌≡◌, ◌<◌, ◌^◌, [], ◌∷◌, true, length, All, IfOk};
ghost use Rattle.graph_model.specs.GraphData.{GraphData};
ghost use Rattle.vertex_lang.specs.Arcs.{IsArc};
ghost use Rattle.vertex_lang.specs.Leaves.{IsChecked};

use crate::tests::small_graphs::{edges_of, two_edges};
use graph_model::{Graph, Val};
use std::alloc::Global;
use std::marker::Brand;
use std::sync::ledger::{Blank, Ledger};
use std::test::Fail;
use surge_outside::{Boxed, Counted, List, NoMemory, Steps};
use vertex_lang::{Along, Arc, Expr, Gather, Program, Updater, arcs_of, eval, rounds_run};

// Computes updates, and tells how many they were.
#[derive(Drop)]
struct Teller<L: Ledger> {
    steps: Steps<L>,
    calls: u64,
}

impl<L: Ledger> Counted for Teller<L> {
    ghost calls = { λ teller. teller.steps };
}

impl<L: Ledger> Updater for Teller<L> {
    ghost use Rattle.vertex_lang.specs.Expressions.{updated};
    ghost use Rattle.vertex_lang.specs.LowestGiven.{lowest_given};

    ghost answer = { updated };

    fn update(
        &mut self,
        program: &Program,
        id: u64,
        start: Val,
        value: Val,
        gathered: Val,
        count: u64,
    ) -> Val {
        self.calls = self.calls.saturating_add(1);
        eval(program, id, start, value, gathered, count, &mut self.steps)
    }

    ghost lowest_was_given = { lowest_given };
}

// What is added to a start: what was gathered.
fn added(alloc: Global) -> Result<List<(bool, Expr)>, NoMemory>
    ensures { IfOk result (λ l. l ≡ (true, Expr.Gathered) ∷ []) }
{
    let mut list = List::new(alloc);
    list.push((true, Expr::Gathered))?;
    Ok(list)
}

// Each node sends 1 along each arc; what it gets is added to its start.
fn grow(alloc: Global) -> Result<Program, NoMemory>
    ensures { IfOk result (λ p. (graph : GraphData) → IsChecked p graph) }
{
    let rest = added(alloc)?;
    let start = Boxed::new(alloc, Expr::Start)?;
    Ok(Program {
        along: Along::Out,
        start: Expr::Number(1),
        send: Expr::Number(1),
        gather: Gather::Sum,
        update: Expr::Sum(start, rest),
    })
}

// How many of the edges are there, the start of each node, and for how many rounds.
type Row = (u32, i64, i64, u32);

const ROWS: [Row; 10] = [
    (2, 1, 1, 0),
    (2, 1, 1, 1),
    (2, 1, 1, 2),
    (2, 1, 1, 1_000_000),
    // The second phase begins with the values of the first.
    (2, 1, 3, 2),
    (1, 1, 1, 2),
    (1, 1, 2, 2),
    // Without an edge the first round changes nothing.
    (0, 7, -7, 0),
    (0, 7, -7, 1),
    (0, 7, -7, 20),
];

// The values behind each of these, whether the last round changed nothing, and how many updates there were.
const ENDS: &str = "[Num(1), Num(1)] true 0
[Num(1), Num(3)] false 2
[Num(1), Num(3)] true 4
[Num(1), Num(3)] true 4
[Num(1), Num(5)] true 4
[Num(1), Num(2)] true 4
[Num(1), Num(3)] true 4
[Num(7), Num(-7)] true 0
[Num(7), Num(-7)] true 2
[Num(7), Num(-7)] true 2
";

// How a run ended.
fn end_text(alloc: Global, values: &[Val], is_quiet: bool, calls: u64) -> Result<String, NoMemory> {
    Ok(format!(in alloc; "{values:?} {is_quiet} {calls}\n")?)
}

// How a run over these arcs ended, in this ledger.
fn run_text<L: Ledger>(
    alloc: Global,
    program: &Program,
    graph: &Graph,
    arcs: &[Arc],
    starts: &[Val],
    rounds: u32,
    blank: Blank,
) -> Result<String, NoMemory>
    requires checked { IsChecked program.now graph.now }
    requires starts { length starts.now ≡ length graph.now.ids }
    requires arcs { All (IsArc graph.now) arcs.now }
    requires few { length arcs.now < 2 ^ 32 }
    requires name { blank.name ≡ L.name }
    requires parts { blank.parts ≡ L.parts }
    requires some { 0 < L.parts }
{
    let mut teller = Teller {
        steps: Steps::<L>::new(blank),
        calls: 0,
    };
    let ended = rounds_run(alloc, program, graph, starts, arcs, rounds, &mut teller)?;
    end_text(alloc, ended.values.as_slice(), ended.quiet, teller.calls)
}

// The same of a row.
fn row_text(alloc: Global, program: &Program, graph: &Graph, row: Row) -> Result<String, NoMemory>
    requires checked { IsChecked program.now graph.now }
    requires nodes { length graph.now.ids ≡ 2 }
    requires edges { length graph.now.ends ≡ 2 }
{
    let (edges, first, second, rounds) = row;
    let arcs = arcs_of(alloc, graph, Along::Out, edges_of(edges))?;
    let starts = [Val::Num(first), Val::Num(second)];
    run_text::<Brand>(
        alloc,
        program,
        graph,
        arcs.as_slice(),
        &starts,
        rounds,
        Blank::new(1),
    )
}

// The same of all rows.
fn rows_text(alloc: Global, program: &Program, graph: &Graph) -> Result<String, NoMemory>
    requires checked { IsChecked program.now graph.now }
    requires nodes { length graph.now.ids ≡ 2 }
    requires edges { length graph.now.ends ≡ 2 }
{
    let mut text = String::new(alloc);
    for row in ROWS {
        text.push_str(row_text(alloc, program, graph, row)?.as_str())?;
    }
    Ok(text)
}

// The same of the program over this graph.
fn ends_over(alloc: Global, graph: &Graph) -> Result<String, NoMemory>
    requires nodes { length graph.now.ids ≡ 2 }
    requires edges { length graph.now.ends ≡ 2 }
{
    let program = grow(alloc)?;
    rows_text(alloc, &program, graph)
}

fn ends(alloc: Global) -> Result<String, NoMemory> {
    let graph = two_edges(alloc)?;
    ends_over(alloc, &graph)
}

#[test]
fn rounds_from_given_values(rt: HostRuntime) -> Result<(), Fail> {
    assert_eq!(rt; ends(rt.alloc())?.as_str(), ENDS);
    Ok(())
}
