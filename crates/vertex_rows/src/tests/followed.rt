//! Views whose edges come and go, as an engine over versions follows them and as a dataflow makes them at pairs of a version and a
//! position.

ghost use Rattle.std.specs.Prelude.{◌≡◌, ◌<◌, ◌≤◌, [], false, not, length, All, IfOk, OnOk};
ghost use Rattle.vertex_lang.specs.Leaves.{IsChecked};
ghost use Rattle.view_matrix.specs.Matrices.{IsView, live_of};
ghost use Rattle.view_versions.specs.Engines.{IsEngine, Stands, views_run};

use crate::tests::feeds::{Place, Stand};
use crate::tests::flows::flow_through;
use crate::tests::plain::Made;
use edge_predicates::{Cmp, Place as Side, Pred, ViewRule};
use flow_rows::{Draws, Timed, same, sum_to};
use graph_model::{EdgeNo, Graph, NodeNo, Val, ViewNo};
use lattice_time::{Pair, Position, Version};
use std::alloc::{AllocError, Global};
use surge_outside::{List, NoMemory};
use vertex_lang::{Program, Rounds, Updater};
use view_matrix::Matrix;
use view_order::views_from;
use view_versions::{VersionEngine, edits_are_taken_back};
use weighted::{Batch, Weight};

/// The views at places of a grid, and the values that an engine has there.
#[derive(Drop)]
struct HeldViews {
    stands: List<Stand<Place>>,
    values: Vec<List<Val>>,
}

fn rule(alloc: Global, left: Side, sign: Cmp, right: Side) -> Result<ViewRule, AllocError> {
    let pred = Pred::Compare(left, sign, right);
    let rules = List::from_vec(vec![in alloc; pred]?);
    Ok(ViewRule { rules })
}

/// Four rules on the ids of the two ends of an edge.
fn four_rules(alloc: Global) -> Result<Vec<ViewRule>, AllocError>
    ensures { IfOk result (λ rules. length rules.items ≡ 4) }
{
    let mut rules = Vec::new(alloc);
    rules.push(rule(alloc, Side::SrcId, Cmp::Le, Side::Number(7))?)?;
    rules.push(rule(alloc, Side::SrcId, Cmp::Le, Side::Number(10))?)?;
    rules.push(rule(alloc, Side::DstId, Cmp::Gt, Side::Number(1))?)?;
    rules.push(rule(alloc, Side::SrcId, Cmp::Lt, Side::DstId)?)?;
    Ok(rules)
}

/// Of each edge of a graph whether it is live at first.
fn drawn_live(alloc: Global, graph: &Graph, draws: &mut Draws) -> Result<List<bool>, NoMemory>
    ensures { IfOk result (λ live. length live ≡ length graph.now.ends) }
{
    let mut live = List::new(alloc);
    for _edge in 0..graph.edge_count() {
        live.push(draws.draw(3) > 0)?;
    }
    Ok(live)
}

/// Some edges, each of which turns: one that is live goes, and another one comes.
fn drawn_changes(
    alloc: Global,
    matrix: &Matrix,
    edges: u32,
    draws: &mut Draws,
) -> Result<Vec<(EdgeNo, bool)>, NoMemory>
    requires edges { edges ≤ length matrix.now.live }
    ensures within { IfOk result (λ changes. All (λ c. c.0.0 < length matrix.now.live) changes.items) }
    ensures turns { IfOk result (λ changes. All (λ c. c.1 ≡ not (live_of matrix.now c.0.0)) changes.items) }
{
    let mut changes = Vec::new(alloc);
    for edge in 0..edges {
        if draws.draw(4) == 0 {
            let is_live = matrix.live(EdgeNo(edge));
            changes.push((EdgeNo(edge), !is_live))?;
        }
    }
    Ok(changes)
}

/// A view as bits: of the first 32 edges those that stand in it.
fn bits_of(alloc: Global, matrix: &Matrix, view: ViewNo) -> Result<u32, NoMemory>
    requires { IsView matrix.now view }
{
    let edges = matrix.edges(alloc, view)?;
    let mut bits = 0;
    for edge in edges.as_slice() {
        if edge.0 < 32 {
            bits |= 1 << edge.0;
        }
    }
    Ok(bits)
}

/// Adds the views of an engine in a version, and the values that it has for them.
fn hold<U: Updater>(
    alloc: Global,
    engine: &VersionEngine<'_>,
    matrix: &Matrix,
    version: u32,
    held: &mut HeldViews,
    _updater: &U,
) -> Result<(), NoMemory>
    requires engine { IsEngine engine.now }
    requires stands { Stands U.answer matrix.now engine.now }
{
    let mut position: u32 = 0;
    for view in engine.order().as_slice() {
        let at = Pair {
            outer: Version(version),
            inner: Position(position),
        };
        let bits = bits_of(alloc, matrix, *view)?;
        let table = engine.result(*view)?;
        held.stands.push((at, bits))?;
        held.values.push(table.values)?;
        position = position.wrapping_add(1);
    }
    Ok(())
}

/// Turns drawn edges, and has an engine follow.
fn turn<U: Updater>(
    alloc: Global,
    engine: &mut VersionEngine<'_>,
    matrix: &mut Matrix,
    edges: u32,
    draws: &mut Draws,
    updater: &mut U,
) -> Result<(), NoMemory>
    requires fresh { engine.old.spent ≡ false }
    requires engine { IsEngine engine.old }
    requires stands { Stands U.answer matrix.old engine.old }
    requires edges { edges ≤ length matrix.old.live }
    ensures fresh { OnOk result (engine.new.spent ≡ false) }
    ensures engine { OnOk result (IsEngine engine.new) }
    ensures stands { OnOk result (Stands U.answer matrix.new engine.new) }
    ensures size { length matrix.new.live ≡ length matrix.old.live }
{
    edits_are_taken_back();
    let changes = drawn_changes(alloc, matrix, edges, draws)?;
    matrix.edit(&changes);
    engine.advance(matrix, &changes, updater)
}

/// What an engine has of its views in a matrix, and behind each of three edits.
fn follow<U: Updater>(
    alloc: Global,
    engine: &mut VersionEngine<'_>,
    mut matrix: Matrix,
    edges: u32,
    draws: &mut Draws,
    updater: &mut U,
) -> Result<HeldViews, NoMemory>
    requires fresh { engine.old.spent ≡ false }
    requires engine { IsEngine engine.old }
    requires none { views_run engine.old ≡ [] }
    requires size { length matrix.live ≡ length engine.old.graph.now.ends }
    requires views { All (IsView matrix) engine.old.order }
    requires edges { edges ≤ length matrix.live }
{
    let mut held = HeldViews {
        stands: List::new(alloc),
        values: Vec::new(alloc),
    };
    engine.first(&matrix, updater)?;
    hold(alloc, engine, &matrix, 0, &mut held, updater)?;
    for version in 1..4 {
        turn(alloc, engine, &mut matrix, edges, draws, updater)?;
        hold(alloc, engine, &matrix, version, &mut held, updater)?;
    }
    Ok(held)
}

/// The same of a program over a graph, some of whose edges are live at first.
fn followed<U: Updater>(
    alloc: Global,
    program: &Program,
    graph: &Graph,
    rounds: u32,
    draws: &mut Draws,
    updater: &mut U,
) -> Result<HeldViews, NoMemory>
    requires checked { IsChecked program.now graph.now }
    requires some { 1 ≤ rounds }
    requires limit { rounds ≤ 1_000_000 }
{
    let rules = four_rules(alloc)?;
    let live = drawn_live(alloc, graph, draws)?;
    let matrix = Matrix::build(alloc, graph, &live, &rules)?;
    let views = views_from(alloc, &matrix, 0)?;
    let (order, all) = (views.as_slice(), Rounds::For(rounds));
    let mut engine = VersionEngine::new(alloc, graph, program, order, all)?;
    let edges = graph.edge_count();
    follow(alloc, &mut engine, matrix, edges, draws, updater)
}

/// What was made up to a round, without the rounds.
fn up_to(alloc: Global, made: &Batch<Made>, round: u32) -> Result<Batch<(NodeNo, Val)>, NoMemory> {
    let mut entries = List::new(alloc);
    for ((at, record), weight) in made.as_slice() {
        if at.0 <= round {
            entries.push((*record, *weight))?;
        }
    }
    Batch::from_entries(entries)
}

/// The values of all nodes, each once.
fn each_once(alloc: Global, values: &[Val]) -> Result<Batch<(NodeNo, Val)>, NoMemory> {
    let mut entries = List::new(alloc);
    let mut node: u32 = 0;
    for value in values {
        entries.push(((NodeNo(node), *value), Weight(1)))?;
        node = node.wrapping_add(1);
    }
    Batch::from_entries(entries)
}

/// Whether what was made up to the time of each view is, after the last round, what an engine has there.
fn is_held(
    alloc: Global,
    held: &HeldViews,
    made: &List<Timed<Place, Made>>,
    rounds: u32,
) -> Result<bool, NoMemory> {
    for (place, (at, _bits)) in held.stands.as_slice().iter().enumerate() {
        let Some(values) = held.values.get(place) else {
            return Ok(false);
        };
        let sum = up_to(alloc, &sum_to(alloc, made, *at)?, rounds)?;
        if !same(&sum, &each_once(alloc, values.as_slice())?) {
            return Ok(false);
        }
    }
    Ok(true)
}

/// Whether a dataflow makes what an engine has of views whose edges come and go, both drawn from a seed.
pub(crate) fn is_followed<U: Updater>(
    alloc: Global,
    program: &Program,
    graph: &Graph,
    rounds: u32,
    seed: u64,
    updater: &mut U,
) -> Result<bool, NoMemory>
    requires checked { IsChecked program.now graph.now }
    requires some { 1 ≤ rounds }
    requires limit { rounds ≤ 1_000_000 }
{
    let mut draws = Draws { state: seed };
    let held = followed(alloc, program, graph, rounds, &mut draws, updater)?;
    let stands = held.stands.as_slice();
    let Some(told) = flow_through(alloc, program, graph, rounds, stands, false, updater)? else {
        return Ok(false);
    };
    is_held(alloc, &held, &told.made, rounds)
}
