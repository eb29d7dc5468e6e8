//! Views of a graph of five nodes, and edges of it that come and go.

ghost use Rattle.std.specs.Prelude.{◌≡◌, ◌≤◌, ◌<◌, not, length, All, IfOk};
ghost use Rattle.vertex_lang.specs.Arcs.{IsArc};
ghost use Rattle.view_matrix.specs.Matrices.{IsView, live_of};

use draws::Draws;
use edge_predicates::{Cmp, Place, Pred, ViewRule};
use graph_model::{EdgeNo, Graph, ViewNo};
use std::alloc::{AllocError, Global};
use surge_outside::{List, NoMemory};
use vertex_lang::{Along, Arc, arcs_of};
use view_matrix::Matrix;

/// Five nodes.
pub(crate) const NODES: &[u8] = b"id\n1\n4\n7\n10\n13\n";

fn drawn_id(draws: &mut Draws) -> &'static [u8] {
    match draws.draw(5) {
        0 => b"1",
        1 => b"4",
        2 => b"7",
        3 => b"10",
        _ => b"13",
    }
}

/// A file of up to eleven edges between them, each with a number from 0 to 3.
pub(crate) fn drawn_edges(alloc: Global, draws: &mut Draws) -> Result<Vec<u8>, NoMemory> {
    let mut text = Vec::new(alloc);
    text.extend_from_slice(b"src,dst,y:int\n")?;
    for _ in 0..draws.draw(12) {
        text.extend_from_slice(drawn_id(draws))?;
        text.push(44)?;
        text.extend_from_slice(drawn_id(draws))?;
        text.push(44)?;
        text.push(48 + draws.draw(4) as u8)?;
        text.push(10)?;
    }
    Ok(text)
}

fn rule(alloc: Global, sign: Cmp, number: i64) -> Result<ViewRule, AllocError> {
    let pred = Pred::Compare(Place::Edge(0), sign, Place::Number(number));
    let rules = List::from_vec(vec![in alloc; pred]?);
    Ok(ViewRule { rules })
}

/// The edges whose number is at most 1, at most 2, above 1, and 3.
pub(crate) fn four_rules(alloc: Global) -> Result<Vec<ViewRule>, AllocError>
    ensures { IfOk result (λ rules. length rules.items ≡ 4) }
{
    let mut rules = Vec::new(alloc);
    rules.push(rule(alloc, Cmp::Le, 1)?)?;
    rules.push(rule(alloc, Cmp::Le, 2)?)?;
    rules.push(rule(alloc, Cmp::Gt, 1)?)?;
    rules.push(rule(alloc, Cmp::Ge, 3)?)?;
    Ok(rules)
}

/// Of each edge of a graph whether it is live at first.
pub(crate) fn drawn_live(
    alloc: Global,
    graph: &Graph,
    draws: &mut Draws,
) -> Result<List<bool>, NoMemory>
    ensures { IfOk result (λ live. length live ≡ length graph.now.ends) }
{
    let mut live = List::new(alloc);
    for _edge in 0..graph.edge_count() {
        live.push(draws.draw(3) > 0)?;
    }
    Ok(live)
}

/// Some edges, each of which turns: one that is live goes, and another one comes.
pub(crate) fn drawn_changes(
    alloc: Global,
    matrix: &Matrix,
    edges: u32,
    draws: &mut Draws,
) -> Result<Vec<(EdgeNo, bool)>, NoMemory>
    requires edges { edges ≤ length matrix.now.live }
    ensures within { IfOk result (λ changes. All (λ c. c.0.0 < length matrix.now.live) changes.items) }
    ensures turns { IfOk result (λ changes. All (λ c. c.1 ≡ not (live_of matrix.now c.0.0)) changes.items) }
{
    let mut changes = Vec::new(alloc);
    for edge in 0..edges {
        if draws.draw(4) == 0 {
            let is_live = matrix.live(EdgeNo(edge));
            changes.push((EdgeNo(edge), !is_live))?;
        }
    }
    Ok(changes)
}

/// The arcs of a view.
pub(crate) fn arcs_at(
    alloc: Global,
    graph: &Graph,
    along: Along,
    matrix: &Matrix,
    view: ViewNo,
) -> Result<List<Arc>, NoMemory>
    requires matrix { length matrix.now.live ≡ length graph.now.ends }
    requires view { IsView matrix.now view }
    ensures within { IfOk result (λ arcs. All (IsArc graph.now) arcs) }
    ensures few { IfOk result (λ arcs. length arcs ≤ 8_000_000) }
{
    let edges = matrix.edges(alloc, view)?;
    arcs_of(alloc, graph, along, edges.as_slice())
}
