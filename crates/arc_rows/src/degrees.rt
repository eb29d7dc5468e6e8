//! How many arcs leave each node, in a view and in the view before it.

ghost use Rattle.std.specs.Prelude.{◌≡◌, ◌<◌, ◌^◌, Bool, List, length, All, IfOk, IfSome, true, false, ℕ, get_or};
ghost use Rattle.graph_model.specs.GraphData.{GraphData};
ghost use Rattle.vertex_lang.specs.declared.arc.Arc.{Arc};
ghost use Rattle.vertex_lang.specs.Arcs.{outdeg};
ghost use Rattle.arc_rows.specs.Counts.{AreBoth, AreCounted, ArePlain};
ghost use Rattle.arc_rows.specs.RowLists.{AreRows};
ghost use Rattle.arc_rows.specs.TwoViews.{AreCountedInBoth, AreCountedInNew, AreCountedInOld, AreTwoViews};
ghost use Rattle.arc_rows.specs.Views.{arcs_in};

use crate::rows::Rows;
use crate::views::TwoViews;
use graph_model::Graph;
use std::alloc::Global;
use surge_outside::NoMemory;
use vertex_lang::Arc;

/// How many arcs leave each node in the view before and in the new one. Where the message doesn't depend on it, any numbers.
#[derive(Debug, Drop)]
pub struct Degrees {
    pub old: Vec<u64>,
    pub new: Vec<u64>,
}

impl Degrees {
    /// Counted over all arcs where they are asked for. The error is want of memory.
    pub fn counted(
        alloc: Global,
        asked: bool,
        graph: &Graph,
        rows: &Rows,
        old: &[bool],
        new: &[bool],
    ) -> Result<Degrees, NoMemory>
        requires rows { AreRows graph.now rows.now }
        requires old { length old.now ≡ length graph.now.ends }
        requires new { length new.now ≡ length graph.now.ends }
        ensures { IfOk result (AreBoth asked graph.now rows.now.by_head old.now new.now) }
    {
        let count = graph.node_count();
        let before = degrees_if(alloc, asked, count, rows.arcs(), old)?;
        let after = degrees_if(alloc, asked, count, rows.arcs(), new)?;
        Ok(Degrees {
            old: before,
            new: after,
        })
    }

    /// In two views: where those of the view before are known, those of the new one are counted anew for the tails alone of arcs
    /// that are in one of the two alone; and where they aren't asked for, any that are at hand are taken. The error is want of
    /// memory.
    pub fn turned(
        alloc: Global,
        asked: bool,
        views: &TwoViews<'_>,
        known: Option<Vec<u64>>,
        spare: Option<Degrees>,
    ) -> Result<Degrees, NoMemory>
        requires views { AreTwoViews views.now }
        requires known { IfSome known (λ d. AreCountedInOld views.now d.items) }
        requires spare { IfSome spare (ArePlain views.now.graph.now) }
        ensures { IfOk result (AreCountedInBoth asked views.now) }
    {
        match known {
            Some(before) => {
                let after = turned_degrees(alloc, views, &before)?;
                Ok(Degrees {
                    old: before,
                    new: after,
                })
            }
            None => Degrees::at_hand(alloc, asked, views, spare),
        }
    }

    // Counted where they are asked for; else those that are at hand.
    fn at_hand(
        alloc: Global,
        asked: bool,
        views: &TwoViews<'_>,
        spare: Option<Degrees>,
    ) -> Result<Degrees, NoMemory>
        requires views { AreTwoViews views.now }
        requires spare { IfSome spare (ArePlain views.now.graph.now) }
        ensures { IfOk result (AreCountedInBoth asked views.now) }
    {
        match spare {
            Some(degrees) if !asked => Ok(degrees),
            _ => Degrees::counted(alloc, asked, views.graph, views.rows, views.old, views.new),
        }
    }

    /// Those of the new view once more, where they were asked for. The error is want of memory.
    pub fn kept(&self, alloc: Global, asked: bool) -> Result<Option<Vec<u64>>, NoMemory>
        ensures { (graph : GraphData) (all : List Arc) (old new : List Bool) → AreBoth asked graph all old new self.now → IfOk result (λ kept. IfSome kept (λ d. AreCounted graph all new d.items)) }
    {
        if !asked {
            return Ok(None);
        }
        let degrees = Vec::from_slice(alloc, &self.new)?;
        Ok(Some(degrees))
    }
}

// How many arcs leave each node in the new view, given how many do in the view before. Each tail is looked at once.
fn turned_degrees(alloc: Global, views: &TwoViews<'_>, known: &[u64]) -> Result<Vec<u64>, NoMemory>
    requires views { AreTwoViews views.now }
    requires known { AreCountedInOld views.now known.now }
    ensures { IfOk result (λ d. AreCountedInNew views.now d.items) }
{
    let mut degrees = Vec::from_slice(alloc, known)?;
    let mut done = vec![in alloc; false; views.graph.node_count() as usize]?;
    for arc in views.arcs {
        let tail = arc.tail.0 as usize;
        if !done[tail] {
            let leaving = count_in_view(views.rows.out_of(arc.tail), views.new);
            degrees[tail] = leaving;
            done[tail] = true;
        }
    }
    Ok(degrees)
}

// How many of these arcs are in a view.
fn count_in_view(row: &[Arc], edges: &[bool]) -> u64
    requires edges { All (λ a. a.edge.0 < length edges.now) row.now }
    requires few { length row.now < 2 ^ 32 }
    ensures { result ≡ length (arcs_in row.now edges.now) }
{
    let mut count = 0;
    for arc in row {
        if edges[arc.edge.0 as usize] {
            count += 1;
        }
    }
    count
}

/// How many arcs leave each node, of those whose edge is in a view.
pub fn count_degrees(
    alloc: Global,
    count: u32,
    arcs: &[Arc],
    edges: &[bool],
) -> Result<Vec<u64>, NoMemory>
    requires tails { All (λ a. a.tail.0 < count) arcs.now }
    requires edges { All (λ a. a.edge.0 < length edges.now) arcs.now }
    requires few { length arcs.now < 2 ^ 32 }
    ensures size { IfOk result (λ v. length v.items ≡ count) }
    ensures degrees { IfOk result (λ v. (u : ℕ) → u < count → get_or v.items u 0 ≡ outdeg (arcs_in arcs.now edges.now) u) }
    ensures small { IfOk result (λ v. (u : ℕ) → u < count → get_or v.items u 0 < 2 ^ 32) }
{
    let mut degrees = vec![in alloc; 0u64; count as usize]?;
    for arc in arcs {
        if edges[arc.edge.0 as usize] {
            degrees[arc.tail.0 as usize] += 1;
        }
    }
    Ok(degrees)
}

/// How many arcs of a view leave each node, where the message may depend on it, and else any small numbers.
pub fn degrees_if(
    alloc: Global,
    by_degree: bool,
    count: u32,
    arcs: &[Arc],
    edges: &[bool],
) -> Result<Vec<u64>, NoMemory>
    requires tails { All (λ a. a.tail.0 < count) arcs.now }
    requires edges { All (λ a. a.edge.0 < length edges.now) arcs.now }
    requires few { length arcs.now < 2 ^ 32 }
    ensures size { IfOk result (λ v. length v.items ≡ count) }
    ensures degrees { IfOk result (λ v. by_degree ≡ true → (u : ℕ) → u < count → get_or v.items u 0 ≡ outdeg (arcs_in arcs.now edges.now) u) }
    ensures small { IfOk result (λ v. (u : ℕ) → u < count → get_or v.items u 0 < 2 ^ 32) }
{
    if by_degree {
        let degrees = count_degrees(alloc, count, arcs, edges)?;
        return Ok(degrees);
    }
    let none = vec![in alloc; 0u64; count as usize]?;
    Ok(none)
}
