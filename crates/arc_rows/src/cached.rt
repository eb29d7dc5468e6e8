//! What is kept of the arcs of a view from a step to the next.

ghost use Rattle.std.specs.Prelude.{◌≡◌, ◌<◌, Bool, List, true, false, length, get_or, All, IfOk, IfSome, IsTrue};
ghost use Rattle.graph_model.specs.GraphData.{GraphData};
ghost use Rattle.vertex_lang.specs.declared.arc.Arc.{Arc};
ghost use Rattle.arc_rows.specs.Counts.{AreCounted};
ghost use Rattle.arc_rows.specs.Listings.{AreLinks, AreTails, IsListed, AreCached};
ghost use Rattle.arc_rows.specs.TwoViews.{AreCachedOver, AreCountedInOld, AreTwoViews, IsListedInNew};
ghost use Rattle.arc_rows.specs.Views.{TellsAll};

use crate::live::{Live, renew_links, renew_tails};
use crate::views::TwoViews;
use graph_model::{EdgeNo, NodeNo};
use message_forms::Link;
use std::alloc::Global;
use surge_outside::NoMemory;
use vertex_lang::Arc;

/// The arcs of a view by head, if they are kept.
#[derive(Debug, Drop)]
pub enum Listed {
    /// They aren't kept.
    Nothing,
    /// Their tails.
    Tails(Live<NodeNo>),
    /// Their tails, each with the edge's property in this column.
    Links(u32, Live<Link>),
}

/// The arcs of a view, and which edges are in it; and how many arcs leave each node, if that is kept.
#[derive(Debug, Drop)]
pub struct CachedArcs {
    pub edges: Vec<bool>,
    pub listed: Listed,
    pub degrees: Option<Vec<u64>>,
}

impl Listed {
    /// The tails, where they are kept alone.
    pub fn tails(self) -> Option<Live<NodeNo>>
        ensures { (graph : GraphData) (arcs : List Arc) (edges : List Bool) → IsListed graph arcs edges self → IfSome result (AreTails graph arcs edges) }
    {
        match self {
            Listed::Tails(live) => Some(live),
            _ => None,
        }
    }

    /// The tails with the edge's property in this column.
    pub fn links(self, column: u32) -> Option<Live<Link>>
        ensures { (graph : GraphData) (arcs : List Arc) (edges : List Bool) → IsListed graph arcs edges self → IfSome result (AreLinks graph arcs edges column) }
    {
        match self {
            Listed::Links(given, live) if given == column => Some(live),
            _ => None,
        }
    }
}

impl CachedArcs {
    /// Of no view.
    pub fn nothing(alloc: Global) -> CachedArcs
        ensures { (graph : GraphData) (arcs : List Arc) → AreCached graph arcs result }
    {
        CachedArcs {
            edges: Vec::new(alloc),
            listed: Listed::Nothing,
            degrees: None,
        }
    }

    /// Of a view with these edges. Its flags are these, if they are at hand. Where memory is wanted nothing is kept.
    pub fn of(
        alloc: Global,
        edges: &[bool],
        flags: Option<Vec<bool>>,
        listed: Listed,
        degrees: Option<Vec<u64>>,
    ) -> CachedArcs
        requires { IfSome flags (λ f. f.items ≡ edges.now) }
        ensures { (graph : GraphData) (arcs : List Arc) → IsListed graph arcs edges.now listed
            → IfSome degrees (λ d. AreCounted graph arcs edges.now d.items) → AreCached graph arcs result }
    {
        match listed {
            Listed::Nothing => CachedArcs::nothing(alloc),
            kept => match flags_of(alloc, edges, flags) {
                Ok(own) => CachedArcs {
                    edges: own,
                    listed: kept,
                    degrees,
                },
                Err(_) => CachedArcs::nothing(alloc),
            },
        }
    }

    /// The arcs of the new one of two views, where those of the view before are kept; how many arcs leave each node in the view
    /// before; and the flags of the new one, where those of the view before are kept. The error is want of memory.
    pub fn turned(
        self,
        alloc: Global,
        views: &TwoViews<'_>,
    ) -> Result<(Listed, Option<Vec<u64>>, Option<Vec<bool>>), NoMemory>
        requires views { AreTwoViews views.now }
        requires cached { AreCachedOver views.now self }
        ensures listed { IfOk result (λ r. IsListedInNew views.now r.0) }
        ensures counted { IfOk result (λ r. IfSome r.1 (λ d. AreCountedInOld views.now d.items)) }
        ensures flags { IfOk result (λ r. IfSome r.2 (λ f. f.items ≡ views.now.new.now)) }
    {
        let CachedArcs {
            edges,
            listed,
            degrees,
        } = self;
        if !is_same(&edges, views.old) {
            return Ok((Listed::Nothing, None, None));
        }
        let heads = heads_of(alloc, views.graph.node_count() as usize, views.arcs)?;
        let flags = renewed(edges, views.old, views.new, views.edges);
        match listed {
            Listed::Nothing => Ok((Listed::Nothing, degrees, Some(flags))),
            Listed::Tails(tails) => {
                let mut live = tails;
                renew_tails(&mut live, views.graph, views.rows, views.new, &heads);
                Ok((Listed::Tails(live), degrees, Some(flags)))
            }
            Listed::Links(column, links) => {
                let mut live = links;
                renew_links(
                    &mut live,
                    views.graph,
                    views.rows,
                    views.new,
                    column,
                    &heads,
                );
                Ok((Listed::Links(column, live), degrees, Some(flags)))
            }
        }
    }
}

// The flags of a view: these, if they are at hand, and else a copy.
fn flags_of(alloc: Global, edges: &[bool], flags: Option<Vec<bool>>) -> Result<Vec<bool>, NoMemory>
    requires { IfSome flags (λ f. f.items ≡ edges.now) }
    ensures { IfOk result (λ f. f.items ≡ edges.now) }
{
    match flags {
        Some(own) => Ok(own),
        None => {
            let copy = Vec::from_slice(alloc, edges)?;
            Ok(copy)
        }
    }
}

// The flags of a view, given those of the view before, by turning those of the edges that are in one of the two alone.
fn renewed(kept: Vec<bool>, _old: &[bool], new: &[bool], turned: &[EdgeNo]) -> Vec<bool>
    requires kept { kept.items ≡ _old.now }
    requires size { length _old.now ≡ length new.now }
    requires within { All (λ e. e.0 < length new.now) turned.now }
    requires tells { TellsAll _old.now new.now turned.now }
    ensures { result.items ≡ new.now }
{
    let mut flags = kept;
    for edge in turned {
        let place = edge.0 as usize;
        flags[place] = new[place];
    }
    flags
}

// Whether these are the same flags.
fn is_same(first: &[bool], second: &[bool]) -> bool
    ensures { IsTrue result → first.now ≡ second.now }
{
    first == second
}

// The nodes to which one of these arcs comes.
fn heads_of(alloc: Global, count: usize, arcs: &[Arc]) -> Result<Vec<bool>, NoMemory>
    requires { All (λ a. a.head.0 < count) arcs.now }
    ensures size { IfOk result (λ nodes. length nodes.items ≡ count) }
    ensures heads { IfOk result (λ nodes. All (λ a. get_or nodes.items a.head.0 false ≡ true) arcs.now) }
{
    let mut nodes = vec![in alloc; false; count]?;
    for arc in arcs {
        nodes[arc.head.0 as usize] = true;
    }
    Ok(nodes)
}
