//! The arcs of all edges that are in one of two views alone, by a node.

ghost use Rattle.std.specs.Prelude.{◌≡◌, ◌≢◌, ◌<◌, ◌==◌, filter, length, All, IfOk, IsFalse};
ghost use Rattle.std.specs.List.Sorted.{IsPermutation};
ghost use Rattle.arc_rows.specs.RowLists.{IsGrouped, key_of};

use crate::rows::{grouped, row_of};
use graph_model::{EdgeNo, NodeNo};
use std::alloc::Global;
use surge_outside::{List, NoMemory};
use vertex_lang::Arc;

/// Arcs in rows, by head or by tail.
#[derive(Drop)]
pub struct Turned {
    pub arcs: List<Arc>,
    pub ends: List<usize>,
}

impl Turned {
    /// These arcs by head, or else by tail, of a graph with so many nodes. The error is want of memory.
    pub fn new(alloc: Global, count: u32, arcs: &[Arc], by_head: bool) -> Result<Turned, NoMemory>
        requires nodes { All (λ a. key_of by_head a < count) arcs.now }
        ensures rows { IfOk result (λ t. IsGrouped (key_of by_head) t.arcs t.ends count) }
        ensures same { IfOk result (λ t. IsPermutation arcs.now t.arcs) }
    {
        let (arcs, ends) = grouped(alloc, count, arcs, by_head)?;
        Ok(Turned { arcs, ends })
    }

    /// Those that come to a node.
    pub fn coming_to(&self, node: NodeNo) -> &[Arc]
        requires grouped { IsGrouped (λ a. a.head.0) self.now.arcs self.now.ends (length self.now.ends) }
        requires node { node.0 < length self.now.ends }
        ensures { result.now ≡ filter (λ a. a.head.0 == node.0) self.now.arcs }
    {
        row_of(self.arcs.as_slice(), self.ends.as_slice(), node.0 as usize)
    }

    /// Those that leave a node.
    pub fn leaving(&self, node: NodeNo) -> &[Arc]
        requires grouped { IsGrouped (λ a. a.tail.0) self.now.arcs self.now.ends (length self.now.ends) }
        requires node { node.0 < length self.now.ends }
        ensures { result.now ≡ filter (λ a. a.tail.0 == node.0) self.now.arcs }
    {
        row_of(self.arcs.as_slice(), self.ends.as_slice(), node.0 as usize)
    }
}

/// Whether the edge of one of these arcs is this one.
pub fn has_edge(arcs: &[Arc], edge: EdgeNo) -> bool
    ensures { IsFalse result → All (λ a. a.edge.0 ≢ edge.0) arcs.now }
{
    for arc in arcs {
        if arc.edge.0 == edge.0 {
            return true;
        }
    }
    false
}
