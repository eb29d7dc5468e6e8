//! What the steps of a segment go over: the arcs, and what a step leaves to the next.

ghost use Rattle.std.specs.Prelude.{◌≡◌, length, filter, IfOk};
ghost use Rattle.graph_model.specs.GraphData.{GraphData};
ghost use Rattle.vertex_lang.specs.declared.program.Along.{Along};
ghost use Rattle.arc_rows.specs.RowLists.{AreAlong, AreOfAll, AreRows};
ghost use Rattle.arc_rows.specs.Views.{arcs_in, in_either};
ghost use Rattle.round_kernel.specs.Kernels.{IsKernel};

use crate::spare::Spare;
use arc_rows::{CachedArcs, Rows};
use graph_model::Graph;
use std::alloc::Global;
use surge_outside::NoMemory;
use vertex_lang::Along;

/// The arcs that the edges of a graph give in one direction, and what is kept of the view that was stepped last.
#[derive(Debug, Drop)]
pub struct Kernel {
    pub(crate) rows: Rows,
    pub(crate) cached: CachedArcs,
    pub(crate) spare: Spare,
}

impl Kernel {
    /// Over the arcs of all edges of a graph. The error is want of memory.
    pub fn new(alloc: Global, graph: &Graph, along: Along) -> Result<Kernel, NoMemory>
        ensures kernel { IfOk result (IsKernel graph.now) }
        ensures all { IfOk result (λ kernel. AreOfAll along graph.now kernel.rows) }
        ensures along { IfOk result (λ kernel. AreAlong along graph.now kernel.rows) }
    {
        let rows = Rows::new(alloc, graph, along)?;
        Ok(Kernel::over(alloc, rows))
    }

    /// Over those arcs alone whose edge is in one of two views or in both. The error is want of memory.
    pub fn within(
        &self,
        alloc: Global,
        graph: &Graph,
        old: &[bool],
        new: &[bool],
    ) -> Result<Kernel, NoMemory>
        requires kernel { IsKernel graph.now self.now }
        requires old { length old.now ≡ length graph.now.ends }
        requires new { length new.now ≡ length graph.now.ends }
        ensures kernel { IfOk result (IsKernel graph.now) }
        ensures arcs { IfOk result (λ kernel. kernel.rows.by_head ≡ filter (in_either old.now new.now) self.now.rows.by_head) }
        ensures old { IfOk result (λ kernel. arcs_in kernel.rows.by_head old.now ≡ arcs_in self.now.rows.by_head old.now) }
        ensures new { IfOk result (λ kernel. arcs_in kernel.rows.by_head new.now ≡ arcs_in self.now.rows.by_head new.now) }
        ensures along { IfOk result (λ kernel. (way : Along) → AreAlong way graph.now self.now.rows → AreAlong way graph.now kernel.rows) }
    {
        let rows = self.rows.within(alloc, graph, old, new)?;
        Ok(Kernel::over(alloc, rows))
    }

    // Over these arcs, with nothing kept.
    fn over(alloc: Global, rows: Rows) -> Kernel
        ensures rows { result.rows ≡ rows }
        ensures kernel { (graph : GraphData) → AreRows graph rows → IsKernel graph result }
    {
        Kernel {
            rows,
            cached: CachedArcs::nothing(alloc),
            spare: Spare::nothing(alloc),
        }
    }
}
