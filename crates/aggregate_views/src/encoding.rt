//! What edges add to the pairs of their groups.

ghost use Rattle.std.specs.Prelude.{◌≡◌, ℕ, ◌<◌, ◌≤◌, ◌++◌, length, get_or, IfOk, OnOk};
ghost use Rattle.weighted.specs.Alike.{Alike};
ghost use Rattle.flow_core.specs.Runs.{Every};
ghost use Rattle.graph_model.specs.GraphData.{cell_of, ends_of};
ghost use Rattle.aggregate_views.specs.Rows.{number_in, HasSumColumn};
ghost use Rattle.aggregate_views.specs.Coding.{code_pair, signed_entries, edge_entries, change_entries, HasNumber, IsKnown};
ghost use Rattle.aggregate_views.specs.Tables.{edge_weights};

use crate::part::{HALF, Part, shifted_number, signed_weight};
use crate::table::{PartWeights, entries_of_table};
use graph_model::{CellRef, EdgeNo, Graph};
use std::alloc::Global;
use surge_outside::{List, NoMemory};
use weighted::{Batch, Weight};

/// A pair of groups, by their places among the cells of groups.
pub(crate) type Pair = (u32, u32);

/// A weight of a part of a pair.
pub(crate) type Entry = ((Pair, Part), Weight);

/// The greatest number of groups of which a table is made.
const MOST_IN_TABLE: usize = 2_000;

/// A graph with the group of each node, by its place among so many, and the column of numbers that are summed.
#[derive(Drop)]
pub(crate) struct Encoding<'g> {
    pub(crate) graph: &'g Graph,
    pub(crate) groups: usize,
    pub(crate) places: Vec<u32>,
    pub(crate) sum: Option<usize>,
}

/// The number in a cell, and 0 where there is none.
fn number_of(cell: CellRef<'_>) -> i64
    ensures { result ≡ number_in (cell_of cell.entry) }
{
    match cell {
        CellRef::Int(number) => number,
        _ => 0,
    }
}

impl Encoding<'_> {
    /// The groups of the ends of an edge.
    fn pair(&self, e: EdgeNo) -> Pair
        requires edge { e.0 < length self.now.graph.now.ends }
        requires places { length self.now.places.items ≡ length self.now.graph.now.ids }
        ensures pair { result ≡ code_pair self.now.graph.now self.now.places.items e.0 }
        ensures from { (ends_of self.now.graph.now e.0).0.0 < length self.now.graph.now.ids }
        ensures to { (ends_of self.now.graph.now e.0).1.0 < length self.now.graph.now.ids }
    {
        let from = self.graph.src(e);
        let to = self.graph.dst(e);
        (self.places[from.0 as usize], self.places[to.0 as usize])
    }

    /// The weights of an edge.
    fn weights(&self, e: EdgeNo) -> PartWeights
        requires edge { e.0 < length self.now.graph.now.ends }
        requires sum { HasSumColumn self.now.graph.now self.now.sum }
        ensures weights { result ≡ edge_weights self.now.graph.now self.now.sum e.0 }
        ensures number { HasNumber self.now.graph.now self.now.sum e.0 }
    {
        let Some(column) = self.sum else {
            return PartWeights {
                count: 1,
                low: 0,
                high: 0,
            };
        };
        let number = shifted_number(number_of(self.graph.edge_cell(e, column)));
        PartWeights {
            count: 1,
            low: number % HALF,
            high: number / HALF,
        }
    }

    /// Adds what an edge adds, or takes away, at the end. The one error is want of memory.
    fn push_edge(&self, e: EdgeNo, comes: bool, into: &mut Vec<Entry>) -> Result<(), NoMemory>
        requires edge { e.0 < length self.now.graph.now.ends }
        requires places { length self.now.places.items ≡ length self.now.graph.now.ids }
        requires sum { HasSumColumn self.now.graph.now self.now.sum }
        ensures known { OnOk result (IsKnown self.now.graph.now self.now.sum e.0) }
        ensures entries { OnOk result (into.new.items ≡ into.old.items ++ signed_entries comes (edge_entries self.now.graph.now self.now.places.items self.now.sum e.0)) }
    {
        let pair = self.pair(e);
        let weights = self.weights(e);
        into.push(((pair, Part::Count), signed_weight(comes, weights.count)))?;
        if self.sum.is_none() {
            return Ok(());
        }
        into.push(((pair, Part::Low), signed_weight(comes, weights.low)))?;
        into.push(((pair, Part::High), signed_weight(comes, weights.high)))?;
        Ok(())
    }

    /// What these changes add to the pairs, change by change.
    fn listed(&self, alloc: Global, changes: &[(EdgeNo, bool)]) -> Result<Vec<Entry>, NoMemory>
        requires edges { Every (λ c. c.0.0 < length self.now.graph.now.ends) changes.now }
        requires places { length self.now.places.items ≡ length self.now.graph.now.ids }
        requires sum { HasSumColumn self.now.graph.now self.now.sum }
        ensures known { OnOk result (Every (λ c. IsKnown self.now.graph.now self.now.sum c.0.0) changes.now) }
        ensures entries { IfOk result (λ entries. entries.items ≡ change_entries self.now.graph.now self.now.places.items self.now.sum changes.now) }
    {
        let parts = if self.sum.is_some() { 3 } else { 1 };
        let mut entries = Vec::with_capacity(alloc, changes.len().saturating_mul(parts))?;
        for (e, comes) in changes {
            self.push_edge(*e, *comes, &mut entries)?;
        }
        Ok(entries)
    }

    /// What these changes add to the pairs, pair by pair.
    fn tabled(&self, alloc: Global, changes: &[(EdgeNo, bool)]) -> Result<Vec<Entry>, NoMemory>
        requires edges { Every (λ c. c.0.0 < length self.now.graph.now.ends) changes.now }
        requires places { length self.now.places.items ≡ length self.now.graph.now.ids }
        requires groups { (n : ℕ) → n < length self.now.graph.now.ids → get_or self.now.places.items n 0 < self.now.groups }
        requires some { 0 < self.now.groups }
        requires few { self.now.groups ≤ 2_000 }
        requires sum { HasSumColumn self.now.graph.now self.now.sum }
        ensures known { OnOk result (Every (λ c. IsKnown self.now.graph.now self.now.sum c.0.0) changes.now) }
        ensures entries { IfOk result (λ entries. Alike entries.items (change_entries self.now.graph.now self.now.places.items self.now.sum changes.now)) }
    {
        let mut table = vec![in alloc; PartWeights::new(); self.groups * self.groups]?;
        for (e, comes) in changes {
            let pair = self.pair(*e);
            let place = pair.0 as usize * self.groups + pair.1 as usize;
            table[place] = table[place].with(*comes, self.weights(*e));
        }
        entries_of_table(alloc, self.groups, table.as_slice())
    }

    /// What these changes add to the pairs. Where there are at least as many changes as pairs they are summed in a table.
    fn entries(&self, alloc: Global, changes: &[(EdgeNo, bool)]) -> Result<Vec<Entry>, NoMemory>
        requires edges { Every (λ c. c.0.0 < length self.now.graph.now.ends) changes.now }
        requires places { length self.now.places.items ≡ length self.now.graph.now.ids }
        requires groups { (n : ℕ) → n < length self.now.graph.now.ids → get_or self.now.places.items n 0 < self.now.groups }
        requires sum { HasSumColumn self.now.graph.now self.now.sum }
        ensures known { OnOk result (Every (λ c. IsKnown self.now.graph.now self.now.sum c.0.0) changes.now) }
        ensures entries { IfOk result (λ entries. Alike entries.items (change_entries self.now.graph.now self.now.places.items self.now.sum changes.now)) }
    {
        let groups = self.groups;
        if 0 < groups && groups <= MOST_IN_TABLE && groups * groups <= changes.len() {
            return self.tabled(alloc, changes);
        }
        let entries = self.listed(alloc, changes)?;
        Ok(entries)
    }

    /// What these changes add to the pairs, as a batch.
    ///
    /// Errors: out of memory.
    pub(crate) fn delta(
        &self,
        alloc: Global,
        changes: &[(EdgeNo, bool)],
    ) -> Result<Batch<(Pair, Part)>, NoMemory>
        requires edges { Every (λ c. c.0.0 < length self.now.graph.now.ends) changes.now }
        requires places { length self.now.places.items ≡ length self.now.graph.now.ids }
        requires groups { (n : ℕ) → n < length self.now.graph.now.ids → get_or self.now.places.items n 0 < self.now.groups }
        requires sum { HasSumColumn self.now.graph.now self.now.sum }
        ensures known { OnOk result (Every (λ c. IsKnown self.now.graph.now self.now.sum c.0.0) changes.now) }
        ensures entries { IfOk result (λ delta. Alike delta (change_entries self.now.graph.now self.now.places.items self.now.sum changes.now)) }
    {
        let entries = self.entries(alloc, changes)?;
        let delta = Batch::from_entries(List::from_vec(entries))?;
        Ok(delta)
    }
}
