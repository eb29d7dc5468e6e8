//! The rows of the present edges, kept right by differences.

ghost use Rattle.std.specs.Prelude.{◌≡◌, ◌<◌, ◌+◌, ◌^◌, true, false, length, map, replicate, IfOk, OnOk, OnErr};
ghost use Rattle.aggregate_views.specs.Rows.{rows_of, present_edges, HasSumColumn};
ghost use Rattle.flow_core.specs.Runs.{Every};
ghost use Rattle.aggregate_views.specs.Changes.{changed, AreChanges};
ghost use Rattle.aggregate_views.specs.Coding.{key_cell, row_at, sum_in, IsPair};

use crate::cell::GroupRow;
use crate::codes::codes_of;
use crate::encoding::{Encoding, Pair};
use crate::group_key::{GroupKey, owned_cell};
use crate::kept::Kept;
use crate::laws::{pairs_are_ordered, parts_are_ordered, totals_are_ordered};
use crate::part::{HALF, Part, SHIFT, Totals};
use crate::totals::EdgeTotals;
use diff_reduce::Reduce;
use flow_core::{NoCalls, Operator};
use graph_model::{EdgeNo, Graph};
use lattice_time::Position;
use std::alloc::Global;
use std::marker::Model;
use surge_outside::{List, NoMemory};
use weighted::Weight;

/// The totals of all pairs of groups.
type PairTotals = Reduce<EdgeTotals, Position, NoCalls>;

/// The present edges of a graph by the groups of their ends. Edges come and go by lists of changes; over many of them a list
/// costs what it changes, not the edges and pairs of groups that stay.
#[derive(Drop)]
pub struct Groups<'g> {
    alloc: Global,
    column: usize,
    keys: Vec<GroupKey<'g>>,
    encoding: Encoding<'g>,
    present: Vec<bool>,
    kept: Kept<PairTotals>,
    spent: bool,
}

impl<'g> Model for Groups<'g> {
    ghost use Rattle.aggregate_views.specs.Inside.{GroupsData, data_of, IsGroups};

    ghost Value = { GroupsData };

    ghost view = { data_of };

    ghost invariant = { λ a. let it = ⟦<PairTotals as Operator<Position, NoCalls>>⟧ in IsGroups it.stands it.due it.seal it.spent it.apply ⟦<Pair as Ord>⟧.cmp ⟦<Part as Ord>⟧.cmp a.kept.operator a };
}

/// Turns the edges of these changes.
fn turn(present: &mut [bool], changes: &[(EdgeNo, bool)])
    requires { AreChanges present.old changes.now }
    ensures { present.new ≡ changed present.old changes.now }
{
    for (e, comes) in changes {
        present[e.0 as usize] = *comes;
    }
}

impl<'g> Groups<'g> {
    /// The groups of a graph's edges by a column of the nodes, by its place; with a sum of numbers of the edges, by the place
    /// of their column, which is of kind `Int` (a cell of another kind counts as absent). No edge is present. It takes time
    /// in proportion to the nodes, times the logarithm of the number of groups, and to the edges.
    ///
    /// Errors: out of memory.
    pub fn new(
        alloc: Global,
        graph: &'g Graph,
        column: usize,
        sum: Option<usize>,
    ) -> Result<Groups<'g>, NoMemory>
        requires column { column < length graph.now.node_columns }
        requires sum { HasSumColumn graph.now sum }
        ensures graph { IfOk result (λ groups. groups.graph ≡ graph.now) }
        ensures column { IfOk result (λ groups. groups.column ≡ column) }
        ensures sum { IfOk result (λ groups. groups.sum ≡ sum) }
        ensures present { IfOk result (λ groups. groups.present ≡ replicate (length graph.now.ends) false) }
        ensures applied { IfOk result (λ groups. groups.applied ≡ 0) }
        ensures live { IfOk result (λ groups. groups.spent ≡ false) }
    {
        let codes = codes_of(alloc, graph, column)?;
        let present = vec![in alloc; false; graph.edge_count() as usize]?;
        let totals: PairTotals = Reduce::new(alloc, EdgeTotals);
        let encoding = Encoding {
            graph,
            groups: codes.keys.len(),
            places: codes.places,
            sum,
        };
        Ok(Groups {
            alloc,
            column,
            keys: codes.keys,
            encoding,
            present,
            kept: Kept::new(alloc, totals),
            spent: false,
        })
    }

    /// Lets edges come (true) and go (false). Each change names an edge of the graph, which isn't present where it comes and
    /// is present where it goes: so no edge is named twice, unless it goes again. There are fewer than 2^31 calls before,
    /// and the object isn't spent. Over many calls it takes time in proportion to the changes, times their logarithm and that
    /// of the number of pairs of groups that have an edge; a single call may go through all these pairs.
    ///
    /// Errors: out of memory; the object is spent then, and may not be used any more.
    pub fn apply(&mut self, changes: &[(EdgeNo, bool)]) -> Result<(), NoMemory>
        requires changes { AreChanges self.old.present changes.now }
        requires few { self.old.applied < 2 ^ 31 }
        requires live { self.old.spent ≡ false }
        ensures present { OnOk result (self.new.present ≡ changed self.old.present changes.now) }
        ensures applied { OnOk result (self.new.applied ≡ self.old.applied + 1) }
        ensures live { OnOk result (self.new.spent ≡ false) }
        ensures spent { OnErr result (self.new.spent ≡ true) }
        ensures graph { self.new.graph ≡ self.old.graph }
        ensures column { self.new.column ≡ self.old.column }
        ensures sum { self.new.sum ≡ self.old.sum }
    {
        self.spent = true;
        let delta = self.encoding.delta(self.alloc, changes)?;
        self.kept.feed(&delta)?;
        turn(self.present.as_mut_slice(), changes);
        self.spent = false;
        Ok(())
    }

    /// Whether a call of [`Groups::apply`] answered want of memory. It takes no memory.
    pub fn is_spent(&self) -> bool
        ensures { result ≡ self.now.spent }
    {
        self.spent
    }

    /// The rows of the present edges: for each pair of groups that some edge goes between, how many edges there are and the
    /// exact sum of their numbers. They rise by the first group, then the second: an absent cell is least, then whole
    /// numbers rise by value, false comes before true, and texts rise by their bytes. It takes time in proportion to their
    /// number. The object isn't spent.
    ///
    /// Errors: out of memory.
    pub fn rows(&self) -> Result<List<GroupRow>, NoMemory>
        requires live { self.now.spent ≡ false }
        ensures { IfOk result (λ rows. rows ≡ rows_of self.now.graph self.now.column self.now.sum (present_edges self.now.present)) }
    {
        parts_are_ordered();
        pairs_are_ordered();
        totals_are_ordered();
        let held = self.kept.held()?;
        let keys = self.keys.as_slice();
        let rows = all_rows(self.alloc, keys, self.encoding.sum, held.as_slice())?;
        Ok(rows)
    }
}

/// The rows of pairs with their totals.
fn all_rows(
    alloc: Global,
    keys: &[GroupKey<'_>],
    sum: Option<usize>,
    held: &[((Pair, Totals), Weight)],
) -> Result<List<GroupRow>, NoMemory>
    requires { Every (λ e. IsPair (length keys.now) e.0.0) held.now }
    ensures { IfOk result (λ rows. rows ≡ map (λ e. row_at (map key_cell keys.now) sum e.0) held.now) }
{
    let mut rows = List::new(alloc);
    for (entry, _) in held {
        rows.push(one_row(alloc, keys, sum, entry.0, entry.1)?)?;
    }
    Ok(rows)
}

/// The row of a pair and its totals.
fn one_row(
    alloc: Global,
    keys: &[GroupKey<'_>],
    sum: Option<usize>,
    pair: Pair,
    totals: Totals,
) -> Result<GroupRow, NoMemory>
    requires { IsPair (length keys.now) pair }
    ensures { IfOk result (λ row. row ≡ row_at (map key_cell keys.now) sum (pair, totals)) }
{
    Ok(GroupRow {
        from: owned_cell(alloc, keys[pair.0 as usize])?,
        to: owned_cell(alloc, keys[pair.1 as usize])?,
        count: totals.count,
        sum: summed(sum, totals),
    })
}

/// The sum of the numbers of edges with these totals, and 0 where no numbers are summed.
fn summed(sum: Option<usize>, totals: Totals) -> i128
    ensures { result ≡ sum_in sum totals }
{
    match sum {
        None => 0,
        Some(_) => {
            let shifted = i128::from(totals.high) * i128::from(HALF) + i128::from(totals.low);
            shifted - i128::from(totals.count) * i128::from(SHIFT)
        }
    }
}
