//! How the answers of views lie in memory.

ghost use Rattle.std.specs.Prelude.{◌≡◌, ◌<◌, ◌==◌, Some, length, map, All, IfOk};
ghost use Rattle.std.specs.List.{position};
ghost use Rattle.result_tables.specs.Results.{HasValues, IsBefore, IsChange, IsHeld, assigned, held_on, shown, table_on, values_after, values_of};
ghost use Rattle.result_tables.specs.ResultsInside.{AreEntries, Keeps, data_of, table_at, values_at};

use crate::table::Table;
use graph_model::{NodeNo, Val, ViewNo};
use std::alloc::Global;
use surge_outside::{List, NoMemory};
use vertex_lang::Outcome;

/// The answer on a view, with its values in one of two ways.
#[derive(Debug, Drop)]
pub(crate) struct Entry {
    pub(crate) view: ViewNo,
    pub(crate) outcome: Outcome,
    pub(crate) kept: Kept,
}

/// How the values of a view are kept.
#[derive(Debug, Drop)]
pub(crate) enum Kept {
    /// As the value of each node.
    Full(List<Val>),
    /// As what differs from the values of an earlier entry.
    Over(Difference),
}

/// What differs from the values of the entry at the place `base`. All differences on the way to it from the last full list,
/// itself included, weigh `since`.
#[derive(Debug, Drop)]
pub(crate) struct Difference {
    pub(crate) base: usize,
    pub(crate) since: usize,
    pub(crate) change: List<(NodeNo, Val)>,
}

/// The answers on views of a graph with so many nodes, in the order in which they were added.
#[derive(Debug, Drop)]
pub(crate) struct Entries {
    pub(crate) nodes: u32,
    pub(crate) list: Vec<Entry>,
}

impl Entries {
    /// The place of the first answer on a view.
    pub(crate) fn place_of(&self, view: ViewNo) -> Option<usize>
        ensures { result ≡ position (λ e. e.view.0 == view.0) self.now.list.items }
    {
        self.list.iter().position(|entry| entry.view == view)
    }

    // What the differences on the way to this entry weigh.
    fn since(&self, place: usize) -> usize
        requires { place < length self.now.list.items }
    {
        match &self.list[place].kept {
            Kept::Full(_) => 0,
            Kept::Over(difference) => difference.since,
        }
    }

    // The values of this entry: those of the last full list on its way, with what differs since.
    fn values_at(&self, alloc: Global, place: usize) -> Result<Vec<Val>, NoMemory>
        requires entries { AreEntries self.now }
        requires place { place < length self.now.list.items }
        ensures { IfOk result (λ values. values.items ≡ values_at self.now.list.items place) }
    {
        match &self.list[place].kept {
            Kept::Full(values) => Ok(Vec::from_slice(alloc, values.as_slice())?),
            Kept::Over(difference) => {
                let mut values = self.values_at(alloc, difference.base)?;
                assign(&mut values, difference.change.as_slice());
                Ok(values)
            }
        }
    }

    // How values are kept that differ by this change from those of an entry: as a full list where the differences on the way
    // would come to more than the nodes.
    fn keep_over(
        &self,
        alloc: Global,
        base: usize,
        change: &[(NodeNo, Val)],
    ) -> Result<Kept, NoMemory>
        requires entries { AreEntries self.now }
        requires base { base < length self.now.list.items }
        requires change { All (λ c. c.0.0 < self.now.nodes) change.now }
        ensures { IfOk result (Keeps self.now (assigned (values_at self.now.list.items base) change.now)) }
    {
        let since = self
            .since(base)
            .saturating_add(weight(self.nodes, change.len()));
        if since <= self.nodes as usize {
            let change = List::from_vec(Vec::from_slice(alloc, change)?);
            return Ok(Kept::Over(Difference {
                base,
                since,
                change,
            }));
        }
        let mut values = self.values_at(alloc, base)?;
        assign(&mut values, change);
        Ok(Kept::Full(List::from_vec(values)))
    }

    // How values are kept that differ by this change from those of the view before.
    fn keep_behind(
        &self,
        alloc: Global,
        last: ViewNo,
        change: &[(NodeNo, Val)],
    ) -> Result<Kept, NoMemory>
        requires entries { AreEntries self.now }
        requires last { IsHeld (data_of self.now) last }
        requires change { All (λ c. c.0.0 < self.now.nodes) change.now }
        ensures { IfOk result (Keeps self.now (assigned (values_of (held_on (data_of self.now) last)) change.now)) }
    {
        match self.place_of(last) {
            Some(base) => self.keep_over(alloc, base, change),
            None => unreachable!(),
        }
    }

    /// How the values are kept that a change gives behind the view before, or of a first view.
    pub(crate) fn keep(
        &self,
        alloc: Global,
        before: Option<ViewNo>,
        change: &[(NodeNo, Val)],
    ) -> Result<Kept, NoMemory>
        requires entries { AreEntries self.now }
        requires before { IsBefore (data_of self.now) before }
        requires change { IsChange (data_of self.now) before change.now }
        ensures { IfOk result (Keeps self.now (values_after (data_of self.now) before change.now)) }
    {
        match before {
            Some(last) => self.keep_behind(alloc, last, change),
            None => Ok(Kept::Full(values_in(alloc, change)?)),
        }
    }

    // What a table of this outcome shows of the values of an entry.
    fn shown(&self, alloc: Global, place: usize, outcome: Outcome) -> Result<List<Val>, NoMemory>
        requires entries { AreEntries self.now }
        requires place { place < length self.now.list.items }
        ensures { IfOk result (λ values. values ≡ shown outcome (values_at self.now.list.items place)) }
    {
        match outcome {
            Outcome::Settled(_) => Ok(List::from_vec(self.values_at(alloc, place)?)),
            Outcome::After(_) => Ok(List::from_vec(self.values_at(alloc, place)?)),
            Outcome::Phases(_) => Ok(List::from_vec(self.values_at(alloc, place)?)),
            Outcome::Unsettled => Ok(List::new(alloc)),
        }
    }

    // The table of this entry.
    fn table_at(&self, alloc: Global, place: usize) -> Result<Table, NoMemory>
        requires entries { AreEntries self.now }
        requires place { place < length self.now.list.items }
        ensures table { IfOk result (λ table. table_at self.now.list.items place ≡ Some table) }
        ensures size { IfOk result (λ table. HasValues self.now.nodes table.outcome table.values) }
    {
        let outcome = self.list[place].outcome;
        let values = self.shown(alloc, place, outcome)?;
        Ok(Table { outcome, values })
    }

    /// The table of a view.
    pub(crate) fn table(&self, alloc: Global, view: ViewNo) -> Result<Table, NoMemory>
        requires entries { AreEntries self.now }
        requires held { IsHeld (data_of self.now) view }
        ensures table { IfOk result (λ table. table_on (data_of self.now) view ≡ Some table) }
        ensures size { IfOk result (λ table. HasValues self.now.nodes table.outcome table.values) }
    {
        match self.place_of(view) {
            Some(place) => self.table_at(alloc, place),
            None => unreachable!(),
        }
    }
}

// The new values, in order.
fn values_in(alloc: Global, change: &[(NodeNo, Val)]) -> Result<List<Val>, NoMemory>
    ensures { IfOk result (λ values. values ≡ map (λ c. c.1) change.now) }
{
    let mut values = Vec::with_capacity(alloc, change.len())?;
    for (_, value) in change {
        values.push(*value)?;
    }
    Ok(List::from_vec(values))
}

// Gives each node that is named its new value, one after the other.
fn assign(values: &mut [Val], change: &[(NodeNo, Val)])
    requires { All (λ c. c.0.0 < length values.old) change.now }
    ensures { values.new ≡ assigned values.old change.now }
{
    for (node, value) in change {
        values[node.0 as usize] = *value;
    }
}

// What a change of so many nodes weighs: its nodes, and at least one in 1,024 of all, so that no way is longer than that.
fn weight(nodes: u32, change: usize) -> usize {
    change.saturating_add(nodes as usize / 1_024 + 1)
}
