//! The answers of views, kept as differences.

ghost use Rattle.std.specs.Prelude.{◌≡◌, ◌≤◌, [], Some, is_some, IfOk, OnOk, OnErr};
ghost use Rattle.result_tables.specs.Results.{IsNew, IsHeld, IsBefore, IsChange, HasValues, held_on, table_on, with_answer};

use crate::entries::{Entries, Entry};
use crate::table::Table;
use graph_model::{NodeNo, Val, ViewNo};
use std::alloc::Global;
use std::marker::Model;
use surge_outside::NoMemory;
use vertex_lang::Outcome;

/// The answers on views of one graph. An answer behind that on another view is kept as what differs, and now and then as a
/// list of all values: where the changes since the last such list come to more than the nodes. So a table costs about the
/// nodes, whatever the number of views behind one another, and the memory is that of the changes, with at most about one
/// list of all values for as many changes.
#[derive(Debug, Drop)]
pub struct Results {
    alloc: Global,
    entries: Entries,
}

impl Model for Results {
    ghost use Rattle.result_tables.specs.Results.{ResultsData};

    ghost Value = { ResultsData };

    ghost use Rattle.result_tables.specs.ResultsInside.{results_of, AreResults};

    ghost view = { results_of };

    ghost invariant = { AreResults };
}

impl Results {
    /// No answer yet, over a graph with so many nodes, at most 1,000,000. It takes no memory.
    pub fn new(alloc: Global, nodes: u32) -> Results
        requires { nodes ≤ 1_000_000 }
        ensures nodes { result.nodes ≡ nodes }
        ensures held { result.held ≡ [] }
    {
        let entries = Entries {
            nodes,
            list: Vec::new(alloc),
        };
        Results { alloc, entries }
    }

    /// Adds the answer on a view: how its run ended, and the nodes whose values after all rounds differ from those of the
    /// view before, each with its value now. Without a view before, each node is named once, in order. The one error is want
    /// of memory, and it leaves all as it was.
    pub fn add_change(
        &mut self,
        view: ViewNo,
        before: Option<ViewNo>,
        outcome: Outcome,
        change: &[(NodeNo, Val)],
    ) -> Result<(), NoMemory>
        requires new { IsNew self.old view }
        requires before { IsBefore self.old before }
        requires change { IsChange self.old before change.now }
        ensures ok { OnOk result (self.new ≡ with_answer self.old view before outcome change.now) }
        ensures err { OnErr result (self.new ≡ self.old) }
    {
        let kept = self.entries.keep(self.alloc, before, change)?;
        self.entries.list.push(Entry {
            view,
            outcome,
            kept,
        })?;
        Ok(())
    }

    /// Whether the answer on a view is held. It takes no memory.
    pub fn has(&self, view: ViewNo) -> bool
        ensures { result ≡ is_some (held_on self.now view) }
    {
        self.entries.place_of(view).is_some()
    }

    /// The answer on a view that is held, as a table: without values where its run was to settle and did not. The one error
    /// is want of memory.
    pub fn table(&self, view: ViewNo) -> Result<Table, NoMemory>
        requires { IsHeld self.now view }
        ensures table { IfOk result (λ table. table_on self.now view ≡ Some table) }
        ensures size { IfOk result (λ table. HasValues self.now.nodes table.outcome table.values) }
    {
        self.entries.table(self.alloc, view)
    }
}
