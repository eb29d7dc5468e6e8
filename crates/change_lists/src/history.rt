//! What is kept of a view.

ghost use Rattle.std.specs.Prelude.{◌≡◌, ◌<◌, ◌-◌, [], get_or, option_map, IfOk, None};
ghost use Rattle.std.specs.Rc.{rc_value};

use crate::chained::ChainedLists;
use graph_model::{NodeNo, Val};
use std::alloc::Global;
use std::rc::Rc;
use surge_outside::{List, NoMemory};

/// A node, and the value that it changed to.
#[derive(Clone, Copy, Debug, PartialEq, Eq)]
pub struct Change {
    pub node: NodeNo,
    pub value: Val,
}

/// The plain run of a view, as what changes from round to round. At place `k` of `changes` stand the nodes whose value
/// changes from round `k` to round `k + 1`, each with its value then, and at place `k` of `marks` the nodes whose input
/// differs between these rounds, each once and in any order. Behind the last place nothing changes.
#[derive(Debug, Drop)]
pub struct History {
    pub changes: ChainedLists<Change>,
    pub marks: ChainedLists<NodeNo>,
    /// The value with which each node starts, which is the same in all views, so that their histories share it; nothing where no
    /// view was stepped yet.
    pub starts: Option<Rc<List<Val>>>,
}

impl History {
    /// Of a run in which nothing changes.
    pub fn new(alloc: Global) -> History
        ensures changes { result.changes ≡ [] }
        ensures marks { result.marks ≡ [] }
        ensures starts { result.starts ≡ None }
    {
        History {
            changes: ChainedLists::new(alloc),
            marks: ChainedLists::new(alloc),
            starts: None,
        }
    }

    /// An empty history with room for a little more than another one holds. The error is want of memory.
    pub fn beside(alloc: Global, other: &History) -> Result<History, NoMemory>
        ensures changes { IfOk result (λ h. h.changes ≡ []) }
        ensures marks { IfOk result (λ h. h.marks ≡ []) }
    {
        let changes = ChainedLists::with_room(
            alloc,
            with_more(other.changes.size()),
            with_more(other.changes.len()),
        )?;
        let marks = ChainedLists::with_room(
            alloc,
            with_more(other.marks.size()),
            with_more(other.marks.len()),
        )?;
        Ok(History {
            changes,
            marks,
            starts: None,
        })
    }

    /// The same history once more, which shares the memory of its long lists and of the first values. The error is want of memory.
    pub fn shared(&self, alloc: Global) -> Result<History, NoMemory>
        ensures changes { IfOk result (λ h. h.changes ≡ self.now.changes) }
        ensures marks { IfOk result (λ h. h.marks ≡ self.now.marks) }
        ensures starts { IfOk result (λ h. option_map rc_value h.starts ≡ option_map rc_value self.now.starts) }
    {
        let changes = self.changes.shared(alloc)?;
        let marks = self.marks.shared(alloc)?;
        let starts = match &self.starts {
            Some(own) => Some(own.clone()?),
            None => None,
        };
        Ok(History {
            changes,
            marks,
            starts,
        })
    }

    /// What changes from this round to the next.
    pub fn changes_after(&self, round: u32) -> &[Change]
        ensures { result.now ≡ get_or self.now.changes round [] }
    {
        self.changes.at(round as usize)
    }

    /// What changes from the round before this one. Nothing is before round 0.
    pub fn changes_before(&self, round: u32) -> &[Change]
        ensures { 0 < round → result.now ≡ get_or self.now.changes (round - 1) [] }
    {
        if round == 0 {
            return &[];
        }
        self.changes.at((round - 1) as usize)
    }

    /// The nodes whose input differs between this round and the next.
    pub fn marks_after(&self, round: u32) -> &[NodeNo]
        ensures { result.now ≡ get_or self.now.marks round [] }
    {
        self.marks.at(round as usize)
    }
}

// A sixteenth more: neighbouring views differ little, and a list that is a little too short is copied whole.
fn with_more(size: usize) -> usize {
    size.saturating_add(size / 16)
}
