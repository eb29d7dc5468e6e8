//! What a round gives.

ghost use Rattle.std.specs.Prelude.{◌≡◌, []};
ghost use Rattle.round_kernel.specs.Changes.{made_changes};

use change_lists::Change;
use graph_model::NodeNo;
use std::alloc::Global;
use std::rc::Rc;
use surge_outside::{List, NoMemory};

/// What a round of the new view gives: the nodes whose input changed in it, and what changes to the next round.
#[derive(Drop)]
pub(crate) struct Made {
    /// The nodes with a changed input: of touched nodes alone, where the list of the view before is shared.
    pub(crate) marks: List<NodeNo>,
    /// What changes: of touched nodes alone, where the list of the view before is shared.
    pub(crate) changes: List<Change>,
    /// The list of the view before with its memory, where it has the very nodes with a changed input.
    pub(crate) same_marks: Option<Rc<List<NodeNo>>>,
    /// And where it has the very changes.
    pub(crate) same_changes: Option<Rc<List<Change>>>,
    /// Whether few touched nodes change to the next round. Then all that changes to it in either view follows, but at nodes that were
    /// never touched and from which no turned arc leaves: of these nobody has to be told. Else all nodes are visited in it.
    pub(crate) few: bool,
    pub(crate) stirred: List<Change>,
}

impl Made {
    /// Nothing yet, with room for a mark and a change of each node, of so many. The error is want of memory.
    pub(crate) fn new(alloc: Global, count: u32) -> Result<Made, NoMemory> {
        let marks = Vec::with_capacity(alloc, count as usize)?;
        let changes = Vec::with_capacity(alloc, count as usize)?;
        Ok(Made {
            marks: List::from_vec(marks),
            changes: List::from_vec(changes),
            same_marks: None,
            same_changes: None,
            few: false,
            stirred: List::new(alloc),
        })
    }

    /// No marks and no changes anew.
    pub(crate) fn clear(&mut self)
        ensures marks { self.new.marks ≡ [] }
        ensures changes { self.new.changes ≡ [] }
        ensures few { self.new.few ≡ self.old.few }
        ensures stirred { self.new.stirred ≡ self.old.stirred }
    {
        self.marks.clear();
        self.changes.clear();
        self.same_marks = None;
        self.same_changes = None;
    }

    /// What changes to the next round.
    pub(crate) fn changed(&self) -> &[Change]
        ensures { result.now ≡ made_changes self.now }
    {
        match &self.same_changes {
            Some(same) => same.as_slice(),
            None => self.changes.as_slice(),
        }
    }
}
