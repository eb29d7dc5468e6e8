//! How blocks lie in memory.

ghost use Rattle.std.specs.Prelude.{◌≡◌, [], ◌∷◌, ◌++◌, OnOk};
ghost use Rattle.change_text.specs.Memory.{AreEnds, blocks_of};

use crate::kind::Kind;
use crate::row::Row;
use std::alloc::Global;
use std::marker::Model;
use surge_outside::NoMemory;
use vertex_lang::Outcome;

/// What a block says of its table, and how many bytes its head has, and how many rows it has.
#[derive(Clone, Copy, Debug)]
pub(crate) struct End {
    pub(crate) kind: Kind,
    pub(crate) outcome: Outcome,
    pub(crate) head: usize,
    pub(crate) rows: usize,
}

/// Blocks, with all heads in one list and all rows in another; behind the rows of the blocks stand so many that wait for
/// their block's end.
#[derive(Debug, Drop)]
pub(crate) struct Flat {
    ends: Vec<End>,
    heads: Vec<u8>,
    rows: Vec<Row>,
    waiting: usize,
}

/// What blocks lie in.
#[derive(Clone, Copy)]
pub(crate) struct Parts<'a> {
    pub(crate) ends: &'a [End],
    pub(crate) heads: &'a [u8],
    pub(crate) rows: &'a [Row],
}

impl Model for Flat {
    ghost use Rattle.change_text.specs.Memory.{FlatData};

    ghost Value = { FlatData };

    ghost use Rattle.change_text.specs.MemoryInside.{flat_data, IsFlat};

    ghost view = { flat_data };

    ghost invariant = { IsFlat };
}

impl Flat {
    /// No block, and no row that waits. It takes no memory.
    pub(crate) fn new(alloc: Global) -> Flat
        ensures blocks { result.blocks ≡ [] }
        ensures rows { result.rows ≡ [] }
    {
        Flat {
            ends: Vec::new(alloc),
            heads: Vec::new(alloc),
            rows: Vec::new(alloc),
            waiting: 0,
        }
    }

    /// Adds a row that waits.
    pub(crate) fn push(&mut self, row: Row) -> Result<(), NoMemory>
        ensures blocks { OnOk result (self.new.blocks ≡ self.old.blocks) }
        ensures rows { OnOk result (self.new.rows ≡ self.old.rows ++ row ∷ []) }
    {
        self.rows.push(row)?;
        self.waiting += 1;
        Ok(())
    }

    /// The rows that wait.
    pub(crate) fn waiting(&self) -> &[Row]
        ensures { result.now ≡ self.now.rows }
    {
        &self.rows[self.rows.len() - self.waiting..]
    }

    /// Adds a block of the rows that wait.
    pub(crate) fn close(
        &mut self,
        kind: Kind,
        head: &[u8],
        outcome: Outcome,
    ) -> Result<(), NoMemory>
        ensures blocks { OnOk result (self.new.blocks ≡ self.old.blocks ++ record { kind = kind; head = head.now; outcome = outcome; rows = self.old.rows } ∷ []) }
        ensures rows { OnOk result (self.new.rows ≡ []) }
    {
        let before = self.heads.len();
        self.heads.extend_from_slice(head)?;
        let end = End {
            kind,
            outcome,
            head: head.len(),
            rows: self.waiting,
        };
        if self.ends.push(end).is_err() {
            self.heads.truncate(before);
            return Err(NoMemory);
        }
        self.waiting = 0;
        Ok(())
    }

    /// What the blocks lie in.
    pub(crate) fn parts(&self) -> Parts<'_>
        ensures are { AreEnds result.ends.now result.heads.now result.rows.now }
        ensures blocks { blocks_of result.ends.now result.heads.now result.rows.now ≡ self.now.blocks }
    {
        Parts {
            ends: self.ends.as_slice(),
            heads: self.heads.as_slice(),
            rows: self.rows.as_slice(),
        }
    }
}
