//! Takes the lines of a change text, one after the other.

ghost use Rattle.std.specs.Prelude.{◌≡◌, ◌≢◌, ◌<◌, ◌≤◌, [], None, true, length, take, All, IfOk, OnOk, is_some};
ghost use Rattle.change_text.specs.Blocks.{IsLine, IsRising};
ghost use Rattle.change_text.specs.Spelling.{last_line};
ghost use Rattle.change_text.specs.Inside.{Brings, IsChanging, IsOpenAs, IsReader, Takes, has_rows, lines_so_far, may_change, may_stand, settled};

use crate::flat::Flat;
use crate::kind::Kind;
use crate::line::read_row;
use crate::opening::{Opening, read_opening};
use crate::place::change_row;
use crate::row::Row;
use std::alloc::Global;
use surge_outside::{List, NoMemory};
use vertex_lang::Outcome;

/// What the first line of a block said, whose last line wasn't read yet.
#[derive(Drop)]
pub(crate) struct Opened {
    pub(crate) kind: Kind,
    pub(crate) outcome: Outcome,
    pub(crate) head: List<u8>,
}

/// What was read so far: blocks, and a block that is open, whose rows wait; how the last block's run ended; the table of the
/// last block, with the rows of an open change; the lowest id that the next row may have; and how many rows of the table were
/// passed, which have lower ids.
#[derive(Drop)]
pub(crate) struct Reader {
    pub(crate) alloc: Global,
    pub(crate) flat: Flat,
    pub(crate) begun: Option<Opened>,
    pub(crate) last: Option<Outcome>,
    pub(crate) table: Vec<Row>,
    pub(crate) low: u64,
    pub(crate) place: usize,
}

// Whether a change may stand between two tables whose runs ended so.
fn may_change(before: Option<Outcome>, outcome: Outcome) -> bool
    ensures { result ≡ may_change before outcome }
{
    match (before, outcome) {
        (None, _) => false,
        (Some(Outcome::Unsettled), _) => false,
        (Some(Outcome::Settled(_)), Outcome::Unsettled) => false,
        (Some(Outcome::After(_)), Outcome::Unsettled) => false,
        (Some(Outcome::Phases(_)), Outcome::Unsettled) => false,
        _ => true,
    }
}

// Whether a block of this kind may stand there.
fn may_stand(before: Option<Outcome>, kind: Kind, outcome: Outcome) -> bool
    ensures { result ≡ may_stand before kind outcome }
{
    match kind {
        Kind::Full => true,
        Kind::Change => may_change(before, outcome),
    }
}

// Whether rows may stand in the block of a run that ended so.
fn has_rows(outcome: Outcome) -> bool
    ensures { result ≡ has_rows outcome }
{
    match outcome {
        Outcome::Settled(_) => true,
        Outcome::After(_) => true,
        Outcome::Phases(_) => true,
        Outcome::Unsettled => false,
    }
}

// Brings the table that is kept up to date with a row, where the row differs, and tells how many rows are passed.
fn bring(table: &mut [Row], place: usize, kind: Kind, row: Row) -> Option<usize>
    requires place { place ≤ length table.old }
    requires change { IsChanging kind table.old place row }
    ensures { Brings kind table.old place row table.new result }
{
    match kind {
        Kind::Full => Some(place),
        Kind::Change => change_row(table, place, row),
    }
}

// Makes the table that is kept that of a block, whose rows are these: a change has brought it up to date already.
fn settle(table: &mut Vec<Row>, kind: Kind, rows: &[Row]) -> Result<(), NoMemory>
    ensures { OnOk result (table.new.items ≡ settled kind table.old.items rows.now) }
{
    match kind {
        Kind::Full => {
            table.clear();
            table.extend_from_slice(rows)?;
            Ok(())
        }
        Kind::Change => Ok(()),
    }
}

impl Reader {
    /// Nothing was read.
    pub(crate) fn new(alloc: Global) -> Reader
        ensures reader { IsReader result }
        ensures lines { lines_so_far result ≡ [] }
    {
        Reader {
            alloc,
            flat: Flat::new(alloc),
            begun: None,
            last: None,
            table: Vec::new(alloc),
            low: 0,
            place: 0,
        }
    }

    // Takes the first line of a block.
    fn open_block(&mut self, line: &[u8]) -> Result<bool, NoMemory>
        requires reader { IsReader self.old }
        requires shut { self.old.begun ≡ None }
        requires line { IsLine line.now }
        ensures { IfOk result (Takes self.old line.now self.new) }
    {
        let Some(opening) = read_opening(line) else {
            return Ok(false);
        };
        if !may_stand(self.last, opening.kind, opening.outcome) {
            return Ok(false);
        }
        let head = List::from_vec(Vec::from_slice(self.alloc, opening.head)?);
        self.begun = Some(Opened {
            kind: opening.kind,
            outcome: opening.outcome,
            head,
        });
        Ok(true)
    }

    // Takes a line of the open block that isn't its last.
    fn take_row(&mut self, kind: Kind, outcome: Outcome, line: &[u8]) -> Result<bool, NoMemory>
        requires reader { IsReader self.old }
        requires begun { IsOpenAs self.old.begun kind outcome }
        requires line { line.now ≢ last_line }
        ensures { IfOk result (Takes self.old line.now self.new) }
    {
        let Some(row) = read_row(line) else {
            return Ok(false);
        };
        if row.id < self.low {
            return Ok(false);
        }
        if !has_rows(outcome) {
            return Ok(false);
        }
        let Some(place) = bring(&mut self.table, self.place, kind, row) else {
            return Ok(false);
        };
        self.place = place;
        self.flat.push(row)?;
        self.low = row.id + 1;
        Ok(true)
    }

    // Takes the last line of the open block.
    fn close_block(&mut self, opened: Opened) -> Result<(), NoMemory>
        requires reader { IsReader (record self.old { begun = Some opened }) }
        requires shut { self.old.begun ≡ None }
        ensures { OnOk result (Takes (record self.old { begun = Some opened }) last_line self.new true) }
    {
        settle(&mut self.table, opened.kind, self.flat.waiting())?;
        self.flat
            .close(opened.kind, opened.head.as_slice(), opened.outcome)?;
        self.last = Some(opened.outcome);
        self.low = 0;
        self.place = 0;
        Ok(())
    }

    /// Takes one more line. False where no change text has it there, and then nothing more may be taken.
    pub(crate) fn take_line(&mut self, line: &[u8]) -> Result<bool, NoMemory>
        requires reader { IsReader self.old }
        requires line { IsLine line.now }
        ensures { IfOk result (Takes self.old line.now self.new) }
    {
        match self.begun.take() {
            None => self.open_block(line),
            Some(opened) => {
                if line == b"end".as_slice() {
                    self.close_block(opened)?;
                    return Ok(true);
                }
                let kind = opened.kind;
                let outcome = opened.outcome;
                self.begun = Some(opened);
                self.take_row(kind, outcome, line)
            }
        }
    }
}
