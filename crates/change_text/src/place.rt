//! Rows of a table that are found by their ids.

ghost use Rattle.std.specs.Prelude.{◌≡◌, ◌<◌, ◌≤◌, length, take, All};
ghost use Rattle.change_text.specs.Blocks.{Differs, IsRising, put_all};
ghost use Rattle.change_text.specs.Inside.{IsBetween, PutsRow};

use crate::row::{Row, differ};

// Where a search for an id goes on: the first row whose id isn't below it stands from `low` up to `high`.
#[derive(Clone, Copy)]
struct Range {
    low: usize,
    high: usize,
}

// Narrows the range from a place on, in steps that double.
fn gallop(table: &[Row], from: usize, id: u64) -> Range
    requires rising { IsRising table.now }
    requires from { from ≤ length table.now }
    requires below { All (λ r. r.id < id) (take from table.now) }
    ensures { IsBetween table.now id result.low result.high }
{
    let mut low = from;
    let mut step = 1;
    'narrow: while step <= table.len() - low {
        let place = low + (step - 1);
        if table[place].id >= id {
            return Range { low, high: place };
        }
        low = place + 1;
        step = step.saturating_mul(2);
    }
    Range {
        low,
        high: table.len(),
    }
}

// Halves the range until it is one place.
fn halve(table: &[Row], id: u64, range: Range) -> usize
    requires rising { IsRising table.now }
    requires range { IsBetween table.now id range.low range.high }
    ensures { IsBetween table.now id result result }
{
    let mut low = range.low;
    let mut high = range.high;
    'halves: while low < high {
        let middle = low + (high - low) / 2;
        if table[middle].id < id {
            low = middle + 1;
        } else {
            high = middle;
        }
    }
    low
}

/// Puts a row in the place of the one that has its id and another value, and tells the place behind it. The rows before
/// `from` have lower ids. It costs the logarithm of how far the row is from there. None where no row has the id and another
/// value, and then nothing changes.
pub(crate) fn change_row(table: &mut [Row], from: usize, row: Row) -> Option<usize>
    requires rising { IsRising table.old }
    requires from { from ≤ length table.old }
    requires below { All (λ r. r.id < row.id) (take from table.old) }
    ensures { PutsRow table.old row table.new result }
{
    let place = halve(table, row.id, gallop(table, from, row.id));
    if place == table.len() {
        return None;
    }
    if table[place].id != row.id {
        return None;
    }
    if !differ(table[place].value, row.value) {
        return None;
    }
    table[place] = row;
    Some(place + 1)
}

/// Puts rows in the places of those that have their ids.
pub(crate) fn change_rows(table: &mut [Row], changes: &[Row])
    requires rising { IsRising table.old }
    requires changes { IsRising changes.now }
    requires differ { All (Differs table.old) changes.now }
    ensures { table.new ≡ put_all table.old changes.now }
{
    let mut from = 0;
    for row in changes {
        match change_row(table, from, *row) {
            Some(next) => from = next,
            None => unreachable!(),
        }
    }
}
