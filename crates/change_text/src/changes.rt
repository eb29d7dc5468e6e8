//! Reads change texts.

ghost use Rattle.std.specs.Prelude.{◌≡◌, ◌≤◌, ◌^◌, length, IfOk, IfErr};
ghost use Rattle.change_text.specs.Blocks.{AreBlocks};
ghost use Rattle.change_text.specs.Reading.{IsChanges, IsError};
ghost use Rattle.change_text.specs.Memory.{AreEnds, blocks_of};

use crate::fault::{ReplayError, ReplayFault};
use crate::flat::{Flat, Parts};
use crate::line::cut_first;
use crate::reader::Reader;
use std::alloc::Global;
use std::marker::Model;

/// A change text that was read: its blocks.
#[derive(Debug, Drop)]
pub struct ChangeText {
    flat: Flat,
}

impl Model for ChangeText {
    ghost use Rattle.std.specs.Prelude.{List};
    ghost use Rattle.change_text.specs.Blocks.{Block, AreBlocks};

    ghost Value = { List Block };

    ghost view = { λ text. text.flat.blocks };

    ghost invariant = { λ text. AreBlocks text.flat.blocks };
}

impl ChangeText {
    /// What the blocks lie in.
    pub(crate) fn parts(&self) -> Parts<'_>
        ensures are { AreEnds result.ends.now result.heads.now result.rows.now }
        ensures blocks { blocks_of result.ends.now result.heads.now result.rows.now ≡ self.now }
        ensures changes { AreBlocks self.now }
    {
        self.flat.parts()
    }
}

// The error of a line.
fn bad(line: u32) -> ReplayError
    ensures { result ≡ ReplayError.Fault (ReplayFault.Line line) }
{
    ReplayError::Fault(ReplayFault::Line(line))
}

/// Reads a change text of at most 2^28 bytes, once, line by line: a block costs its rows, and each row of a change block a
/// search behind the row before it.
///
/// # Errors
///
/// [`ReplayError::Fault`] exactly where it is no change text, with the first line that no change text has behind the lines
/// before it, which may be one that is missing or that no byte ends. [`ReplayError::NoMemory`] where a request for memory
/// was refused.
pub fn read_changes(alloc: Global, text: &[u8]) -> Result<ChangeText, ReplayError>
    requires { length text.now ≤ 2 ^ 28 }
    ensures read { IfOk result (IsChanges text.now) }
    ensures bad { IfErr result (IsError text.now) }
{
    let mut reader = Reader::new(alloc);
    let mut rest = text;
    let mut number = 1;
    'lines: while !rest.is_empty() {
        let Some((line, behind)) = cut_first(rest, b'\n') else {
            return Err(bad(number));
        };
        if !reader.take_line(line)? {
            return Err(bad(number));
        }
        rest = behind;
        number += 1;
    }
    if reader.begun.is_some() {
        return Err(bad(number));
    }
    Ok(ChangeText { flat: reader.flat })
}
