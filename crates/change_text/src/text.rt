//! The text of a block.

ghost use Rattle.std.specs.Prelude.{◌≡◌, ◌++◌, OnOk};
ghost use Rattle.std.specs.Fmt.{decimal};
ghost use Rattle.result_tables.specs.TableText.{outcome_text};
ghost use Rattle.change_text.specs.Spelling.{block_text, word};

use crate::kind::Kind;
use crate::lay::{lay_digits, push_rows};
use crate::row::Row;
use surge_outside::NoMemory;
use vertex_lang::Outcome;

/// What a block is of: all of it but its rows.
#[derive(Clone, Copy)]
pub(crate) struct Frame<'a> {
    pub(crate) kind: Kind,
    pub(crate) head: &'a [u8],
    pub(crate) outcome: Outcome,
}

// Adds the digits of a number.
fn push_decimal(text: &mut Vec<u8>, number: u32) -> Result<(), NoMemory>
    ensures { OnOk result (text.new.items ≡ text.old.items ++ decimal number) }
{
    let mut room = [0u8; 20];
    let start = lay_digits(&mut room, 20, u64::from(number));
    text.extend_from_slice(&room[start..])?;
    Ok(())
}

// Adds how a run ended.
fn push_outcome(text: &mut Vec<u8>, outcome: Outcome) -> Result<(), NoMemory>
    ensures { OnOk result (text.new.items ≡ text.old.items ++ outcome_text outcome) }
{
    match outcome {
        Outcome::Settled(rounds) => {
            text.extend_from_slice(b"settled ")?;
            push_decimal(text, rounds)
        }
        Outcome::After(rounds) => {
            text.extend_from_slice(b"after ")?;
            push_decimal(text, rounds)
        }
        Outcome::Phases(phases) => {
            text.extend_from_slice(b"phases ")?;
            push_decimal(text, phases)
        }
        Outcome::Unsettled => {
            text.extend_from_slice(b"unsettled")?;
            Ok(())
        }
    }
}

// Adds the first word of a block.
fn push_word(text: &mut Vec<u8>, kind: Kind) -> Result<(), NoMemory>
    ensures { OnOk result (text.new.items ≡ text.old.items ++ word kind) }
{
    match kind {
        Kind::Full => text.extend_from_slice(b"view ")?,
        Kind::Change => text.extend_from_slice(b"change ")?,
    }
    Ok(())
}

/// Adds the text of a block.
pub(crate) fn push_block(text: &mut Vec<u8>, frame: Frame<'_>, rows: &[Row]) -> Result<(), NoMemory>
    ensures { OnOk result (text.new.items ≡ text.old.items ++ block_text (record { kind = frame.entry.kind; head = frame.entry.head.now; outcome = frame.entry.outcome; rows = rows.now })) }
{
    push_word(text, frame.kind)?;
    text.extend_from_slice(frame.head)?;
    text.push(b' ')?;
    push_outcome(text, frame.outcome)?;
    text.push(b'\n')?;
    push_rows(text, rows)?;
    text.extend_from_slice(b"end\n")?;
    Ok(())
}
