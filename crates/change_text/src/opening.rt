//! The first line of a block.

ghost use Rattle.std.specs.Prelude.{◌≡◌, ◌≢◌, ◌<◌, ℕ, length, slice_index, IfSome, IfNone, MatchOption};
ghost use Rattle.change_text.specs.Blocks.{IsLine};
ghost use Rattle.change_text.specs.Inside.{IsBehindWord, IsCutLast, Lacks, OpensAs, ReadsRounds, ReadsSaid, ReadsShown, held_said};

use crate::kind::Kind;
use crate::number::number_of;
use vertex_lang::Outcome;

/// What the first line of a block says.
#[derive(Clone, Copy)]
pub(crate) struct Opening<'a> {
    pub(crate) kind: Kind,
    pub(crate) head: &'a [u8],
    pub(crate) outcome: Outcome,
}

// The number of rounds or phases, below 2^32, that these bytes spell.
fn rounds_of(digits: &[u8]) -> Option<u32>
    ensures { ReadsRounds digits.now result }
{
    let Some(number) = number_of(digits) else {
        return None;
    };
    if number > 4_294_967_295 {
        return None;
    }
    Some(number as u32)
}

// The place of the last of these bytes that is this one.
fn find_last(bytes: &[u8], at: u8) -> Option<usize>
    ensures within { IfSome result (λ i. i < length bytes.now) }
    ensures found { IfSome result (λ i. slice_index bytes.now i ≡ at) }
    ensures behind { IfSome result (λ i. (k : ℕ) → i < k → k < length bytes.now → slice_index bytes.now k ≢ at) }
    ensures none { IfNone result ((k : ℕ) → k < length bytes.now → slice_index bytes.now k ≢ at) }
{
    for i in (0..bytes.len()).rev() {
        if bytes[i] == at {
            return Some(i);
        }
    }
    None
}

// Cuts bytes at the last that is this one, which it drops.
fn cut_last(bytes: &[u8], at: u8) -> Option<(&[u8], &[u8])>
    ensures { MatchOption result (Lacks at bytes.now) (λ p. IsCutLast at bytes.now p.0.now p.1.now) }
{
    let Some(place) = find_last(bytes, at) else {
        return None;
    };
    let (front, rest) = bytes.split_at(place);
    let (_, behind) = rest.split_at(1);
    Some((front, behind))
}

// What is said of a run that is settled or after a number of rounds or phases, cut at the last blank.
fn shown_in<'a>(bytes: &[u8], front: &'a [u8], last: &[u8]) -> Option<(&'a [u8], Outcome)>
    requires { IsCutLast 32 bytes.now front.now last.now }
    ensures { ReadsShown bytes.now (held_said result) }
{
    let Some(rounds) = rounds_of(last) else {
        return None;
    };
    let Some((head, how)) = cut_last(front, b' ') else {
        return None;
    };
    if how == b"settled".as_slice() {
        return Some((head, Outcome::Settled(rounds)));
    }
    if how == b"after".as_slice() {
        return Some((head, Outcome::After(rounds)));
    }
    if how == b"phases".as_slice() {
        return Some((head, Outcome::Phases(rounds)));
    }
    None
}

// What a line says behind its word: what the table is of, and how the run ended.
fn said_in(bytes: &[u8]) -> Option<(&[u8], Outcome)>
    ensures { ReadsSaid bytes.now (held_said result) }
{
    let Some((front, last)) = cut_last(bytes, b' ') else {
        return None;
    };
    if last == b"unsettled".as_slice() {
        return Some((front, Outcome::Unsettled));
    }
    shown_in(bytes, front, last)
}

// What a line says that has the word of this kind before these bytes.
fn opened_in<'a>(line: &[u8], kind: Kind, bytes: &'a [u8]) -> Option<Opening<'a>>
    requires line { IsLine line.now }
    requires word { IsBehindWord kind bytes.now line.now }
    ensures { OpensAs line.now result }
{
    let Some((head, outcome)) = said_in(bytes) else {
        return None;
    };
    if head.is_empty() {
        return None;
    }
    Some(Opening {
        kind,
        head,
        outcome,
    })
}

/// What the first line of a block says.
pub(crate) fn read_opening(line: &[u8]) -> Option<Opening<'_>>
    requires { IsLine line.now }
    ensures { OpensAs line.now result }
{
    if let Some(rest) = line.strip_prefix(b"view ") {
        return opened_in(line, Kind::Full, rest);
    }
    if let Some(rest) = line.strip_prefix(b"change ") {
        return opened_in(line, Kind::Change, rest);
    }
    None
}
