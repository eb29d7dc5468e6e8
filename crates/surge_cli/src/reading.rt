//! Whole files, up to a limit.

ghost use Rattle.std.specs.Prelude.{◌≡◌, ◌<◌, ◌≤◌, ◌^◌, [], ◌∷◌, length, IfOk, IfErr, vec_len};
ghost use Rattle.surge_outside.specs.Counts.{HasRisen};
ghost use Rattle.surge_cli.specs.FilesState.{GoesOn, AsksNoOther, AsksEach, AsksAt};
ghost use Rattle.surge_cli.specs.Reading.{IsToldFront};
ghost use Rattle.surge_cli.specs.ReadingAnswer.{Reads, Takes};

use crate::named_files::NamedFiles;
use std::alloc::Global;
use surge_outside::{Fetched, Trouble};

/// What reading a file gave.
#[derive(Debug, Drop)]
pub(crate) enum Reading {
    Absent,
    /// It has more bytes than the limit.
    TooLarge,
    Bytes(Vec<u8>),
}

// What one piece of a file told.
enum Taken {
    Absent,
    TooLarge,
    End,
    More,
}

const PIECE: usize = 65_536;

// Room for a piece of a file.
fn buffer(alloc: Global) -> Result<Vec<u8>, Trouble>
    ensures room { IfOk result (λ v. 0 < vec_len v) }
    ensures err { IfErr result (λ e. e ≡ Trouble.NoMemory) }
{
    vec![in alloc; 0u8; PIECE].map_err(|_| Trouble::NoMemory)
}

// Adds the next piece of a file to the bytes that were read before it.
fn take_piece<F: NamedFiles>(
    files: &mut F,
    name: &str,
    limit: usize,
    piece: &mut [u8],
    bytes: &mut Vec<u8>,
) -> Result<Taken, Trouble>
    requires room { 0 < length piece.old }
    requires within { vec_len bytes.old ≤ limit }
    requires front { IsToldFront (F.state files.old).held name.now bytes.old.items }
    ensures answer { IfOk result (λ t. Takes (F.state files.old).held name.now limit t bytes.new.items) }
    ensures within { vec_len bytes.new ≤ limit }
    ensures grows { result ≡ Ok Taken.More → vec_len bytes.old < vec_len bytes.new }
    ensures files { GoesOn (F.state files.old) (F.state files.new) }
    ensures asked { AsksNoOther name.now (F.state files.old) (F.state files.new) }
    ensures once { AsksAt name.now (vec_len bytes.old) (F.state files.old) (F.state files.new) }
    ensures absent { result ≡ Ok Taken.Absent → HasRisen ((F.state files.old).absences name.now) ((F.state files.new).absences name.now) }
    ensures failed { result ≡ Err Trouble.Failed → HasRisen ((F.state files.old).faults name.now) ((F.state files.new).faults name.now) }
{
    match files.fetch_named(name, bytes.len() as u64, piece)? {
        Fetched::Absent => Ok(Taken::Absent),
        Fetched::Bytes(count) => {
            if count == 0 {
                Ok(Taken::End)
            } else if count > limit - bytes.len() {
                Ok(Taken::TooLarge)
            } else if bytes.extend_from_slice(&piece[..count]).is_err() {
                Err(Trouble::NoMemory)
            } else {
                Ok(Taken::More)
            }
        }
    }
}

/// Reads a file to its end, or up to the first piece past the limit.
pub(crate) fn read_file<F: NamedFiles>(
    alloc: Global,
    files: &mut F,
    name: &str,
    limit: usize,
) -> Result<Reading, Trouble>
    requires { limit < 2 ^ 40 }
    ensures answer { IfOk result (λ r. Reads (F.state files.old).held name.now limit r) }
    ensures files { GoesOn (F.state files.old) (F.state files.new) }
    ensures asked { AsksNoOther name.now (F.state files.old) (F.state files.new) }
    ensures once { AsksEach (name.now ∷ []) (F.state files.old) (F.state files.new) }
    ensures absent { result ≡ Ok Reading.Absent → HasRisen ((F.state files.old).absences name.now) ((F.state files.new).absences name.now) }
    ensures failed { result ≡ Err Trouble.Failed → HasRisen ((F.state files.old).faults name.now) ((F.state files.new).faults name.now) }
{
    let mut piece = buffer(alloc)?;
    let mut bytes = Vec::new(alloc);
    'pieces: loop {
        match take_piece(files, name, limit, piece.as_mut_slice(), &mut bytes)? {
            Taken::Absent => return Ok(Reading::Absent),
            Taken::TooLarge => return Ok(Reading::TooLarge),
            Taken::End => return Ok(Reading::Bytes(bytes)),
            Taken::More => {}
        }
    }
}
