//! The change text whose tables are written.

ghost use Rattle.std.specs.Prelude.{◌≤◌, ◌^◌, [], ◌∷◌, length, IfOk, IfErr};
ghost use Rattle.change_text.specs.Reading.{IsChanges};
ghost use Rattle.surge_cli.specs.FilesState.{GoesOn, AsksNoOther, AsksEach};
ghost use Rattle.surge_cli.specs.Stages.{IsReplayStage, IsReplayInner, IsFile, RisesBefore, IsReadOfChanges, StopsChanges};

use crate::named_files::NamedFiles;
use crate::stages::fetch;
use crate::status::{FileRole, Status};
use change_text::{ChangeText, ReplayError, one_fault, one_reading, read_changes};
use std::alloc::Global;

// Reads a change text, all of it, before any of its tables is written.
fn read_text(alloc: Global, text: &[u8]) -> Result<ChangeText, Status>
    requires { length text.now ≤ 2 ^ 28 }
    ensures ok { IfOk result (IsChanges text.now) }
    ensures err { IfErr result (StopsChanges text.now) }
    ensures inner { IfErr result IsReplayInner }
{
    match read_changes(alloc, text) {
        Ok(changes) => Ok(changes),
        Err(ReplayError::Fault(fault)) => Err(Status::Replay(fault)),
        Err(ReplayError::NoMemory) => Err(Status::NoMemory),
    }
}

/// The change text in the file of this name.
pub(crate) fn changes_named<F: NamedFiles>(
    alloc: Global,
    files: &mut F,
    name: &str,
) -> Result<ChangeText, Status>
    ensures said { IsReadOfChanges (F.state files.old).held name.now result }
    ensures stage { IfErr result IsReplayStage }
    ensures files { GoesOn (F.state files.old) (F.state files.new) }
    ensures causes { IfErr result (λ s. RisesBefore (IsFile FileRole.Changes name.now) s (F.state files.old) (F.state files.new)) }
    ensures asked { AsksNoOther name.now (F.state files.old) (F.state files.new) }
    ensures once { AsksEach (name.now ∷ []) (F.state files.old) (F.state files.new) }
{
    one_reading();
    one_fault();
    match fetch(alloc, files, FileRole::Changes, name) {
        Ok(text) => read_text(alloc, text.as_slice()),
        Err(status) => Err(status),
    }
}
