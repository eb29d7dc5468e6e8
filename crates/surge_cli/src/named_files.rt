//! Files whose failed reads are told apart by name.

ghost use Rattle.std.specs.Prelude.{◌≡◌, IfOk};
ghost use Rattle.surge_outside.specs.Counts.{HasRisen};
ghost use Rattle.surge_outside.specs.Held.{Fetches};
ghost use Rattle.surge_cli.specs.FilesState.{FilesState, GoesOn, AsksNoOther, AsksAt};

use surge_outside::{Fetched, Files, Trouble};

/// Files that are read by name, as [`Files`], whose failures, absences and fetches are counted for each name: so a contract
/// can say of which file a failure came, which files were not asked for, and that none was read twice. All [`Files`] are such
/// files.
pub trait NamedFiles {
    /// What is held, where it is told, and the counts.
    ghost state: { Self → FilesState };

    /// Reads bytes of the file `name`, as [`Files::fetch`] does. [`Trouble::Failed`] is a failure and
    /// [`Fetched::Absent`] an absence, which is counted for this name. [`Trouble::NoMemory`] is want of memory. That it was
    /// asked for is counted for this name at most, and once at most for this place.
    fn fetch_named(&mut self, name: &str, at: u64, buf: &mut [u8]) -> Result<Fetched, Trouble>
        ensures files { GoesOn (state self.old) (state self.new) }
        ensures asked { AsksNoOther name.now (state self.old) (state self.new) }
        ensures once { AsksAt name.now at (state self.old) (state self.new) }
        ensures answer { IfOk result (λ found. Fetches (state self.old).held name.now at found buf.new) }
        ensures absent { result ≡ Ok Fetched.Absent → HasRisen ((state self.old).absences name.now) ((state self.new).absences name.now) }
        ensures failed { result ≡ Err Trouble.Failed → HasRisen ((state self.old).faults name.now) ((state self.new).faults name.now) };
}

/// Files that count failures of all names together count them for each name. What is asked of them they don't count.
impl<F: Files> NamedFiles for F {
    ghost use Rattle.surge_cli.specs.FilesState.{FilesState};

    ghost state = { λ files. record {
      held = F.held files;
      faults = λ name. F.faults files;
      absences = λ name. F.absences files;
      asked = λ name. 0;
      asked_at = λ name place. 0;
    } };

    fn fetch_named(&mut self, name: &str, at: u64, buf: &mut [u8]) -> Result<Fetched, Trouble> {
        self.fetch(name, at, buf)
    }
}
