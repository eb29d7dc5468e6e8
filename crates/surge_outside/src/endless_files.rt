//! Files that never end.

ghost use Rattle.std.specs.Prelude.{◌≡◌, length, replicate, None, IfOk};
ghost use Rattle.surge_outside.specs.Counts.{HasRisen};
ghost use Rattle.surge_outside.specs.Held.{FetchesUntold};

use crate::files::{Fetched, Files};
use crate::trouble::Trouble;

/// Files of which each, whatever its name, is one byte again and again and never ends: so a reader has to stop at a limit of
/// its own. It tells nothing of what it holds, and no fetch fails or finds no file.
#[derive(Clone, Copy, Debug)]
pub struct EndlessFiles {
    byte: u8,
}

impl EndlessFiles {
    /// Files of this byte. It takes no memory.
    pub fn new(byte: u8) -> EndlessFiles
        ensures { result.byte ≡ byte }
    {
        EndlessFiles { byte }
    }
}

impl Files for EndlessFiles {
    ghost held = { λ _. None };

    ghost faults = { λ _. 0 };

    ghost absences = { λ _. 0 };

    /// Fills the whole buffer with the byte.
    fn fetch(&mut self, name: &str, at: u64, buf: &mut [u8]) -> Result<Fetched, Trouble>
        ensures answer { IfOk result (λ found. FetchesUntold found buf.new) }
        ensures absent { result ≡ Ok Fetched.Absent → HasRisen 0 0 }
        ensures failed { result ≡ Err Trouble.Failed → HasRisen 0 0 }
        ensures whole { result ≡ Ok (Fetched.Bytes (length buf.old)) }
        ensures filled { buf.new ≡ replicate (length buf.old) self.old.byte }
        ensures same { self.new ≡ self.old }
    {
        buf.fill(self.byte);
        Ok(Fetched::Bytes(buf.len()))
    }
}
