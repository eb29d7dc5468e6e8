//! Ends that want memory.

ghost use Rattle.std.specs.Prelude.{None, zero};

use surge_outside::{Fetched, Files, Sink, Trouble};

/// Files whose every fetch wants memory. They tell nothing of what they hold.
#[derive(Drop)]
pub struct LackingFiles;

impl Files for LackingFiles {
    ghost held = { λ files. None };

    ghost faults = { λ files. zero };

    ghost absences = { λ files. zero };

    fn fetch(&mut self, _name: &str, _at: u64, _buf: &mut [u8]) -> Result<Fetched, Trouble> {
        Err(Trouble::NoMemory)
    }
}

/// A sink whose every write wants memory. It tells nothing of what was written.
#[derive(Drop)]
pub struct LackingSink;

impl Sink for LackingSink {
    ghost written = { λ sink. None };

    ghost faults = { λ sink. zero };

    fn write(&mut self, _piece: &[u8]) -> Result<usize, Trouble> {
        Err(Trouble::NoMemory)
    }
}
