//! Files that can't be read.

ghost use Rattle.std.specs.Prelude.{None, zero};

use surge_outside::{Fetched, Files, Trouble};

/// Files whose every fetch fails. They tell nothing of what they hold.
#[derive(Drop)]
pub struct UnreadableFiles {
    faults: u64,
}

impl UnreadableFiles {
    pub fn new() -> UnreadableFiles {
        UnreadableFiles { faults: 0 }
    }

    /// How many fetches were made so far. It stands still at the end of its type.
    pub fn fetches(&self) -> u64 {
        self.faults
    }
}

impl Files for UnreadableFiles {
    ghost held = { λ files. None };

    ghost faults = { λ files. files.faults };

    ghost absences = { λ files. zero };

    fn fetch(&mut self, _name: &str, _at: u64, _buf: &mut [u8]) -> Result<Fetched, Trouble> {
        self.faults = self.faults.saturating_add(1);
        Err(Trouble::Failed)
    }
}
