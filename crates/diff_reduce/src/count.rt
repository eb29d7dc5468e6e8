//! A count without an end.

ghost use Rattle.std.specs.Prelude.{◌≡◌, ◌+◌, ◌%◌, ◌^◌, OnOk, OnErr};

use std::alloc::Global;
use std::marker::Model;
use surge_outside::{List, NoMemory};

/// A number that contracts see whole, and code modulo 2^64. Each time that the 64 bits are full it takes one more byte.
#[derive(Drop)]
pub(crate) struct Count {
    low: u64,
    turns: List<u8>,
}

impl Model for Count {
    ghost use Rattle.std.specs.Prelude.{ℕ, ◌+◌, ◌*◌, ◌<◌, ◌^◌, length};

    ghost Value = { ℕ };

    ghost view = { λ c. c.low + 2 ^ 64 * length c.turns };

    ghost invariant = { λ c. c.low < 2 ^ 64 };
}

impl Count {
    /// The count 0. It takes no memory.
    pub(crate) fn new(alloc: Global) -> Count
        ensures { result ≡ 0 }
    {
        Count {
            low: 0,
            turns: List::new(alloc),
        }
    }

    /// Counts one.
    ///
    /// Errors: out of memory; the count is then as it was.
    pub(crate) fn tick(&mut self) -> Result<(), NoMemory>
        ensures ok { OnOk result (self.new ≡ self.old + 1) }
        ensures err { OnErr result (self.new ≡ self.old) }
    {
        match self.low.checked_add(1) {
            Some(low) => {
                self.low = low;
                Ok(())
            }
            None => {
                self.turns.push(0)?;
                self.low = 0;
                Ok(())
            }
        }
    }

    /// The count modulo 2^64.
    pub(crate) fn low(&self) -> u64
        ensures { result ≡ self.now % 2 ^ 64 }
    {
        self.low
    }
}
