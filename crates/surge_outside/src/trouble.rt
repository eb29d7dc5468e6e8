//! Why a read or a write gave nothing.

ghost use Rattle.std.specs.Prelude.{◌≡◌};
ghost use Rattle.surge_outside.specs.declared.trouble.Trouble.TheVariants as trouble;

use crate::no_memory::NoMemory;
use std::alloc::AllocError;
use thiserror::Error;

/// Why an end of the program refused a read or a write.
#[derive(Clone, Copy, Debug, PartialEq, Eq, Error)]
pub enum Trouble {
    /// Reading or writing failed. The end counts each such failure.
    #[error("reading or writing failed")]
    Failed,
    /// A request for memory was refused.
    #[error("out of memory")]
    NoMemory,
}

impl From<NoMemory> for Trouble {
    ghost from_gives = { λ _ made. made ≡ trouble.NoMemory };

    fn from(_error: NoMemory) -> Trouble {
        Trouble::NoMemory
    }
}

impl From<AllocError> for Trouble {
    ghost from_gives = { λ _ made. made ≡ trouble.NoMemory };

    fn from(_error: AllocError) -> Trouble {
        Trouble::NoMemory
    }
}
