//! Why reading a phrase stopped.

use std::alloc::{AllocError, AllocFailed};
use surge_outside::NoMemory;
use thiserror::Error;

/// Why reading a phrase stopped.
#[derive(Clone, Copy, Debug, PartialEq, Eq, Error)]
pub enum Fault {
    /// A request for memory was refused.
    #[error("out of memory")]
    NoMemory,
    /// No phrase goes on with the next token.
    #[error("no phrase goes on so")]
    Syntax,
    /// The next token would open a level too many.
    #[error("too many levels")]
    TooDeep,
}

impl From<NoMemory> for Fault {
    ghost use Rattle.std.specs.Prelude.{◌≡◌};
    ghost use Rattle.phrase_theory.specs.declared.fault.Fault.TheVariants as faults;

    ghost from_gives = { λ _ e. e ≡ faults.NoMemory };

    fn from(_error: NoMemory) -> Fault {
        Fault::NoMemory
    }
}

impl From<AllocError> for Fault {
    ghost use Rattle.std.specs.Prelude.{◌≡◌};
    ghost use Rattle.phrase_theory.specs.declared.fault.Fault.TheVariants as faults;

    ghost from_gives = { λ _ e. e ≡ faults.NoMemory };

    fn from(_error: AllocError) -> Fault {
        Fault::NoMemory
    }
}

impl<T: Drop> From<AllocFailed<T>> for Fault {
    ghost use Rattle.std.specs.Prelude.{◌≡◌};
    ghost use Rattle.phrase_theory.specs.declared.fault.Fault.TheVariants as faults;

    ghost from_gives = { λ _ e. e ≡ faults.NoMemory };

    fn from(_error: AllocFailed<T>) -> Fault {
        Fault::NoMemory
    }
}
