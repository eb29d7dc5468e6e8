//! Why a change text is not read or not replayed.

ghost use Rattle.std.specs.Prelude.{◌≡◌};
ghost use Rattle.change_text.specs.declared.fault.ReplayError.TheVariants as error;
ghost use Rattle.change_text.specs.declared.fault.ReplayStop.TheVariants as stop;

use surge_outside::NoMemory;
use thiserror::Error;

/// What is wrong with a change text.
#[derive(Clone, Copy, Debug, PartialEq, Eq, Error)]
pub enum ReplayFault {
    /// The number, from 1, of the first line that no change text has behind the lines before it.
    #[error("line {0}")]
    Line(u32),
    /// The text has more bytes than are read. This room never says so; it is for those who fetch a text.
    #[error("too large")]
    TooLarge,
}

/// Why a change text is not read.
#[derive(Clone, Copy, Debug, PartialEq, Eq, Error)]
pub enum ReplayError {
    /// It is no change text.
    #[error("{0}")]
    Fault(ReplayFault),
    /// A request for memory was refused.
    #[error("out of memory")]
    NoMemory,
}

impl From<NoMemory> for ReplayError {
    ghost from_gives = { λ _ made. made ≡ error.NoMemory };

    fn from(_error: NoMemory) -> ReplayError {
        ReplayError::NoMemory
    }
}

/// Why the tables of a change text are not written to the end.
#[derive(Clone, Copy, Debug, PartialEq, Eq, Error)]
pub enum ReplayStop {
    /// A write failed. The sink counts each such failure.
    #[error("writing failed")]
    Failed,
    /// A request for memory was refused.
    #[error("out of memory")]
    NoMemory,
}

impl From<NoMemory> for ReplayStop {
    ghost from_gives = { λ _ made. made ≡ stop.NoMemory };

    fn from(_error: NoMemory) -> ReplayStop {
        ReplayStop::NoMemory
    }
}
