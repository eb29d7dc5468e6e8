//! Why a text is no script.

ghost use Rattle.std.specs.Prelude.{◌≡◌};

use surge_outside::NoMemory;
use thiserror::Error;

/// A fault of a script's text. Pairs are a line and a column, from 1.
///
/// What statements mean is judged above, and so is the size of a file: their faults are those of other rooms.
#[derive(Clone, Copy, Debug, PartialEq, Eq, Error)]
pub enum ScriptFault {
    /// The text is not UTF-8.
    #[error("NotUtf8")]
    NotUtf8,
    /// No script has what stands at this place after what stands before it, or the text ends there too early.
    #[error("Syntax")]
    Syntax(u32, u32),
    /// The number at this place is above 2^63 - 1.
    #[error("NumberTooLarge")]
    NumberTooLarge(u32, u32),
    /// What stands at this place would open level 65.
    #[error("TooDeep")]
    TooDeep(u32, u32),
}

/// Why [`parse`](crate::parse) answers no script.
#[derive(Clone, Copy, Debug, PartialEq, Eq, Error)]
pub enum ParseFault {
    /// The text has this fault, which is its first.
    #[error("{0}")]
    Fault(ScriptFault),
    /// A request for memory was refused.
    #[error("out of memory")]
    NoMemory,
}

impl From<NoMemory> for ParseFault {
    ghost use Rattle.gvdl_parser.specs.declared.fault.ParseFault.TheVariants as fault;

    ghost from_gives = { λ _ e. e ≡ fault.NoMemory };

    fn from(_error: NoMemory) -> ParseFault {
        ParseFault::NoMemory
    }
}
