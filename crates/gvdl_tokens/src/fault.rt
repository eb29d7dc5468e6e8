//! Why a text has no tokens.

use surge_outside::NoMemory;
use thiserror::Error;

/// Why [`lex`](crate::lex) answers no tokens.
#[derive(Clone, Copy, Debug, PartialEq, Eq, Error)]
pub enum LexFault {
    /// The text is not UTF-8.
    #[error("not UTF-8")]
    NotUtf8,
    /// A request for memory was refused.
    #[error("out of memory")]
    NoMemory,
}

impl From<NoMemory> for LexFault {
    ghost use Rattle.std.specs.Prelude.{◌≡◌};
    ghost use Rattle.gvdl_tokens.specs.declared.fault.LexFault.TheVariants as faults;

    ghost from_gives = { λ _ e. e ≡ faults.NoMemory };

    fn from(_error: NoMemory) -> LexFault {
        LexFault::NoMemory
    }
}
