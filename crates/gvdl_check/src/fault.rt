//! Why a script has no plan.

ghost use Rattle.std.specs.Prelude.{◌≡◌};
ghost use Rattle.gvdl_check.specs.Faults.{fault_at, stop_at};

use gvdl_programs::{Refusal, Stop};
use surge_outside::NoMemory;
use thiserror::Error;

/// A fault of a script against a graph: which statement is refused, and why.
#[derive(Clone, Copy, Debug, PartialEq, Eq, Error)]
#[error("statement {statement} is refused")]
pub struct StatementFault {
    /// The statement's number, from 1; the load is statement 1.
    pub statement: u32,
    /// Why it is refused.
    pub refusal: Refusal,
}

/// Why [`check`](crate::check) answers no plan.
#[derive(Clone, Copy, Debug, PartialEq, Eq, Error)]
pub enum CheckFault {
    /// The script writes a form that is neither 1 nor 2.
    #[error("there is no such form")]
    BadForm,
    /// The script has this fault, which is its first.
    #[error("{0}")]
    Fault(StatementFault),
    /// A request for memory was refused.
    #[error("out of memory")]
    NoMemory,
}

impl From<NoMemory> for CheckFault {
    ghost use Rattle.gvdl_check.specs.declared.fault.CheckFault.TheVariants as fault;

    ghost from_gives = { λ _ e. e ≡ fault.NoMemory };

    fn from(_error: NoMemory) -> CheckFault {
        CheckFault::NoMemory
    }
}

// A refusal of the statement with this number.
fn fault_at(refusal: Refusal, statement: u32) -> CheckFault
    ensures { result ≡ fault_at statement refusal }
{
    CheckFault::Fault(StatementFault { statement, refusal })
}

/// Why the judging of the statement with this number came to an end.
pub(crate) fn stop_at(stop: Stop, statement: u32) -> CheckFault
    ensures { result ≡ stop_at statement stop }
{
    match stop {
        Stop::Refused(refusal) => fault_at(refusal, statement),
        Stop::NoMemory => CheckFault::NoMemory,
    }
}
