//! Why a text is refused.
#![tactic(auto)]

ghost use Rattle.std.specs.Prelude.{◌≡◌};
ghost use Rattle.hyd_spec_input.specs.Faults as faults;
ghost use Rattle.hyd_inp.specs.declared.fault.InpRefused.TheVariants.{OutOfMemory as NoMemory};

use hyd_lex::LexCause;
use hyd_net::{Cause, OutOfMemory};
use thiserror::Error;

/// The fault of a text.
#[derive(Debug, Clone, Copy, PartialEq, Eq, Drop)]
pub struct InpFault {
    /// Its line, counted from 1, or 0 where the text as a whole is meant.
    pub line: u32,
    /// What is wrong.
    pub cause: Cause,
}

/// The fault of a text of more than 64 MiB.
pub const TEXT_TOO_LONG: InpFault = InpFault {
    line: 0,
    cause: Cause::Limit(1),
};

/// Why a text gave no network.
#[derive(Debug, Clone, Copy, PartialEq, Eq, Drop, Error)]
pub enum InpRefused {
    /// There was no memory for the network.
    #[error("out of memory")]
    OutOfMemory,
    /// The text has a fault.
    #[error("a fault in the text")]
    Fault(InpFault),
}

impl From<OutOfMemory> for InpRefused {
    ghost from_gives = { λ _ e. e ≡ NoMemory };

    fn from(_error: OutOfMemory) -> InpRefused {
        InpRefused::OutOfMemory
    }
}

/// The cause of a line that breaks a rule of lines: Limit 2 where it is too long, else Syntax.
pub(crate) fn line_cause(cause: LexCause) -> Cause
    ensures { result ≡ faults.line_cause cause }
{
    match cause {
        LexCause::LongLine => Cause::Limit(2),
        LexCause::UnknownSection => Cause::Syntax,
        LexCause::NotAscii => Cause::Syntax,
        LexCause::NoSection => Cause::Syntax,
    }
}
