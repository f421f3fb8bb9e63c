//! What went wrong in a trial.

use hyd_io::{Failed, InFault, OutFault};
use std::alloc::AllocError;
use std::io;
use std::process::ExitCode;

/// What went wrong.
pub(crate) enum Wrong {
    /// There was no memory.
    OutOfMemory,
    /// A call failed or took nothing.
    Fault,
    /// A file didn't hold what it should, or one was there that shouldn't be.
    Content,
}

impl Wrong {
    /// The exit status of the trials.
    pub(crate) fn status(self) -> ExitCode {
        ExitCode::from(match self {
            Wrong::OutOfMemory => 1,
            Wrong::Fault => 2,
            Wrong::Content => 3,
        })
    }
}

impl From<AllocError> for Wrong {
    fn from(_error: AllocError) -> Wrong {
        Wrong::OutOfMemory
    }
}

impl From<Failed> for Wrong {
    fn from(_failed: Failed) -> Wrong {
        Wrong::Fault
    }
}

impl From<OutFault> for Wrong {
    fn from(_fault: OutFault) -> Wrong {
        Wrong::Fault
    }
}

impl From<io::Error> for Wrong {
    fn from(_error: io::Error) -> Wrong {
        Wrong::Fault
    }
}

impl From<InFault> for Wrong {
    fn from(fault: InFault) -> Wrong {
        match fault {
            InFault::OutOfMemory => Wrong::OutOfMemory,
            InFault::Fault => Wrong::Fault,
            InFault::TooLong => Wrong::Content,
        }
    }
}
