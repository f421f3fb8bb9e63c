//! How a command ends.

ghost use Rattle.std.specs.Prelude.{◌≡◌};
ghost use Rattle.std.specs.Process.{exit_status};
ghost use Rattle.hyd_command_answers.specs.FaultsAndRefusals.{status_of_fault};
ghost use Rattle.hyd_command_answers.specs.Statuses.{number_of};

use hyd_io::OutFault;
use std::process::{ExitCode, Termination};

/// The answer of a command. Its number is the exit status of the program.
#[derive(Clone, Copy, Drop)]
pub enum Status {
    /// The run finished, or the certificate was accepted.
    Done = 0,
    /// No memory was found; nothing was created, written or printed.
    OutOfMemory = 1,
    /// The words aren't a command.
    Usage = 2,
    /// A call of `open` or `read` failed.
    ReadFault = 3,
    /// A call of `create`, `write` or `print` failed.
    WriteFault = 4,
    /// The text of the network was refused.
    InputRefused = 5,
    /// The run stopped: no certificate exists, or a matter is open.
    Undecided = 6,
    /// The run stopped: the rounds don't lead to a certificate.
    RoundsSpent = 7,
    /// The run stopped: a demand is out of range.
    Demand = 8,
    /// The certificate was refused: its text, a record or its END line.
    CertificateRefused = 9,
    /// A call of `write` or `print` took nothing of a nonempty piece.
    Stalled = 10,
}

impl Status {
    /// The exit status of the program.
    pub fn number(self) -> u8
        ensures { result ≡ number_of self }
    {
        self as u8
    }
}

impl Termination for Status {
    fn report<R: Eprint>(self, _rt: &R) -> ExitCode
        ensures { exit_status result ≡ number_of self }
    {
        ExitCode::from(self.number())
    }
}

/// The status of a fault of output.
pub fn fault_status(fault: OutFault) -> Status
    ensures { result ≡ status_of_fault fault }
{
    match fault {
        OutFault::Fault => Status::WriteFault,
        OutFault::Stalled => Status::Stalled,
    }
}
