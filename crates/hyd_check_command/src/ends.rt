//! The status of a check.

ghost use Rattle.std.specs.Prelude.{◌≡◌};
ghost use Rattle.hyd_check_command.specs.CheckAnswers.{status_of_break, status_of_check};

use hyd_cert_check::{CheckEnd, CheckFault};
use hyd_command_answers::{Status, fault_status};

/// The status of a check that came to its end.
pub fn status_of_end(end: CheckEnd) -> Status
    ensures { result ≡ status_of_check end }
{
    match end {
        CheckEnd::Accepted => Status::Done,
        CheckEnd::Refused => Status::CertificateRefused,
    }
}

/// The status of a check that was broken off.
pub fn status_of_fault(fault: CheckFault) -> Status
    ensures { result ≡ status_of_break fault }
{
    match fault {
        CheckFault::Read => Status::ReadFault,
        CheckFault::Output(fault) => fault_status(fault),
    }
}
