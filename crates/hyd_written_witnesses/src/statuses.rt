//! How the command ends with the end of a search.

ghost use Rattle.std.specs.Prelude.{◌≡◌};
ghost use Rattle.hyd_written_witnesses.specs.Statuses.{status_of_halt, status_of_search_fault};

use hyd_command_answers::{Status, fault_status};
use hyd_witness_stream::{Halt, SearchFault};

/// The status of the end of a search, where its line is printed.
pub(crate) fn status_of_halt(halt: Halt) -> Status
    ensures { result ≡ status_of_halt halt }
{
    match halt {
        Halt::Accepted => Status::Done,
        Halt::NoMoment => Status::Undecided,
        _ => Status::CertificateRefused,
    }
}

/// The status of a search that was broken off.
pub(crate) fn status_of_fault(fault: SearchFault) -> Status
    ensures { result ≡ status_of_search_fault fault }
{
    match fault {
        SearchFault::Read => Status::ReadFault,
        SearchFault::Output(fault) => fault_status(fault),
    }
}
