//! Each call once on a network that was read, to the byte.

use crate::printer_in_memory::Paper;
use crate::runs_at_start::{Trial, passes};
use hyd_as_library::{CERTIFICATE, check_at, print_due_period, run_at};
use hyd_cert_check::CheckEnd;
use hyd_io::MemDesk;
use hyd_run::RunEnd;
use hyd_sim::{Settings, Sim};
use std::alloc::Global;
use std::test::Fail;

/// A reservoir at 100 m and a junction behind a valve that takes 1,000 m^3 a day.
const VALVE: &str =
    "[OPTIONS]\nUNITS CMD\nHEADLOSS C-M\n[JUNCTIONS]\nJ 0 1000\n[RESERVOIRS]\nR 100\n[VALVES]\nV R J 304.8 TCV 100 0\n";

/// Its tight vectors, as the period's heads are printed.
const HEADS: &str = "junction 0 head 998718316123912 998718316144933\n";

/// The certificate of its run with tight vectors.
const WRITTEN: &str =
    "HYDCERT 1 1 0\nPERIOD 0 0 0\nMU 998718316144933\nML 998718316123912\nEND 1 FINISHED\n";

/// The report of that run, and of the check of its certificate.
const PRINTED: &str = "HYD 1\nTIME 0:00:00\n\
    JUNCTION J head 99.8718 99.8719 pressure 99.8718 99.8719 outflow 999.9999 1000.0001\n\
    RESERVOIR R head 100.0000 100.0000\n\
    LINK V flow 999.9999 1000.0001 status ACTIVE\n\
    DONE 1\n";

/// Tight vectors are asked for.
const TIGHT: Settings = Settings {
    rounds: 200,
    width: 100_000_000_000,
    tight: true,
};

/// A call of the example.
#[derive(Clone, Copy, Drop)]
enum Call {
    /// The first period is done and printed.
    PrintDuePeriod,
    /// The network is run at the desk.
    RunAt,
    /// The certificate at the desk is checked.
    CheckAt,
}

/// A call, and where it prints and writes.
#[derive(Drop)]
struct Example {
    alloc: Global,
    call: Call,
    paper: Paper,
    desk: MemDesk,
}

impl Example {
    /// Nothing was called yet.
    fn new(alloc: Global, call: Call) -> Example {
        Example {
            alloc,
            call,
            paper: Paper::new(alloc),
            desk: MemDesk::new(alloc),
        }
    }
}

impl Trial for Example {
    /// Whether the call ends well: the period is printed, the run finishes, the check accepts.
    fn passes(&mut self, sim: &mut Sim) -> bool {
        match self.call {
            Call::PrintDuePeriod => print_due_period(self.alloc, &self.paper, sim).is_ok(),
            Call::RunAt => matches!(
                run_at(self.alloc, sim, &mut self.desk),
                Ok(RunEnd::Finished)
            ),
            Call::CheckAt => matches!(
                check_at(self.alloc, sim, &mut self.desk),
                Ok(CheckEnd::Accepted)
            ),
        }
    }
}

/// Whether the call for the text's network ends well.
fn does(alloc: Global, example: &mut Example) -> bool {
    passes(alloc, VALVE, TIGHT, example)
}

/// Whether the certificate at the desk is this text.
fn is_certificate(desk: &MemDesk, text: &str) -> bool {
    match desk.file(CERTIFICATE) {
        Some(bytes) => bytes == text.as_bytes(),
        None => false,
    }
}

/// Whether one text was printed, and this one behind it.
fn is_printed_behind(desk: &MemDesk, first: &str, text: &str) -> bool {
    match desk.printed().strip_prefix(first.as_bytes()) {
        Some(bytes) => bytes == text.as_bytes(),
        None => false,
    }
}

#[test]
fn the_first_period_prints_its_heads(rt: HostRuntime) -> Result<(), Fail> {
    let mut example = Example::new(rt.alloc(), Call::PrintDuePeriod);
    assert!(rt; does(rt.alloc(), &mut example));
    let text = example.paper.into_text();
    assert_eq!(rt; text.as_str(), HEADS);
    Ok(())
}

#[test]
fn a_run_at_a_desk_is_put_out_and_accepted(rt: HostRuntime) -> Result<(), Fail> {
    let mut example = Example::new(rt.alloc(), Call::RunAt);
    assert!(rt; does(rt.alloc(), &mut example));
    assert!(rt; is_certificate(&example.desk, WRITTEN));
    assert!(rt; example.desk.printed() == PRINTED.as_bytes());
    example.call = Call::CheckAt;
    assert!(rt; does(rt.alloc(), &mut example));
    assert!(rt; is_printed_behind(&example.desk, PRINTED, PRINTED));
    Ok(())
}
