//! The desk on real files and standard output.

ghost use Rattle.std.specs.Prelude.{◌≡◌, true, None, refl};

use crate::desk::{Desk, Failed, Faults, Openings, stalls_after};
use crate::failure::{Call, Failure};
use crate::files_to_read::open_file;
use crate::files_to_write::{Content, create_file};
use crate::terminal::is_watched;
use std::alloc::Global;
use std::fmt::Display;
use std::io::{self, ErrorKind, Read, Write};
use std::marker::Model;
use std::rt::{Clock, Files};

/// A desk on the files and the standard output of a runtime. It tells no bytes, since no contract
/// can say which file a name opens, what it holds, or what was printed. Contracts see whether a file
/// is open to be read, whether one was created, how many calls failed or took nothing, how often it
/// opened and created, and, where a file tells its own bytes, what is left in the one and held by the
/// other. Any name may be opened and created.
///
/// No file is lost by it. It creates neither over the file that it has opened nor over the one that standard output goes
/// into, whatever names they are given: they are told by device and number there. Nor does it open the one that standard
/// output goes into. And of a file that is there and not empty it looks at the first line: it is emptied where that is
/// the header of a certificate, as `HYDCERT 1 20 3`, or of a witness, as `HYDWIT 1 2 20 30 3`, or, where the desk has
/// neither opened nor created anything yet and so begins a network, where its first bytes are a heading of an input file;
/// else it stays as it is, and `create` fails. The file that it created last is one like others, so that what was begun
/// can be written anew. A device or a pipe is never emptied, and not created twice in a row.
///
/// It says its sentences on standard error, each behind `hyd: `, and shows how far a work is where standard error is a
/// terminal.
#[derive(Drop)]
pub struct FileDesk<R: Files + Print + Eprint + Clock + Drop> {
    rt: R,
    alloc: Global,
    input: Option<R::File>,
    output: Option<R::File>,
    counts: Faults,
    openings: Openings,
    input_name: Option<String>,
    output_name: Option<String>,
    failed: Option<FailedCall>,
    is_watched: bool,
}

impl<R: Files + Print + Eprint + Clock + Drop> Model for FileDesk<R> {
    ghost use Rattle.std.specs.Prelude.{is_some, option_and_then};
    ghost use Rattle.hyd_io.specs.RealFiles.{FilesState};

    ghost Value = { FilesState };

    ghost view = { λ desk. record {
      reading = is_some desk.input;
      ready = is_some desk.output;
      counts = desk.counts;
      openings = desk.openings;
      unread = option_and_then (λ file. R.File.remaining file) desk.input;
      content = option_and_then (λ file. R.File.contents file) desk.output;
    } };
}

impl<R: Files + Print + Eprint + Clock + Drop> FileDesk<R> {
    ghost use Rattle.hyd_io.specs.RealFiles.{untouched};

    /// A desk that has opened and created nothing. What it keeps of names for `failure` takes memory there.
    pub fn new(alloc: Global, rt: R) -> FileDesk<R>
        ensures { result ≡ untouched }
    {
        let is_watched = is_watched(&rt);
        FileDesk {
            rt,
            alloc,
            input: None,
            output: None,
            counts: Faults {
                read: 0,
                write: 0,
                print: 0,
                stall: 0,
            },
            openings: Openings {
                opened: 0,
                created: 0,
            },
            input_name: None,
            output_name: None,
            failed: None,
            is_watched,
        }
    }

    /// The runtime on whose files it works.
    pub fn runtime(&self) -> &R {
        &self.rt
    }

    /// The name of the file that it was to open last. None where it was to open none, and where there was no memory for
    /// the name.
    pub fn input_name(&self) -> Option<&str> {
        self.input_name.as_deref()
    }

    /// The last call that failed or took nothing, if one did.
    pub fn failure(&self) -> Option<Failure<'_>> {
        let (call, error) = self.failed?;
        let file = match call {
            Call::Open | Call::Read => self.input_name.as_deref(),
            Call::Create | Call::Write => self.output_name.as_deref(),
            Call::Print => Some("standard output"),
        };
        Some(Failure { file, call, error })
    }
}

/// What makes a terminal's line empty, and goes to its start.
const CLEARED_LINE: &str = "\r\x1b[K";

// Makes the line empty in which it was shown how far a work is.
fn clear_line<E: Eprint>(standard_error: &E, is_watched: bool) {
    if is_watched {
        let _ = standard_error.eprint(CLEARED_LINE);
    }
}

// A call that failed.
type FailedCall = (Call, io::Error);

// The last call that failed, after one that took `taken` bytes of the piece.
fn failed_after(
    failed: Option<FailedCall>,
    call: Call,
    taken: usize,
    piece: &[u8],
) -> Option<FailedCall> {
    if taken == 0 && !piece.is_empty() {
        let error = io::Error::new(ErrorKind::WriteZero, "nothing more was taken");
        Some((call, error))
    } else {
        failed
    }
}

impl<R: Files + Print + Eprint + Clock + Drop> Desk for FileDesk<R> {
    ghost use Rattle.hyd_io.specs.RealFiles.{KeepsInput, OpensFile, ReadsFile, WritesFile, PrintsAside};

    ghost files = { λ _. None };

    ghost rest = { λ _. None };

    ghost written = { λ _. None };

    ghost printed = { λ _. None };

    ghost target = { λ _. None };

    ghost ready = { λ desk. desk.ready };

    ghost counts = { λ desk. desk.counts };

    ghost openings = { λ desk. desk.openings };

    ghost may_open = { λ _. true };

    ghost may_create = { λ _. true };

    ghost open_also = { λ old _ failed new. OpensFile old failed new };

    ghost read_also = { λ old given new. ReadsFile old given new };

    ghost create_also = { λ old _ new. KeepsInput old new };

    ghost write_also = { λ old piece taken new. WritesFile old piece taken new };

    ghost print_also = { λ old _ _ new. PrintsAside old new };

    ghost is_content = { λ _. refl };

    fn open(&mut self, name: &str) -> Result<(), Failed> {
        self.openings.opened = self.openings.opened.saturating_add(1);
        self.input_name = String::from_str(self.alloc, name).ok();
        match open_file(&self.rt, name) {
            Ok(file) => {
                self.input = Some(file);
                Ok(())
            }
            Err(error) => {
                self.input = None;
                self.failed = Some((Call::Open, error));
                self.counts.read = self.counts.read.saturating_add(1);
                Err(Failed)
            }
        }
    }

    fn read(&mut self, buffer: &mut [u8]) -> Result<usize, Failed> {
        let Some(file) = &mut self.input else {
            return Ok(0);
        };
        match file.read(buffer) {
            Ok(n) => Ok(n),
            Err(error) => {
                self.failed = Some((Call::Read, error));
                self.counts.read = self.counts.read.saturating_add(1);
                Err(Failed)
            }
        }
    }

    fn create(&mut self, name: &str) -> Result<(), Failed> {
        let content = match self.openings {
            Openings {
                opened: 0,
                created: 0,
            } => Content::Network,
            _ => Content::Certificate,
        };
        self.openings.created = self.openings.created.saturating_add(1);
        self.output_name = String::from_str(self.alloc, name).ok();
        match create_file(&self.rt, name, content, &self.input, &self.output) {
            Ok(file) => {
                self.output = Some(file);
                Ok(())
            }
            Err(error) => {
                self.output = None;
                self.failed = Some((Call::Create, error));
                self.counts.write = self.counts.write.saturating_add(1);
                Err(Failed)
            }
        }
    }

    fn write(&mut self, piece: &[u8]) -> Result<usize, Failed> {
        let Some(file) = &mut self.output else {
            unreachable!();
        };
        match file.write(piece) {
            Ok(n) => {
                self.failed = failed_after(self.failed, Call::Write, n, piece);
                self.counts.stall = stalls_after(self.counts.stall, n, piece);
                Ok(n)
            }
            Err(error) => {
                self.failed = Some((Call::Write, error));
                self.counts.write = self.counts.write.saturating_add(1);
                Err(Failed)
            }
        }
    }

    fn print(&mut self, piece: &[u8]) -> Result<usize, Failed> {
        clear_line(&self.rt, self.is_watched);
        match self.rt.write_some(piece) {
            Ok(n) => {
                self.failed = failed_after(self.failed, Call::Print, n, piece);
                self.counts.stall = stalls_after(self.counts.stall, n, piece);
                Ok(n)
            }
            Err(error) => {
                self.failed = Some((Call::Print, error));
                self.counts.print = self.counts.print.saturating_add(1);
                Err(Failed)
            }
        }
    }

    fn say<T: Display>(&self, sentence: &T) {
        clear_line(&self.rt, self.is_watched);
        let _ = self.rt.eprintln(format_args!("hyd: {sentence}"));
    }

    fn show<T: Display>(&self, state: &T) {
        if self.is_watched {
            let _ = self.rt.eprint(format_args!("{CLEARED_LINE}{state}"));
        }
    }

    fn milliseconds(&self) -> u64 {
        match self.rt.monotonic() {
            Ok(time) => u64::try_from(time.as_millis()).unwrap_or(u64::MAX),
            Err(_) => 0,
        }
    }
}
