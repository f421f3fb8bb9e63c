//! What a program can do outside itself: read one file, create and write one file, and print.

ghost use Rattle.std.specs.Prelude.{◌≡◌, ◌≢◌, ℕ, ◌<◌, ◌≤◌, Bool, true, false, List, [], length, take, Option};
ghost use Rattle.std.specs.Prelude.{Some, option_map, IsTrue, IfOk, OnOk, OnErr, is_some, is_err};
ghost use Rattle.hyd_io.specs.declared.desk.Faults.{Faults};
ghost use Rattle.hyd_io.specs.declared.desk.Openings.{Openings};
ghost use Rattle.hyd_io.specs.DeskBytes.{Files, where_told, append_known, prepend_known, file_at, with_empty};
ghost use Rattle.hyd_io.specs.DeskBytes.{content_of};
ghost use Rattle.std.specs.Result.{result_ok};
ghost use Rattle.hyd_io.specs.DeskCounts.{NeverFall, next_count, with_read_fault, with_write_fault};
ghost use Rattle.hyd_io.specs.DeskCounts.{with_print_fault};
ghost use Rattle.hyd_io.specs.DeskCounts.{with_stall, with_opened, with_created};

use std::fmt::Display;
use thiserror::Error;

/// A call on the desk failed. Which count rose says why.
#[derive(Clone, Copy, Debug, PartialEq, Eq, Error)]
#[error("a call on the desk failed")]
pub struct Failed;

/// How many calls of a desk failed, by kind, and how many took nothing of a nonempty piece. Each
/// count stays at 2^64 - 1 once it is there.
#[derive(Clone, Copy)]
pub struct Faults {
    /// Calls of `open` and `read` that failed.
    pub read: u64,
    /// Calls of `create` and `write` that failed.
    pub write: u64,
    /// Calls of `print` that failed.
    pub print: u64,
    /// Calls of `write` and `print` that took nothing of a nonempty piece.
    pub stall: u64,
}

/// How often a desk was asked to open and to create a file, calls that failed among them. Each count
/// stays at 2^64 - 1 once it is there.
#[derive(Clone, Copy)]
pub struct Openings {
    /// Calls of `open`.
    pub opened: u64,
    /// Calls of `create`.
    pub created: u64,
}

/// A desk: files by name, one of them being read and one being written, and standard output. Beside them stands what a
/// person is told apart from the output, and a clock: a desk may have neither.
///
/// Contracts see what the desk tells of these. A desk on real files tells no bytes, and its clauses
/// on bytes then claim nothing; its counts, how often it opened and created, and whether `write` may
/// be called, are always told.
pub trait Desk {
    // The files by name.
    ghost files: { Self → Option Files };
    // What `read` has still to give.
    ghost rest: { Self → Option (List ℕ) };
    // What was written since the last successful `create`.
    ghost written: { Self → Option (List ℕ) };
    // What was printed.
    ghost printed: { Self → Option (List ℕ) };
    // The name created last.
    ghost target: { Self → Option (List ℕ) };
    // Whether a `create` was made and the last one succeeded.
    ghost ready: { Self → Bool };
    // How many calls failed or took nothing.
    ghost counts: { Self → Faults };
    // How often `open` and `create` were called.
    ghost openings: { Self → Openings };
    // Whether a name may be opened, and whether it may be created. No call changes these.
    ghost may_open: { List ℕ → Bool };

    ghost may_create: { List ℕ → Bool };
    // What one kind of desk says besides of a call: of the desk before and after, and whether the
    // call failed.
    ghost open_also: { Self → List ℕ → Bool → Self → Type 0 } = { λ _ _ _ _. Unit {0} };
    // Of a read the bytes that it gave, `None` where it failed.
    ghost read_also: { Self → Option (List ℕ) → Self → Type 0 } = { λ _ _ _. Unit {0} };

    ghost create_also: { Self → Bool → Self → Type 0 } = { λ _ _ _. Unit {0} };
    // Of a write or print also its piece, and how many bytes it took, `None` where it failed.
    ghost write_also: { Self → List ℕ → Option ℕ → Self → Type 0 } = { λ _ _ _ _. Unit {0} };

    ghost print_also: { Self → List ℕ → Option ℕ → Self → Type 0 } = { λ _ _ _ _. Unit {0} };

    /// Opens the file of that name: `read` then gives its bytes from the first. Fails only where
    /// the read faults rose, and then nothing is left to read.
    fn open(&mut self, name: &str) -> Result<(), Failed>
        requires allowed { IsTrue (may_open name.now) }
        ensures told { OnOk result (rest self.new ≡ file_at (files self.old) name.now) }
        ensures nothing { OnErr result (rest self.new ≡ where_told (files self.old) []) }
        ensures fault { OnErr result (counts self.new ≡ with_read_fault (counts self.old)) }
        ensures steady { OnOk result (counts self.new ≡ counts self.old) }
        ensures never_fall { NeverFall (counts self.old) (counts self.new) }
        ensures files_stay { files self.new ≡ files self.old }
        ensures written_stays { written self.new ≡ written self.old }
        ensures printed_stays { printed self.new ≡ printed self.old }
        ensures target_stays { target self.new ≡ target self.old }
        ensures ready_stays { ready self.new ≡ ready self.old }
        ensures opens_once { openings self.new ≡ with_opened (openings self.old) }
        ensures besides { open_also self.old name.now (is_err result) self.new };

    /// Takes the front of what is left to read into the front of `buffer`, and returns how many
    /// bytes; 0 means that nothing is left. Fails only where the read faults rose, and what is left to read is then not
    /// told.
    fn read(&mut self, buffer: &mut [u8]) -> Result<usize, Failed>
        requires room { 0 < length buffer.old }
        ensures within { IfOk result (λ n. n ≤ length buffer.new) }
        ensures front { IfOk result (λ n.
            rest self.old ≡ prepend_known (take n buffer.new) (rest self.new)) }
        ensures end { IfOk result (λ n. n ≡ 0 → rest self.old ≡ where_told (rest self.old) []) }
        ensures fault { OnErr result (counts self.new ≡ with_read_fault (counts self.old)) }
        ensures steady { OnOk result (counts self.new ≡ counts self.old) }
        ensures never_fall { NeverFall (counts self.old) (counts self.new) }
        ensures files_stay { files self.new ≡ files self.old }
        ensures written_stays { written self.new ≡ written self.old }
        ensures printed_stays { printed self.new ≡ printed self.old }
        ensures target_stays { target self.new ≡ target self.old }
        ensures ready_stays { ready self.new ≡ ready self.old }
        ensures openings_stay { openings self.new ≡ openings self.old }
        ensures besides { read_also self.old (option_map (λ n. take n buffer.new) (result_ok result)) self.new };

    /// Makes an empty file of that name, in place of one that is there, and directs `write` to it.
    /// Fails only where the write faults rose. A failed call leaves all files as they were, also the
    /// one of that name; `write` may not be called then, and what was written before stays.
    fn create(&mut self, name: &str) -> Result<(), Failed>
        requires allowed { IsTrue (may_create name.now) }
        ensures emptied { OnOk result (files self.new ≡ with_empty (files self.old) name.now) }
        ensures directed { OnOk result (target self.new ≡ where_told (files self.old) name.now) }
        ensures begun { OnOk result (written self.new ≡ where_told (files self.old) []) }
        ensures opened { OnOk result (ready self.new ≡ true) }
        ensures closed { OnErr result (ready self.new ≡ false) }
        ensures kept { OnErr result (files self.new ≡ files self.old) }
        ensures target_kept { OnErr result (target self.new ≡ target self.old) }
        ensures written_kept { OnErr result (written self.new ≡ written self.old) }
        ensures others { (other : List ℕ) → other ≢ name.now
            → file_at (files self.new) other ≡ file_at (files self.old) other }
        ensures still_told { is_some (files self.new) ≡ is_some (files self.old) }
        ensures fault { OnErr result (counts self.new ≡ with_write_fault (counts self.old)) }
        ensures steady { OnOk result (counts self.new ≡ counts self.old) }
        ensures never_fall { NeverFall (counts self.old) (counts self.new) }
        ensures rest_stays { rest self.new ≡ rest self.old }
        ensures printed_stays { printed self.new ≡ printed self.old }
        ensures creates_once { openings self.new ≡ with_created (openings self.old) }
        ensures besides { create_also self.old (is_err result) self.new };

    /// Appends a front of `piece` to the file created last, and returns its length. It is 0 for a
    /// nonempty piece only where the stalls rose. Fails only where the write faults rose, and then
    /// nothing was appended.
    fn write(&mut self, piece: &[u8]) -> Result<usize, Failed>
        requires created { IsTrue (ready self.old) }
        ensures within { IfOk result (λ n. n ≤ length piece.now) }
        ensures appended { IfOk result (λ n.
            written self.new ≡ append_known (written self.old) (take n piece.now)) }
        ensures nothing { OnErr result (written self.new ≡ written self.old) }
        ensures fault { OnErr result (counts self.new ≡ with_write_fault (counts self.old)) }
        ensures stalled { IfOk result (λ n. n ≡ 0 → piece.now ≢ []
            → counts self.new ≡ with_stall (counts self.old)) }
        ensures steady { IfOk result (λ n. 0 < n → counts self.new ≡ counts self.old) }
        ensures idle { OnOk result (piece.now ≡ [] → counts self.new ≡ counts self.old) }
        ensures never_fall { NeverFall (counts self.old) (counts self.new) }
        ensures others { (other : List ℕ) → target self.old ≢ Some other
            → file_at (files self.new) other ≡ file_at (files self.old) other }
        ensures still_told { is_some (files self.new) ≡ is_some (files self.old) }
        ensures rest_stays { rest self.new ≡ rest self.old }
        ensures printed_stays { printed self.new ≡ printed self.old }
        ensures target_stays { target self.new ≡ target self.old }
        ensures ready_stays { ready self.new ≡ ready self.old }
        ensures openings_stay { openings self.new ≡ openings self.old }
        ensures besides { write_also self.old piece.now (result_ok result) self.new };

    /// Prints a front of `piece`, and returns its length. It is 0 for a nonempty piece only where
    /// the stalls rose. Fails only where the print faults rose, and then nothing was printed.
    fn print(&mut self, piece: &[u8]) -> Result<usize, Failed>
        ensures within { IfOk result (λ n. n ≤ length piece.now) }
        ensures appended { IfOk result (λ n.
            printed self.new ≡ append_known (printed self.old) (take n piece.now)) }
        ensures nothing { OnErr result (printed self.new ≡ printed self.old) }
        ensures fault { OnErr result (counts self.new ≡ with_print_fault (counts self.old)) }
        ensures stalled { IfOk result (λ n. n ≡ 0 → piece.now ≢ []
            → counts self.new ≡ with_stall (counts self.old)) }
        ensures steady { IfOk result (λ n. 0 < n → counts self.new ≡ counts self.old) }
        ensures idle { OnOk result (piece.now ≡ [] → counts self.new ≡ counts self.old) }
        ensures never_fall { NeverFall (counts self.old) (counts self.new) }
        ensures files_stay { files self.new ≡ files self.old }
        ensures rest_stays { rest self.new ≡ rest self.old }
        ensures written_stays { written self.new ≡ written self.old }
        ensures target_stays { target self.new ≡ target self.old }
        ensures ready_stays { ready self.new ≡ ready self.old }
        ensures openings_stay { openings self.new ≡ openings self.old }
        ensures besides { print_also self.old piece.now (result_ok result) self.new };

    /// Tells a person a sentence, apart from what is printed. A desk that nobody watches tells nothing.
    fn say<T: Display>(&self, _sentence: &T) {}

    /// Shows a person how far a long work is, in a line that takes the place of the one shown before. A desk that nobody
    /// watches shows nothing.
    fn show<T: Display>(&self, _state: &T) {}

    /// The milliseconds since some moment, by the desk's clock. A desk without one always answers 0.
    fn milliseconds(&self) -> u64 {
        0
    }

    // What was written is what the file created last holds.
    ghost is_content: { (desk : Self) → written desk ≡ content_of (files desk) (target desk) };
}

/// The stalls after a call that took `taken` bytes of the piece.
pub(crate) fn stalls_after(stalls: u64, taken: usize, piece: &[u8]) -> u64
    ensures some { 0 < taken → result ≡ stalls }
    ensures idle { length piece.now ≡ 0 → result ≡ stalls }
    ensures stalled { taken ≡ 0 → 0 < length piece.now → result ≡ next_count stalls }
    ensures never_fall { stalls ≤ result }
{
    if taken == 0 && !piece.is_empty() {
        stalls.saturating_add(1)
    } else {
        stalls
    }
}
