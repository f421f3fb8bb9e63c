//! A desk in memory, for programs that keep their files there and for tests: it tells all, and its calls can be made to
//! fail or to take nothing.

ghost use Rattle.std.specs.Prelude.{◌≡◌, ◌≢◌, ℕ, ◌<◌, ◌≤◌, List, [], ◌∷◌, ◌++◌, length, true, bytes_eq, if◌then◌else◌};
ghost use Rattle.std.specs.Prelude.{Some, None, option_map, option_and_then, IsErr, IfOk, OnOk, OnErr, string_bytes};
ghost use Rattle.std.specs.Prelude.{is_none, refl};
ghost use Rattle.std.specs.Map.{update};
ghost use Rattle.hyd_io.specs.DeskBytes.{append_known};
ghost use Rattle.hyd_io.specs.DeskCounts.{next_count};
ghost use Rattle.hyd_io.specs.DeskInMemory.{file_bytes, is_listed, empty_memory};

use crate::desk::{Desk, Failed, Faults, Openings, stalls_after};
use crate::output::gather;
use std::alloc::{AllocError, Global};
use std::collections::BTreeMap;

/// A desk in memory. Contracts see it as its `memory`: the files, what is left to read, what was
/// printed, and so on.
///
/// `read` fails exactly where the call is one that is to fail. The other calls fail there, where
/// `open` finds no file of the name, and for want of memory. A write or print that doesn't fail
/// takes nothing where the call is one that is to take nothing, else the whole piece. Any name may
/// be opened and created.
#[derive(Drop)]
pub struct MemDesk {
    alloc: Global,
    files: BTreeMap<String, Vec<u8>>,
    opened: Vec<u8>,
    at: usize,
    target: Option<String>,
    ready: bool,
    printed: Vec<u8>,
    failing: Vec<u32>,
    starving: Vec<u32>,
    calls: u64,
    writes: u64,
    prints: u64,
    counts: Faults,
    openings: Openings,
    ghost within: { at ≤ length opened.items },
}

impl MemDesk {
    ghost use Rattle.hyd_io.specs.DeskInMemoryView.{memory};

    /// A desk with no files and no calls that are to fail or to take nothing. It takes no memory.
    pub fn new(alloc: Global) -> MemDesk
        ensures { memory result ≡ empty_memory }
    {
        MemDesk {
            alloc,
            files: BTreeMap::new(alloc),
            opened: Vec::new(alloc),
            at: 0,
            target: None,
            ready: false,
            printed: Vec::new(alloc),
            failing: Vec::new(alloc),
            starving: Vec::new(alloc),
            calls: 0,
            writes: 0,
            prints: 0,
            counts: Faults {
                read: 0,
                write: 0,
                print: 0,
                stall: 0,
            },
            openings: Openings {
                opened: 0,
                created: 0,
            },
        }
    }

    /// The bytes of the file of that name, `None` exactly where there is no such file.
    pub fn file(&self, name: &str) -> Option<&[u8]>
        ensures { option_map (λ bytes. bytes.now) result ≡ (memory self.now).files name.now }
    {
        match self.files.get(name) {
            Some(bytes) => Some(bytes.as_slice()),
            None => None,
        }
    }

    /// What was printed so far.
    pub fn printed(&self) -> &[u8]
        ensures { result.now ≡ (memory self.now).printed }
    {
        self.printed.as_slice()
    }

    /// How many writes there were so far, failed ones among them. It stays at 2^64 - 1 once it is
    /// there.
    pub fn writes(&self) -> u64
        ensures { result ≡ (memory self.now).writes }
    {
        self.writes
    }

    /// How many prints there were so far, failed ones among them. It stays at 2^64 - 1 once it is
    /// there.
    pub fn prints(&self) -> u64
        ensures { result ≡ (memory self.now).prints }
    {
        self.prints
    }

    /// How often `open` and `create` were called so far.
    pub fn openings(&self) -> Openings
        ensures { result ≡ (memory self.now).openings }
    {
        self.openings
    }

    /// Adds a file, in place of one of that name, or leaves all as it was.
    pub fn add(&mut self, name: &str, bytes: &[u8]) -> Result<(), AllocError>
        ensures added { OnOk result (memory self.new ≡ record (memory self.old) {
          files = update bytes_eq (memory self.old).files name.now (Some bytes.now);
        }) }
        ensures err { OnErr result (memory self.new ≡ memory self.old) }
    {
        let bytes = Vec::from_slice(self.alloc, bytes)?;
        put_file(self.alloc, &mut self.files, name, bytes)
    }

    /// Names a call that is to fail, counted from 1 over all calls of the desk, or leaves all as it
    /// was.
    pub fn fail(&mut self, call: u32) -> Result<(), AllocError>
        ensures listed { OnOk result (memory self.new ≡ record (memory self.old) {
          failing = (memory self.old).failing ++ call ∷ [];
        }) }
        ensures err { OnErr result (memory self.new ≡ memory self.old) }
    {
        self.failing.push(call)?;
        Ok(())
    }

    /// Names a call that is to take nothing, if it is a write or a print, counted from 1 over all
    /// calls of the desk, or leaves all as it was.
    pub fn starve(&mut self, call: u32) -> Result<(), AllocError>
        ensures listed { OnOk result (memory self.new ≡ record (memory self.old) {
          starving = (memory self.old).starving ++ call ∷ [];
        }) }
        ensures err { OnErr result (memory self.new ≡ memory self.old) }
    {
        self.starving.push(call)?;
        Ok(())
    }
}

impl Desk for MemDesk {
    ghost use Rattle.hyd_io.specs.DeskInMemoryView.{memory};
    ghost use Rattle.hyd_io.specs.DeskInMemory.{OpensToo, ReadsToo, CreatesToo, WritesToo, PrintsToo};

    ghost files = { λ desk. Some (memory desk).files };

    ghost rest = { λ desk. Some (memory desk).unread };

    ghost written = { λ desk. option_and_then (memory desk).files (memory desk).target };

    ghost printed = { λ desk. Some (memory desk).printed };

    ghost target = { λ desk. (memory desk).target };

    ghost ready = { λ desk. (memory desk).ready };

    ghost counts = { λ desk. (memory desk).counts };

    ghost openings = { λ desk. (memory desk).openings };

    ghost may_open = { λ _. true };

    ghost may_create = { λ _. true };

    ghost open_also = { λ old name failed new. OpensToo (memory old) name failed (memory new) };

    ghost read_also = { λ old given new. ReadsToo (memory old) (is_none given) (memory new) };

    ghost create_also = { λ old failed new. CreatesToo (memory old) failed (memory new) };

    ghost write_also = { λ old piece taken new. WritesToo (memory old) piece taken (memory new) };

    ghost print_also = { λ old piece taken new. PrintsToo (memory old) piece taken (memory new) };

    ghost is_content = { λ _. refl };

    fn open(&mut self, name: &str) -> Result<(), Failed> {
        let fails = begin(&mut self.calls, &self.failing);
        self.openings.opened = self.openings.opened.saturating_add(1);
        self.at = 0;
        self.opened.clear();
        match copy_of_file(self.alloc, &self.files, name, fails) {
            Ok(bytes) => {
                self.opened = bytes;
                Ok(())
            }
            Err(failed) => {
                self.counts.read = self.counts.read.saturating_add(1);
                Err(failed)
            }
        }
    }

    fn read(&mut self, buffer: &mut [u8]) -> Result<usize, Failed> {
        if begin(&mut self.calls, &self.failing) {
            self.counts.read = self.counts.read.saturating_add(1);
            return Err(Failed);
        }
        let n = gather(buffer, 0, &self.opened[self.at..]);
        self.at += n;
        Ok(n)
    }

    fn create(&mut self, name: &str) -> Result<(), Failed> {
        let fails = begin(&mut self.calls, &self.failing);
        self.openings.created = self.openings.created.saturating_add(1);
        match make_empty(self.alloc, &mut self.files, name, fails) {
            Ok(target) => {
                self.target = Some(target);
                self.ready = true;
                Ok(())
            }
            Err(failed) => {
                self.ready = false;
                self.counts.write = self.counts.write.saturating_add(1);
                Err(failed)
            }
        }
    }

    fn write(&mut self, piece: &[u8]) -> Result<usize, Failed> {
        let fails = begin(&mut self.calls, &self.failing);
        self.writes = self.writes.saturating_add(1);
        let taken = taken_of(&self.starving, self.calls, piece);
        if let Err(failed) = append(&mut self.files, &self.target, taken, fails) {
            self.counts.write = self.counts.write.saturating_add(1);
            return Err(failed);
        }
        self.counts.stall = stalls_after(self.counts.stall, taken.len(), piece);
        Ok(taken.len())
    }

    fn print(&mut self, piece: &[u8]) -> Result<usize, Failed> {
        let fails = begin(&mut self.calls, &self.failing);
        self.prints = self.prints.saturating_add(1);
        let taken = taken_of(&self.starving, self.calls, piece);
        if fails || self.printed.extend_from_slice(taken).is_err() {
            self.counts.print = self.counts.print.saturating_add(1);
            return Err(Failed);
        }
        self.counts.stall = stalls_after(self.counts.stall, taken.len(), piece);
        Ok(taken.len())
    }
}

/// Counts a call, and says whether it is to fail.
fn begin(calls: &mut u64, failing: &[u32]) -> bool
    ensures counted { calls.new ≡ next_count calls.old }
    ensures fails { result ≡ is_listed failing.now (next_count calls.old) }
{
    *calls = calls.saturating_add(1);
    lists(failing, *calls)
}

/// Whether the list names the call of that number.
fn lists(list: &[u32], call: u64) -> bool
    ensures { result ≡ is_listed list.now call }
{
    list.iter().any(|n| u64::from(*n) == call)
}

/// What a call takes of the piece: nothing where it is listed, else all.
fn taken_of<'a>(starving: &[u32], call: u64, piece: &'a [u8]) -> &'a [u8]
    ensures { result.now ≡ (if is_listed starving.now call then [] else piece.now) }
{
    if lists(starving, call) { &[] } else { piece }
}

/// A copy of the file's bytes. Fails where the call is to fail, where there is no such file, and
/// for want of memory.
fn copy_of_file(
    alloc: Global,
    files: &BTreeMap<String, Vec<u8>>,
    name: &str,
    fails: bool,
) -> Result<Vec<u8>, Failed>
    ensures bytes { IfOk result (λ bytes. file_bytes files.now name.now ≡ Some bytes.items) }
    ensures fails { fails ≡ true → IsErr result }
    ensures absent { file_bytes files.now name.now ≡ None → IsErr result }
{
    if fails {
        return Err(Failed);
    }
    match files.get(name) {
        Some(bytes) => Vec::from_slice(alloc, bytes).map_err(|_| Failed),
        None => Err(Failed),
    }
}

/// Puts an empty file into the map and gives a copy of its name. Fails where the call is to fail,
/// and for want of memory, and then leaves the map as it was.
fn make_empty(
    alloc: Global,
    files: &mut BTreeMap<String, Vec<u8>>,
    name: &str,
    fails: bool,
) -> Result<String, Failed>
    ensures name { IfOk result (λ target. string_bytes target ≡ name.now) }
    ensures made { OnOk result (file_bytes files.new
        ≡ update bytes_eq (file_bytes files.old) name.now (Some [])) }
    ensures kept { OnErr result (file_bytes files.new ≡ file_bytes files.old) }
    ensures fails { fails ≡ true → IsErr result }
{
    if fails {
        return Err(Failed);
    }
    let Ok(target) = String::from_str(alloc, name) else {
        return Err(Failed);
    };
    match put_file(alloc, files, name, Vec::new(alloc)) {
        Ok(()) => Ok(target),
        Err(_) => Err(Failed),
    }
}

/// Puts a file into the map, in place of one of that name, or leaves the map as it was.
fn put_file(
    alloc: Global,
    files: &mut BTreeMap<String, Vec<u8>>,
    name: &str,
    bytes: Vec<u8>,
) -> Result<(), AllocError>
    ensures put { OnOk result (file_bytes files.new
        ≡ update bytes_eq (file_bytes files.old) name.now (Some bytes.items)) }
    ensures err { OnErr result (file_bytes files.new ≡ file_bytes files.old) }
{
    let Ok(key) = String::from_str(alloc, name) else {
        return Err(AllocError);
    };
    match files.insert(key, bytes) {
        Ok(_) => Ok(()),
        Err(_) => Err(AllocError),
    }
}

/// Appends to the target's file. Fails where the call is to fail, where there is no such file, and
/// for want of memory, and then leaves the map as it was.
fn append(
    files: &mut BTreeMap<String, Vec<u8>>,
    target: &Option<String>,
    bytes: &[u8],
    fails: bool,
) -> Result<(), Failed>
    ensures appended { let name = option_map string_bytes target.now in
        OnOk result (option_and_then (file_bytes files.new) name
        ≡ append_known (option_and_then (file_bytes files.old) name) bytes.now) }
    ensures others { (other : List ℕ) → option_map string_bytes target.now ≢ Some other
        → file_bytes files.new other ≡ file_bytes files.old other }
    ensures kept { OnErr result (file_bytes files.new ≡ file_bytes files.old) }
    ensures fails { fails ≡ true → IsErr result }
{
    if fails {
        return Err(Failed);
    }
    match target {
        Some(name) => append_to(files, name.as_str(), bytes),
        None => Err(Failed),
    }
}

/// Appends to the file of that name. Fails where there is none, and for want of memory, and then
/// leaves the map as it was.
fn append_to(files: &mut BTreeMap<String, Vec<u8>>, name: &str, bytes: &[u8]) -> Result<(), Failed>
    ensures appended { OnOk result (file_bytes files.new name.now
        ≡ append_known (file_bytes files.old name.now) bytes.now) }
    ensures others { (other : List ℕ) → other ≢ name.now
        → file_bytes files.new other ≡ file_bytes files.old other }
    ensures kept { OnErr result (file_bytes files.new ≡ file_bytes files.old) }
{
    let Some(file) = files.get_mut(name) else {
        return Err(Failed);
    };
    match file.extend_from_slice(bytes) {
        Ok(()) => Ok(()),
        Err(_) => Err(Failed),
    }
}
