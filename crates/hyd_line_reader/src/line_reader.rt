//! Lines from the file that is being read, a block at a time.

ghost use Rattle.std.specs.Prelude.{◌≡◌, ◌≢◌, ℕ, ◌+◌, ◌-◌, ◌<◌, ◌≤◌, List, [], ◌∷◌, ◌++◌, length, take, drop};
ghost use Rattle.std.specs.Prelude.{slice_index, false, IsTrue, Some, IfSome, IfNone, IfOk, OnOk, OnErr};
ghost use Rattle.hyd_io.specs.Buffers.{buffer_bytes};
ghost use Rattle.hyd_io.specs.DeskBytes.{where_told, prepend_known};
ghost use Rattle.hyd_io.specs.DeskCounts.{with_read_fault};
ghost use Rattle.hyd_io.specs.LeftAsItWas.{KeepsOutput};
ghost use Rattle.hyd_line_reader.specs.TextsWithoutLine.{HasNo, HasNoLine};

use hyd_io::{BUFFER_BYTES, Desk, Failed};
use std::marker::Model;

/// How many bytes a line has at most, with its line feed.
pub const LINE: usize = 64;

/// Bytes that were read ahead.
#[derive(Drop)]
pub struct Source {
    block: [u8; BUFFER_BYTES],
    at: usize,
    end: usize,
}

impl Model for Source {
    ghost use Rattle.std.specs.Prelude.{List, ℕ, ◌-◌, ◌≤◌, take, drop};
    ghost use Rattle.hyd_io.specs.Buffers.{buffer_bytes};

    ghost Value = { List ℕ };

    ghost view = { λ s. take (s.end - s.at) (drop s.at s.block) };

    ghost invariant = { λ s. (s.at ≤ s.end) × (s.end ≤ buffer_bytes) };
}

impl Source {
    /// A source that has read nothing.
    pub fn new() -> Source
        ensures { result ≡ [] }
    {
        Source {
            block: [0; BUFFER_BYTES],
            at: 0,
            end: 0,
        }
    }

    /// The bytes that were read ahead.
    pub fn held(&self) -> &[u8]
        ensures { result.now ≡ self.now }
    {
        &self.block[self.at..self.end]
    }

    /// Passes over a line of that length and its line feed.
    pub fn skip_line(&mut self, n: usize)
        requires { n < length self.old }
        ensures { self.new ≡ drop (n + 1) self.old }
    {
        self.at = self.at + n + 1;
    }

    /// Reads further bytes, and returns how many; 0 means that nothing is left.
    fn fill<D: Desk>(&mut self, desk: &mut D) -> Result<usize, Failed>
        requires room { length self.old < LINE }
        ensures same { OnOk result (prepend_known self.new (D.rest desk.new)
            ≡ prepend_known self.old (D.rest desk.old)) }
        ensures longer { IfOk result (λ n. length self.new ≡ length self.old + n) }
        ensures end { IfOk result (λ n. n ≡ 0 → D.rest desk.old ≡ where_told (D.rest desk.old) []) }
        ensures idle { IfOk result (λ n. n ≡ 0 → self.new ≡ self.old) }
        ensures fault { OnErr result (D.counts desk.new ≡ with_read_fault (D.counts desk.old)) }
        ensures steady { OnOk result (D.counts desk.new ≡ D.counts desk.old) }
        ensures stays { KeepsOutput D.files D.written D.printed D.target D.ready D.counts D.openings
            desk.old desk.new }
    {
        let held = move_to_front(&mut self.block, self.at, self.end);
        self.at = 0;
        self.end = held;
        match read_behind(desk, &mut self.block, held) {
            Ok(n) => {
                self.end += n;
                Ok(n)
            }
            Err(fault) => Err(fault),
        }
    }

    /// The length of the next line, without its line feed, if it is whole and has at most 64 bytes
    /// with it. It is held then.
    pub fn line<D: Desk>(&mut self, desk: &mut D) -> Result<Option<usize>, Failed>
        ensures same { OnOk result (prepend_known self.new (D.rest desk.new)
            ≡ prepend_known self.old (D.rest desk.old)) }
        ensures some { IfOk result (λ o. IfSome o (λ n. self.new ≡ take n self.new ++ (10 ∷ drop (n + 1) self.new))) }
        ensures within { IfOk result (λ o. IfSome o (λ n. n < length self.new)) }
        ensures short { IfOk result (λ o. IfSome o (λ n. n < LINE)) }
        ensures first { IfOk result (λ o. IfSome o (λ n. HasNo 10 (take n self.new))) }
        ensures none { IfOk result (λ o. IfNone o (HasNoLine (prepend_known self.new (D.rest desk.new)))) }
        ensures fault { OnErr result (D.counts desk.new ≡ with_read_fault (D.counts desk.old)) }
        ensures steady { OnOk result (D.counts desk.new ≡ D.counts desk.old) }
        ensures stays { KeepsOutput D.files D.written D.printed D.target D.ready D.counts D.openings
            desk.old desk.new }
    {
        loop {
            let held = self.held();
            let count = held.len();
            if let Some(n) = line_end(&held[..count.min(LINE)]) {
                return Ok(Some(n));
            }
            if count >= LINE {
                return Ok(None);
            }
            let n = self.fill(desk)?;
            if n == 0 {
                return Ok(None);
            }
        }
    }

    /// Whether nothing is left to read.
    pub fn is_over<D: Desk>(&mut self, desk: &mut D) -> Result<bool, Failed>
        ensures over { IfOk result (λ over. IsTrue over
            → prepend_known self.old (D.rest desk.old) ≡ where_told (D.rest desk.old) []) }
        ensures more { IfOk result (λ over. over ≡ false → prepend_known self.old (D.rest desk.old) ≢ Some []) }
        ensures fault { OnErr result (D.counts desk.new ≡ with_read_fault (D.counts desk.old)) }
        ensures steady { OnOk result (D.counts desk.new ≡ D.counts desk.old) }
        ensures stays { KeepsOutput D.files D.written D.printed D.target D.ready D.counts D.openings
            desk.old desk.new }
    {
        if !self.held().is_empty() {
            return Ok(false);
        }
        match self.fill(desk) {
            Ok(n) => Ok(n == 0),
            Err(fault) => Err(fault),
        }
    }
}

/// Moves the bytes from `at` to `end` to the front, and returns how many they are.
fn move_to_front(block: &mut [u8; BUFFER_BYTES], at: usize, end: usize) -> usize
    requires order { at ≤ end }
    requires within { end ≤ buffer_bytes }
    ensures count { result ≡ end - at }
    ensures moved { take result block.new ≡ take result (drop at block.old) }
{
    block.copy_within(at..end, 0);
    end - at
}

/// Reads into the block behind the first `used` bytes, and returns how many bytes.
fn read_behind<D: Desk>(
    desk: &mut D,
    block: &mut [u8; BUFFER_BYTES],
    used: usize,
) -> Result<usize, Failed>
    requires room { used < buffer_bytes }
    ensures within { IfOk result (λ n. used + n ≤ buffer_bytes) }
    ensures same { IfOk result (λ n. prepend_known (take (used + n) block.new) (D.rest desk.new)
        ≡ prepend_known (take used block.old) (D.rest desk.old)) }
    ensures idle { IfOk result (λ n. n ≡ 0 → take used block.new ≡ take used block.old) }
    ensures end { IfOk result (λ n. n ≡ 0 → D.rest desk.old ≡ where_told (D.rest desk.old) []) }
    ensures fault { OnErr result (D.counts desk.new ≡ with_read_fault (D.counts desk.old)) }
    ensures steady { OnOk result (D.counts desk.new ≡ D.counts desk.old) }
    ensures stays { KeepsOutput D.files D.written D.printed D.target D.ready D.counts D.openings
        desk.old desk.new }
{
    match desk.read(&mut block[used..]) {
        Ok(n) => Ok(n),
        Err(fault) => Err(fault),
    }
}

/// The place of the first line feed.
fn line_end(bytes: &[u8]) -> Option<usize>
    ensures some { IfSome result (λ n. slice_index bytes.now n ≡ 10) }
    ensures within { IfSome result (λ n. n < length bytes.now) }
    ensures first { IfSome result (λ n. HasNo 10 (take n bytes.now)) }
    ensures none { IfNone result (HasNo 10 bytes.now) }
{
    for i in 0..bytes.len() {
        if bytes[i] == b'\n' {
            return Some(i);
        }
    }
    None
}
