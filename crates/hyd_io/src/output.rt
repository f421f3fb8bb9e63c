//! Pens: buffered writing to the file created last or to standard output.

ghost use Rattle.std.specs.Prelude.{◌≡◌, ◌+◌, ◌-◌, ◌<◌, ◌≤◌, [], ◌++◌, length, take, min, Option};
ghost use Rattle.std.specs.Prelude.{Some, None, Err, IsTrue, IfOk, IfErr, OnOk, OnErr, decimal};
ghost use Rattle.hyd_io.specs.Buffers.{buffer_bytes};
ghost use Rattle.hyd_io.specs.DeskBytes.{append_known, Moves, PutOut};
ghost use Rattle.hyd_io.specs.Output.{by_channel, OnCert, HasOutCause, PenState};
ghost use Rattle.hyd_io.specs.LeftAsItWas.{KeepsOthers};
ghost use Rattle.hyd_io.specs.TextPutIn.{Puts, PenEmptied};

use crate::desk::Desk;
use itoa::Buffer;
use std::marker::Model;
use thiserror::Error;

/// How many bytes a pen gathers before it writes them; a source of lines reads as many ahead at most.
pub const BUFFER_BYTES: usize = 8192;

/// Where a pen writes.
#[derive(Clone, Copy)]
pub enum Channel {
    /// The file created last, by `Desk::write`.
    Cert,
    /// Standard output, by `Desk::print`.
    Report,
}

/// Why a pen stopped. It answers the same from then on.
#[derive(Clone, Copy, Debug, PartialEq, Eq, Error)]
pub enum OutFault {
    /// A call on the desk failed.
    #[error("a write failed")]
    Fault,
    /// A call on the desk took nothing of a nonempty piece.
    #[error("a write took nothing")]
    Stalled,
}

/// A writer that gathers bytes and puts them out when its buffer is full, and at `flush`.
#[derive(Drop)]
pub struct Pen {
    to: Channel,
    fault: Option<OutFault>,
    buffer: [u8; BUFFER_BYTES],
    used: usize,
}

impl Model for Pen {
    ghost use Rattle.std.specs.Prelude.{ℕ, ◌<◌, take};
    ghost use Rattle.hyd_io.specs.Buffers.{buffer_bytes};
    ghost use Rattle.hyd_io.specs.Output.{PenState};

    ghost Value = { PenState };

    ghost view = { λ pen. record { to = pen.to; fault = pen.fault; held = take pen.used pen.buffer } };

    ghost invariant = { λ pen. pen.used < buffer_bytes };
}

impl Pen {
    /// A pen on that channel that holds nothing and has no fault.
    pub fn new(to: Channel) -> Pen
        ensures { result ≡ record { to = to; fault = None; held = [] } }
    {
        Pen {
            to,
            fault: None,
            buffer: [0; BUFFER_BYTES],
            used: 0,
        }
    }

    /// Puts the piece in: a front of what the pen held and of the piece goes out, and the pen holds
    /// the rest.
    ///
    /// - `Fault`: a call on the desk failed, and the channel's fault count rose.
    /// - `Stalled`: a call on the desk took nothing, and the stalls rose.
    ///
    /// After either, what went out is a front of what was put in, and each later call answers the
    /// same and makes no call on the desk. On channel `Cert` it needs what `Desk::write` needs.
    pub fn put<D: Desk>(&mut self, desk: &mut D, piece: &[u8]) -> Result<(), OutFault>
        requires { OnCert self.old.to (IsTrue (D.ready desk.old)) }
        ensures { Puts D.files D.rest D.written D.printed D.target D.ready D.counts D.openings
            piece.now result self.old self.new desk.old desk.new }
    {
        if let Some(fault) = self.fault {
            return Err(fault);
        }
        match put_through(self.to, desk, &mut self.buffer, self.used, piece) {
            Ok(used) => {
                self.used = used;
                Ok(())
            }
            Err(fault) => {
                self.fault = Some(fault);
                Err(fault)
            }
        }
    }

    /// Puts out all that the pen holds. Its faults and its needs are those of `put`.
    pub fn flush<D: Desk>(&mut self, desk: &mut D) -> Result<(), OutFault>
        requires { OnCert self.old.to (IsTrue (D.ready desk.old)) }
        ensures { PenEmptied D.files D.rest D.written D.printed D.target D.ready D.counts D.openings
            result self.old self.new desk.old desk.new }
    {
        if let Some(fault) = self.fault {
            return Err(fault);
        }
        let flushed = put_all(self.to, desk, &self.buffer[..self.used]);
        self.fault = flushed.err();
        if flushed.is_ok() {
            self.used = 0;
        }
        flushed
    }
}

/// Puts the piece in through the buffer, of which `used` bytes are held, and returns how many are
/// held then.
fn put_through<D: Desk>(
    to: Channel,
    desk: &mut D,
    buffer: &mut [u8; BUFFER_BYTES],
    mut used: usize,
    piece: &[u8],
) -> Result<usize, OutFault>
    requires ready { OnCert to (IsTrue (D.ready desk.old)) }
    requires room { used < buffer_bytes }
    ensures within { IfOk result (λ left. left < buffer_bytes) }
    ensures moves { IfOk result (λ left. Moves (by_channel to (D.written desk.old) (D.printed desk.old))
        (by_channel to (D.written desk.new) (D.printed desk.new))
        (take used buffer.old ++ piece.now) (take left buffer.new)) }
    ensures front { OnErr result (PutOut (by_channel to (D.written desk.old) (D.printed desk.old))
        (by_channel to (D.written desk.new) (D.printed desk.new)) (take used buffer.old ++ piece.now)) }
    ensures cause { IfErr result (λ fault.
        HasOutCause to fault (D.counts desk.old) (D.counts desk.new)) }
    ensures steady { OnOk result (D.counts desk.new ≡ D.counts desk.old) }
    ensures stays { KeepsOthers D.files D.rest D.written D.printed D.target D.ready D.counts D.openings to
        desk.old desk.new }
{
    let mut rest = piece;
    while !rest.is_empty() {
        let n = gather(buffer, used, rest);
        rest = &rest[n..];
        used = put_when_full(to, desk, buffer, used + n)?;
    }
    Ok(used)
}

/// Copies as much of the piece as fits behind the first `used` bytes of the buffer, and returns how
/// much.
pub(crate) fn gather(buffer: &mut [u8], used: usize, piece: &[u8]) -> usize
    requires { used ≤ length buffer.old }
    ensures fits { result ≡ min (length piece.now) (length buffer.old - used) }
    ensures held { take (used + result) buffer.new ≡ take used buffer.old ++ take result piece.now }
{
    let n = piece.len().min(buffer.len() - used);
    buffer[used..used + n].copy_from_slice(&piece[..n]);
    n
}

/// Puts the buffer out if `used` is its whole size, and returns how many bytes are held then.
fn put_when_full<D: Desk>(
    to: Channel,
    desk: &mut D,
    buffer: &[u8; BUFFER_BYTES],
    used: usize,
) -> Result<usize, OutFault>
    requires ready { OnCert to (IsTrue (D.ready desk.old)) }
    requires room { used ≤ buffer_bytes }
    ensures within { IfOk result (λ left. left < buffer_bytes) }
    ensures moves { IfOk result (λ left. Moves (by_channel to (D.written desk.old) (D.printed desk.old))
        (by_channel to (D.written desk.new) (D.printed desk.new)) (take used buffer.now) (take left buffer.now)) }
    ensures front { OnErr result (PutOut (by_channel to (D.written desk.old) (D.printed desk.old))
        (by_channel to (D.written desk.new) (D.printed desk.new)) (take used buffer.now)) }
    ensures cause { IfErr result (λ fault.
        HasOutCause to fault (D.counts desk.old) (D.counts desk.new)) }
    ensures steady { OnOk result (D.counts desk.new ≡ D.counts desk.old) }
    ensures stays { KeepsOthers D.files D.rest D.written D.printed D.target D.ready D.counts D.openings to
        desk.old desk.new }
{
    if used < BUFFER_BYTES {
        return Ok(used);
    }
    match put_all(to, desk, buffer) {
        Ok(()) => Ok(0),
        Err(fault) => Err(fault),
    }
}

/// Puts all the bytes out, in as many calls as the desk takes.
fn put_all<D: Desk>(to: Channel, desk: &mut D, bytes: &[u8]) -> Result<(), OutFault>
    requires { OnCert to (IsTrue (D.ready desk.old)) }
    ensures whole { OnOk result (by_channel to (D.written desk.new) (D.printed desk.new)
        ≡ append_known (by_channel to (D.written desk.old) (D.printed desk.old)) bytes.now) }
    ensures front { OnErr result (PutOut (by_channel to (D.written desk.old) (D.printed desk.old))
        (by_channel to (D.written desk.new) (D.printed desk.new)) bytes.now) }
    ensures cause { IfErr result (λ fault.
        HasOutCause to fault (D.counts desk.old) (D.counts desk.new)) }
    ensures steady { OnOk result (D.counts desk.new ≡ D.counts desk.old) }
    ensures stays { KeepsOthers D.files D.rest D.written D.printed D.target D.ready D.counts D.openings to
        desk.old desk.new }
{
    let mut left = bytes;
    while !left.is_empty() {
        let n = put_front(to, desk, left)?;
        left = &left[n..];
    }
    Ok(())
}

/// Puts out a front of the nonempty piece by one call, and returns its length, which is not 0.
fn put_front<D: Desk>(to: Channel, desk: &mut D, piece: &[u8]) -> Result<usize, OutFault>
    requires ready { OnCert to (IsTrue (D.ready desk.old)) }
    requires some { 0 < length piece.now }
    ensures within { IfOk result (λ n. n ≤ length piece.now) }
    ensures moved { IfOk result (λ n. 0 < n) }
    ensures front { IfOk result (λ n. by_channel to (D.written desk.new) (D.printed desk.new)
        ≡ append_known (by_channel to (D.written desk.old) (D.printed desk.old)) (take n piece.now)) }
    ensures nothing { OnErr result (by_channel to (D.written desk.new) (D.printed desk.new)
        ≡ by_channel to (D.written desk.old) (D.printed desk.old)) }
    ensures cause { IfErr result (λ fault.
        HasOutCause to fault (D.counts desk.old) (D.counts desk.new)) }
    ensures steady { OnOk result (D.counts desk.new ≡ D.counts desk.old) }
    ensures stays { KeepsOthers D.files D.rest D.written D.printed D.target D.ready D.counts D.openings to
        desk.old desk.new }
{
    let taken = match to {
        Channel::Cert => desk.write(piece),
        Channel::Report => desk.print(piece),
    };
    match taken {
        Err(_) => Err(OutFault::Fault),
        Ok(0) => Err(OutFault::Stalled),
        Ok(n) => Ok(n),
    }
}

/// Puts a number in at a pen, in decimal digits. Its faults and its needs are those of `Pen::put`.
pub fn put_number<D: Desk>(number: u128, pen: &mut Pen, desk: &mut D) -> Result<(), OutFault>
    requires { OnCert pen.old.to (IsTrue (D.ready desk.old)) }
    ensures { Puts D.files D.rest D.written D.printed D.target D.ready D.counts D.openings
        (decimal number) result pen.old pen.new desk.old desk.new }
{
    let mut digits = Buffer::new();
    pen.put(desk, digits.format(number).as_bytes())
}
