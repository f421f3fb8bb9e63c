//! Reading a whole file within a limit.

ghost use Rattle.std.specs.Prelude.{◌≡◌, ℕ, ◌+◌, ◌<◌, ◌≤◌, List, [], length, take, min, Some, IfOk, IfErr, OnOk};
ghost use Rattle.std.specs.Prelude.{IsErrOf};
ghost use Rattle.hyd_io.specs.DeskBytes.{where_told, prepend_known, Took};
ghost use Rattle.hyd_io.specs.DeskCounts.{HasInCause};
ghost use Rattle.hyd_io.specs.LeftAsItWas.{KeepsOutput};
ghost use Rattle.hyd_io.specs.declared.input.InFault.TheVariants.{OutOfMemory};

use crate::desk::Desk;
use std::alloc::{AllocError, Global};
use thiserror::Error;

/// How many bytes one read asks for at most.
const BLOCK: usize = 4096;

/// Why `read_all` gave no bytes.
#[derive(Clone, Copy, Debug, PartialEq, Eq, Error)]
pub enum InFault {
    /// There was no memory for the bytes.
    #[error("out of memory")]
    OutOfMemory,
    /// A read failed.
    #[error("a read failed")]
    Fault,
    /// There are more bytes than the limit.
    #[error("the input is too long")]
    TooLong,
}

impl From<AllocError> for InFault {
    ghost from_gives = { λ _ e. e ≡ OutOfMemory };

    fn from(_error: AllocError) -> InFault {
        InFault::OutOfMemory
    }
}

/// All that is left to read on the desk, at most `limit` bytes. Nothing is left then.
///
/// - `OutOfMemory`: there was no memory for the bytes.
/// - `Fault`: a read failed, and the read faults rose.
/// - `TooLong`: exactly `limit` + 1 bytes were read, so there are more than `limit`.
pub fn read_all<D: Desk>(alloc: Global, desk: &mut D, limit: usize) -> Result<Vec<u8>, InFault>
    ensures whole { IfOk result (λ bytes.
        D.rest desk.old ≡ where_told (D.rest desk.old) bytes.items) }
    ensures end { OnOk result (D.rest desk.new ≡ where_told (D.rest desk.old) []) }
    ensures within { IfOk result (λ bytes. length bytes.items ≤ limit) }
    ensures too_long { IsErrOf result InFault.TooLong
        → Took (limit + 1) (D.rest desk.old) (D.rest desk.new) }
    ensures longer { (text : List ℕ) → D.rest desk.old ≡ Some text
        → IsErrOf result InFault.TooLong → limit < length text }
    ensures cause { IfErr result (λ fault.
        HasInCause fault (D.counts desk.old) (D.counts desk.new)) }
    ensures steady { OnOk result (D.counts desk.new ≡ D.counts desk.old) }
    ensures stays { KeepsOutput D.files D.written D.printed D.target D.ready D.counts D.openings
        desk.old desk.new }
{
    let mut bytes = Vec::new(alloc);
    let mut block = [0u8; BLOCK];
    loop {
        let n = read_block(desk, &mut block, limit - bytes.len())?;
        if n == 0 {
            return Ok(bytes);
        }
        bytes.extend_from_slice(&block[..n])?;
    }
}

/// Reads into the front of `block`: at most as many bytes as there is room for, 0 at the end. One
/// more is asked for, since only a read tells whether the input ends.
fn read_block<D: Desk>(desk: &mut D, block: &mut [u8; BLOCK], room: usize) -> Result<usize, InFault>
    ensures within { IfOk result (λ n. n ≤ room) }
    ensures fits { IfOk result (λ n. n ≤ BLOCK) }
    ensures front { IfOk result (λ n.
        D.rest desk.old ≡ prepend_known (take n block.new) (D.rest desk.new)) }
    ensures end { IfOk result (λ n. n ≡ 0 → D.rest desk.old ≡ where_told (D.rest desk.old) []) }
    ensures too_long { IsErrOf result InFault.TooLong
        → Took (room + 1) (D.rest desk.old) (D.rest desk.new) }
    ensures cause { IfErr result (λ fault.
        HasInCause fault (D.counts desk.old) (D.counts desk.new)) }
    ensures steady { OnOk result (D.counts desk.new ≡ D.counts desk.old) }
    ensures stays { KeepsOutput D.files D.written D.printed D.target D.ready D.counts D.openings
        desk.old desk.new }
{
    let ask = room.min(BLOCK - 1) + 1;
    match desk.read(&mut block[..ask]) {
        Err(_) => Err(InFault::Fault),
        Ok(n) if n > room => Err(InFault::TooLong),
        Ok(n) => Ok(n),
    }
}
