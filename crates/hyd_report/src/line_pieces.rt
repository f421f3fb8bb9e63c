//! Putting out lines piece by piece.

ghost use Rattle.std.specs.Prelude.{map, IsTrue};
ghost use Rattle.hyd_io.specs.Output.{OnCert};
ghost use Rattle.hyd_spec.specs.Lists.{joined};
ghost use Rattle.hyd_io.specs.TextPutIn.{Puts};

use hyd_io::{Desk, OutFault, Pen};

/// Puts one piece.
pub(crate) fn put_piece<D: Desk>(piece: &[u8], pen: &mut Pen, desk: &mut D) -> Result<(), OutFault>
    requires { OnCert pen.old.to (IsTrue (D.ready desk.old)) }
    ensures { Puts D.files D.rest D.written D.printed D.target D.ready D.counts D.openings
        piece.now result pen.old pen.new desk.old desk.new }
{
    pen.put(desk, piece)
}

/// Puts the pieces one after another. Its faults are those of `Pen::put`.
pub(crate) fn put_pieces<D: Desk>(
    pieces: &[&[u8]],
    pen: &mut Pen,
    desk: &mut D,
) -> Result<(), OutFault>
    requires { OnCert pen.old.to (IsTrue (D.ready desk.old)) }
    ensures { Puts D.files D.rest D.written D.printed D.target D.ready D.counts D.openings
        (joined (map (λ piece. piece.now) pieces.now)) result pen.old pen.new desk.old desk.new }
{
    // A pen that has a fault answers it also where there are no pieces.
    put_piece(b"", pen, desk)?;
    for piece in pieces {
        put_piece(piece, pen, desk)?;
    }
    Ok(())
}
