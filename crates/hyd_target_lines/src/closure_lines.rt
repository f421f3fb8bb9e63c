//! The lines of a closure.

ghost use Rattle.std.specs.Prelude.{◌<◌, [], ◌∷◌, codes, length, IsTrue};
ghost use Rattle.hyd_io.specs.Output.{OnCert};
ghost use Rattle.hyd_io.specs.TextPutIn.{Puts};
ghost use Rattle.hyd_net.specs.Sound.{IsSound};
ghost use Rattle.hyd_spec_certificates.specs.CertificateText.{line};
ghost use Rattle.hyd_spec_reports.specs.ReportLine.{node_id};
ghost use Rattle.hyd_spec_pressure_targets.specs.LinesOfTargets.{shut_line, word_line};

use crate::ids::{junction_id, link_id};
use crate::line_pieces::put_pieces;
use hyd_io::{Desk, OutFault, Pen};
use hyd_net::Project;
use hyd_spec_pressure_targets::ClosureWord;

/// Puts the line of the pipe that is shut. Its faults and its needs are those of `Pen::put`.
pub fn put_shut<D: Desk>(
    project: &Project,
    pipe: u32,
    pen: &mut Pen,
    desk: &mut D,
) -> Result<(), OutFault>
    requires sound { IsSound project.now }
    requires inside { pipe < length project.now.links.list }
    requires ready { OnCert pen.old.to (IsTrue (D.ready desk.old)) }
    ensures { Puts D.files D.rest D.written D.printed D.target D.ready D.counts D.openings
        (shut_line project.now pipe) result pen.old pen.new desk.old desk.new }
{
    put_pieces(
        &[b"SHUT ".as_slice(), link_id(project, pipe), b"\n"],
        pen,
        desk,
    )
}

// Puts the line of a junction with a text.
fn put_junction<D: Desk>(
    project: &Project,
    junction: u32,
    text: &[u8],
    pen: &mut Pen,
    desk: &mut D,
) -> Result<(), OutFault>
    requires sound { IsSound project.now }
    requires inside { junction < length project.now.junctions.list }
    requires ready { OnCert pen.old.to (IsTrue (D.ready desk.old)) }
    ensures { Puts D.files D.rest D.written D.printed D.target D.ready D.counts D.openings
        (line (codes "JUNCTION" ∷ (node_id project.now junction ∷ (text.now ∷ []))))
        result pen.old pen.new desk.old desk.new }
{
    put_pieces(
        &[
            b"JUNCTION ".as_slice(),
            junction_id(project, junction),
            b" ",
            text,
            b"\n",
        ],
        pen,
        desk,
    )
}

/// Puts the line of a junction with its word, and nothing where it is safe. Its faults and its needs are those of
/// `Pen::put`.
pub fn put_word<D: Desk>(
    project: &Project,
    junction: u32,
    word: ClosureWord,
    pen: &mut Pen,
    desk: &mut D,
) -> Result<(), OutFault>
    requires sound { IsSound project.now }
    requires inside { junction < length project.now.junctions.list }
    requires ready { OnCert pen.old.to (IsTrue (D.ready desk.old)) }
    ensures { Puts D.files D.rest D.written D.printed D.target D.ready D.counts D.openings
        (word_line project.now junction word) result pen.old pen.new desk.old desk.new }
{
    match word {
        ClosureWord::Safe => pen.put(desk, b""),
        ClosureWord::Low => put_junction(project, junction, b"LOW", pen, desk),
        ClosureWord::NoCertificate => put_junction(project, junction, b"NOCERT", pen, desk),
        ClosureWord::RoundsSpent => put_junction(project, junction, b"ROUNDS", pen, desk),
        ClosureWord::Unsure => put_junction(project, junction, b"UNSURE", pen, desk),
    }
}
