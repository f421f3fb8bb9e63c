//! The line of a bracket.

ghost use Rattle.std.specs.Prelude.{ℕ, ◌<◌, List, [], ◌∷◌, codes, length, IsTrue};
ghost use Rattle.hyd_io.specs.Output.{OnCert};
ghost use Rattle.hyd_io.specs.TextPutIn.{Puts};
ghost use Rattle.hyd_net.specs.Sound.{IsSound};
ghost use Rattle.hyd_spec_certificates.specs.CertificateText.{line};
ghost use Rattle.hyd_spec_reports.specs.ReportLine.{node_id};
ghost use Rattle.hyd_spec_pressure_targets.specs.LinesOfTargets.{IsFireLine};
ghost use Rattle.hyd_fire.specs.EdgesInRange.{IsSmallEdge};

use crate::edge_texts::{Text, above_text, below_text};
use crate::ids::junction_id;
use crate::line_pieces::put_pieces;
use hyd_io::{Desk, OutFault, Pen};
use hyd_net::Project;
use hyd_spec_pressure_targets::Bracket;

// Puts the line of a junction and two texts.
fn put_parts<D: Desk>(
    project: &Project,
    junction: u32,
    below: &Text,
    above: &Text,
    pen: &mut Pen,
    desk: &mut D,
) -> Result<(), OutFault>
    requires sound { IsSound project.now }
    requires inside { junction < length project.now.junctions.list }
    requires ready { OnCert pen.old.to (IsTrue (D.ready desk.old)) }
    ensures { Puts D.files D.rest D.written D.printed D.target D.ready D.counts D.openings
        (line (codes "FIRE" ∷ (node_id project.now junction ∷ (below.now ∷ (above.now ∷ [])))))
        result pen.old pen.new desk.old desk.new }
{
    put_pieces(
        &[
            b"FIRE ".as_slice(),
            junction_id(project, junction),
            b" ",
            below.bytes(),
            b" ",
            above.bytes(),
            b"\n",
        ],
        pen,
        desk,
    )
}

/// Puts the line of the bracket of a junction. Its faults and its needs are those of `Pen::put`.
pub fn put_fire<D: Desk>(
    project: &Project,
    junction: u32,
    bracket: &Bracket,
    pen: &mut Pen,
    desk: &mut D,
) -> Result<(), OutFault>
    requires sound { IsSound project.now }
    requires inside { junction < length project.now.junctions.list }
    requires below { IsSmallEdge bracket.now.below }
    requires above { IsSmallEdge bracket.now.above }
    requires ready { OnCert pen.old.to (IsTrue (D.ready desk.old)) }
    ensures { (text : List ℕ) × (IsFireLine project.now junction bracket.now text
        × Puts D.files D.rest D.written D.printed D.target D.ready D.counts D.openings
        text result pen.old pen.new desk.old desk.new) }
{
    let unit = project.options.unit;
    let below = below_text(bracket.below, unit);
    let above = above_text(bracket.above, unit);
    put_parts(project, junction, &below, &above, pen, desk)
}
