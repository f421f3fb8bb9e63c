//! The line that says what is found of a witness.

ghost use Rattle.std.specs.Prelude.{[], ◌∷◌, codes, decimal, IsTrue};
ghost use Rattle.hyd_io.specs.Output.{OnCert};
ghost use Rattle.hyd_io.specs.TextPutIn.{Puts};
ghost use Rattle.hyd_net.specs.Sound.{IsSound};
ghost use Rattle.hyd_spec_certificates.specs.CertificateText.{line};
ghost use Rattle.hyd_spec_witness_answers.specs.PromisesOfWitnesses.{meets_line, unmet_line, bad_line};
ghost use Rattle.hyd_witness_trials.specs.Findings.{finding_line};

use crate::ids::{link_id, node_id};
use crate::line_pieces::put_pieces;
use hyd_io::{Desk, OutFault, Pen};
use hyd_net::Project;
use hyd_spec_witnesses::{MetClause, Unmet};
use hyd_witness_trials::Finding;
use itoa::Buffer;

// Puts the line that all periods are met.
fn put_meets<D: Desk>(periods: u32, pen: &mut Pen, desk: &mut D) -> Result<(), OutFault>
    requires { OnCert pen.old.to (IsTrue (D.ready desk.old)) }
    ensures { Puts D.files D.rest D.written D.printed D.target D.ready D.counts D.openings
        (meets_line periods) result pen.old pen.new desk.old desk.new }
{
    let mut digits = Buffer::new();
    put_pieces(
        &[
            b"MEETS ".as_slice(),
            digits.format(periods).as_bytes(),
            b"\n",
        ],
        pen,
        desk,
    )
}

// Puts the line that one line can't be so.
fn put_bad_line<D: Desk>(number: u64, pen: &mut Pen, desk: &mut D) -> Result<(), OutFault>
    requires { OnCert pen.old.to (IsTrue (D.ready desk.old)) }
    ensures { Puts D.files D.rest D.written D.printed D.target D.ready D.counts D.openings
        (bad_line number) result pen.old pen.new desk.old desk.new }
{
    let mut digits = Buffer::new();
    put_pieces(
        &[
            b"BADWIT line ".as_slice(),
            digits.format(number).as_bytes(),
            b"\n",
        ],
        pen,
        desk,
    )
}

// Puts the line that a period isn't met by a clause that names no place.
fn put_clause<D: Desk>(
    period: u32,
    clause: &[u8],
    pen: &mut Pen,
    desk: &mut D,
) -> Result<(), OutFault>
    requires { OnCert pen.old.to (IsTrue (D.ready desk.old)) }
    ensures { Puts D.files D.rest D.written D.printed D.target D.ready D.counts D.openings
        (line (codes "UNMET" ∷ (codes "period" ∷ (decimal period ∷ (clause.now ∷ [])))))
        result pen.old pen.new desk.old desk.new }
{
    let mut digits = Buffer::new();
    put_pieces(
        &[
            b"UNMET period ".as_slice(),
            digits.format(period).as_bytes(),
            b" ",
            clause,
            b"\n",
        ],
        pen,
        desk,
    )
}

// Puts the line that a period isn't met by a clause at a link or a junction.
fn put_clause_at<D: Desk>(
    period: u32,
    clause: &[u8],
    id: &[u8],
    pen: &mut Pen,
    desk: &mut D,
) -> Result<(), OutFault>
    requires { OnCert pen.old.to (IsTrue (D.ready desk.old)) }
    ensures { Puts D.files D.rest D.written D.printed D.target D.ready D.counts D.openings
        (line (codes "UNMET" ∷ (codes "period" ∷ (decimal period ∷ (clause.now ∷ (id.now ∷ []))))))
        result pen.old pen.new desk.old desk.new }
{
    let mut digits = Buffer::new();
    put_pieces(
        &[
            b"UNMET period ".as_slice(),
            digits.format(period).as_bytes(),
            b" ",
            clause,
            b" ",
            id,
            b"\n",
        ],
        pen,
        desk,
    )
}

// Puts the line that a period isn't met.
fn put_unmet<D: Desk>(
    project: &Project,
    period: u32,
    unmet: Unmet,
    pen: &mut Pen,
    desk: &mut D,
) -> Result<(), OutFault>
    requires sound { IsSound project.now }
    requires ready { OnCert pen.old.to (IsTrue (D.ready desk.old)) }
    ensures { Puts D.files D.rest D.written D.printed D.target D.ready D.counts D.openings
        (unmet_line project.now period unmet) result pen.old pen.new desk.old desk.new }
{
    let number = unmet.number;
    match unmet.clause {
        MetClause::Start => put_clause(period, b"START", pen, desk),
        MetClause::Link => put_clause_at(period, b"LINK", link_id(project, number), pen, desk),
        MetClause::Demand => put_clause_at(period, b"DEMAND", node_id(project, number), pen, desk),
        MetClause::Emitter => put_clause_at(
            period,
            b"EMITTER",
            node_id(project, number),
            pen,
            desk,
        ),
        MetClause::Balance => put_clause_at(
            period,
            b"BALANCE",
            node_id(project, number),
            pen,
            desk,
        ),
        MetClause::Length => put_clause(period, b"LENGTH", pen, desk),
    }
}

/// Puts the line that says what is found. Its faults and its needs are those of `Pen::put`.
pub(crate) fn put_finding<D: Desk>(
    project: &Project,
    finding: Finding,
    pen: &mut Pen,
    desk: &mut D,
) -> Result<(), OutFault>
    requires sound { IsSound project.now }
    requires ready { OnCert pen.old.to (IsTrue (D.ready desk.old)) }
    ensures { Puts D.files D.rest D.written D.printed D.target D.ready D.counts D.openings
        (finding_line project.now finding) result pen.old pen.new desk.old desk.new }
{
    match finding {
        Finding::Meets(periods) => put_meets(periods, pen, desk),
        Finding::Fails(period, unmet) => put_unmet(project, period, unmet, pen, desk),
        Finding::BadLine(number) => put_bad_line(number, pen, desk),
    }
}
