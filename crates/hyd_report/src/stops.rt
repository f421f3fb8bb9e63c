//! The line of a stop, and the words of a problem, side and junction, which lines of refusals have too.

ghost use Rattle.std.specs.Prelude.{◌≡◌, ◌+◌, ◌++◌, [], ◌∷◌, codes, decimal, IsTrue};
ghost use Rattle.hyd_io.specs.Output.{OnCert};
ghost use Rattle.hyd_net.specs.Sound.{IsSound};
ghost use Rattle.hyd_spec_certificates.specs.CertificateText.{words};
ghost use Rattle.hyd_spec_reports.specs.ReportLine.{node_id, rule_id, problem_words, side_word, cause_words, stop_line};
ghost use Rattle.hyd_spec_certificates.specs.Stops.{period_of};
ghost use Rattle.std.specs.Fmt.{signed_decimal};
ghost use Rattle.hyd_io.specs.TextPutIn.{Puts};

use crate::ids::{node_id, rule_id, tank_id};
use crate::line_pieces::{put_piece, put_pieces};
use crate::numbers_times_and_settings::{clock, number, signed};
use crate::states::side_word;
use hyd_io::{Desk, OutFault, Pen};
use hyd_net::Project;
use hyd_spec_certificates::{Problem, Side, StopCause};

/// Puts the words of a problem and a side.
fn put_problem<D: Desk>(
    project: &Project,
    problem: Problem,
    side: Side,
    pen: &mut Pen,
    desk: &mut D,
) -> Result<(), OutFault>
    requires sound { IsSound project.now }
    requires ready { OnCert pen.old.to (IsTrue (D.ready desk.old)) }
    ensures { Puts D.files D.rest D.written D.printed D.target D.ready D.counts D.openings
        (words (problem_words project.now problem ++ side_word side ∷ []))
        result pen.old pen.new desk.old desk.new }
{
    let side = side_word(side);
    match problem {
        Problem::Main => put_pieces(&[b"MAIN ".as_slice(), side.bytes()], pen, desk),
        Problem::Pinned(tank) => put_pieces(
            &[
                b"PINNED ".as_slice(),
                tank_id(project, tank),
                b" ",
                side.bytes(),
            ],
            pen,
            desk,
        ),
    }
}

/// Puts a key word and a space, and the words of a problem and a side at a junction.
pub(crate) fn put_failing<D: Desk>(
    project: &Project,
    key: &[u8],
    problem: Problem,
    side: Side,
    junction: u32,
    pen: &mut Pen,
    desk: &mut D,
) -> Result<(), OutFault>
    requires sound { IsSound project.now }
    requires ready { OnCert pen.old.to (IsTrue (D.ready desk.old)) }
    ensures { Puts D.files D.rest D.written D.printed D.target D.ready D.counts D.openings
        (key.now ++ (words (problem_words project.now problem ++ side_word side ∷ [])
        ++ (codes " JUNCTION " ++ (node_id project.now junction ++ codes "\n"))))
        result pen.old pen.new desk.old desk.new }
{
    put_piece(key, pen, desk)?;
    put_problem(project, problem, side, pen, desk)?;
    put_pieces(
        &[
            b" JUNCTION ".as_slice(),
            node_id(project, junction as usize),
            b"\n",
        ],
        pen,
        desk,
    )
}

/// Puts the words of spent rounds.
fn put_rounds<D: Desk>(
    project: &Project,
    problem: Problem,
    side: Side,
    rounds: u32,
    pen: &mut Pen,
    desk: &mut D,
) -> Result<(), OutFault>
    requires sound { IsSound project.now }
    requires ready { OnCert pen.old.to (IsTrue (D.ready desk.old)) }
    ensures { Puts D.files D.rest D.written D.printed D.target D.ready D.counts D.openings
        (codes "ROUNDS " ++ (words (problem_words project.now problem ++ side_word side ∷ [])
        ++ (codes " " ++ (decimal rounds ++ codes "\n"))))
        result pen.old pen.new desk.old desk.new }
{
    put_piece(b"ROUNDS ", pen, desk)?;
    put_problem(project, problem, side, pen, desk)?;
    let rounds = number(u64::from(rounds));
    put_pieces(&[b" ".as_slice(), rounds.bytes(), b"\n"], pen, desk)
}

/// Puts a key word and a space, an ID, and two numbers with their signs.
fn put_between<D: Desk>(
    key: &[u8],
    id: &[u8],
    lo: &i128,
    hi: &i128,
    pen: &mut Pen,
    desk: &mut D,
) -> Result<(), OutFault>
    requires { OnCert pen.old.to (IsTrue (D.ready desk.old)) }
    ensures { Puts D.files D.rest D.written D.printed D.target D.ready D.counts D.openings
        (key.now ++ (id.now ++ (codes " " ++ (signed_decimal lo.now ++ (codes " " ++ (signed_decimal hi.now
        ++ codes "\n"))))))
        result pen.old pen.new desk.old desk.new }
{
    let lo = signed(lo);
    let hi = signed(hi);
    put_pieces(
        &[key, id, b" ", lo.bytes(), b" ", hi.bytes(), b"\n"],
        pen,
        desk,
    )
}

/// Puts the words of a rule that is open by a clause.
fn put_open_rule<D: Desk>(
    project: &Project,
    rule: u32,
    clause: u32,
    lo: &i128,
    hi: &i128,
    pen: &mut Pen,
    desk: &mut D,
) -> Result<(), OutFault>
    requires { OnCert pen.old.to (IsTrue (D.ready desk.old)) }
    ensures { Puts D.files D.rest D.written D.printed D.target D.ready D.counts D.openings
        (codes "RULE " ++ (rule_id project.now rule ++ (codes " CLAUSE " ++ (decimal (clause + 1) ++ (codes " "
        ++ (signed_decimal lo.now ++ (codes " " ++ (signed_decimal hi.now ++ codes "\n"))))))))
        result pen.old pen.new desk.old desk.new }
{
    let clause = number(u64::from(clause) + 1);
    put_pieces(
        &[b"RULE ".as_slice(), rule_id(project, rule), b" CLAUSE "],
        pen,
        desk,
    )?;
    put_between(b"", clause.bytes(), lo, hi, pen, desk)
}

/// Puts the words of a control that is open.
fn put_open_control<D: Desk>(
    control: u32,
    lo: &i128,
    hi: &i128,
    pen: &mut Pen,
    desk: &mut D,
) -> Result<(), OutFault>
    requires { OnCert pen.old.to (IsTrue (D.ready desk.old)) }
    ensures { Puts D.files D.rest D.written D.printed D.target D.ready D.counts D.openings
        (codes "CONTROL " ++ (decimal (control + 1) ++ (codes " " ++ (signed_decimal lo.now ++ (codes " "
        ++ (signed_decimal hi.now ++ codes "\n"))))))
        result pen.old pen.new desk.old desk.new }
{
    let control = number(u64::from(control) + 1);
    put_between(b"CONTROL ", control.bytes(), lo, hi, pen, desk)
}

/// Puts the words of an end that is open between two seconds.
fn put_open_event<D: Desk>(
    earliest: u32,
    latest: u32,
    pen: &mut Pen,
    desk: &mut D,
) -> Result<(), OutFault>
    requires { OnCert pen.old.to (IsTrue (D.ready desk.old)) }
    ensures { Puts D.files D.rest D.written D.printed D.target D.ready D.counts D.openings
        (codes "EVENT " ++ (decimal earliest ++ (codes " " ++ (decimal latest ++ codes "\n"))))
        result pen.old pen.new desk.old desk.new }
{
    let earliest = number(u64::from(earliest));
    let latest = number(u64::from(latest));
    put_pieces(
        &[
            b"EVENT ".as_slice(),
            earliest.bytes(),
            b" ",
            latest.bytes(),
            b"\n",
        ],
        pen,
        desk,
    )
}

/// Puts the words of a demand that is out of range, with the junction's ID.
fn put_demand<D: Desk>(id: &[u8], value: &i128, pen: &mut Pen, desk: &mut D) -> Result<(), OutFault>
    requires { OnCert pen.old.to (IsTrue (D.ready desk.old)) }
    ensures { Puts D.files D.rest D.written D.printed D.target D.ready D.counts D.openings
        (codes "DEMAND " ++ (id.now ++ (codes " " ++ (signed_decimal value.now ++ codes "\n"))))
        result pen.old pen.new desk.old desk.new }
{
    let value = signed(value);
    put_pieces(
        &[b"DEMAND ".as_slice(), id, b" ", value.bytes(), b"\n"],
        pen,
        desk,
    )
}

/// Puts the words of a stop's cause.
fn put_cause<D: Desk>(
    project: &Project,
    cause: &StopCause,
    pen: &mut Pen,
    desk: &mut D,
) -> Result<(), OutFault>
    requires sound { IsSound project.now }
    requires ready { OnCert pen.old.to (IsTrue (D.ready desk.old)) }
    ensures { Puts D.files D.rest D.written D.printed D.target D.ready D.counts D.openings
        (words (cause_words project.now cause.now) ++ codes "\n")
        result pen.old pen.new desk.old desk.new }
{
    match cause {
        StopCause::NoCertificate {
            problem,
            side,
            junction,
            ..
        } => { put_failing(project, b"NOCERT ", *problem, *side, *junction, pen, desk) }
        StopCause::TankOpen { tank, lo, hi, .. } => {
            put_between(b"TANK ", tank_id(project, *tank), lo, hi, pen, desk)
        }
        StopCause::RuleOpen {
            rule,
            clause,
            lo,
            hi,
            ..
        } => { put_open_rule(project, *rule, *clause, lo, hi, pen, desk) }
        StopCause::ControlOpen {
            control,
            lo,
            hi,
            ..
        } => { put_open_control(*control, lo, hi, pen, desk) }
        StopCause::EventOpen {
            earliest,
            latest,
            ..
        } => { put_open_event(*earliest, *latest, pen, desk) }
        StopCause::RoundsSpent {
            problem,
            side,
            rounds,
            ..
        } => { put_rounds(project, *problem, *side, *rounds, pen, desk) }
        StopCause::Demand {
            junction,
            value,
            ..
        } => { put_demand(node_id(project, *junction as usize), value, pen, desk) }
    }
}

/// The period that a stop's cause names.
fn period_of(cause: &StopCause) -> u32
    ensures { result ≡ period_of cause.now }
{
    match cause {
        StopCause::NoCertificate { period, .. }
        | StopCause::TankOpen { period, .. }
        | StopCause::RuleOpen { period, .. }
        | StopCause::ControlOpen { period, .. }
        | StopCause::EventOpen { period, .. }
        | StopCause::RoundsSpent { period, .. }
        | StopCause::Demand { period, .. } => *period,
    }
}

/// Puts the last line of a stopped run: its period, when that begins, in seconds, and the cause. Its faults and its
/// needs are those of `Pen::put`.
pub fn put_stop<D: Desk>(
    project: &Project,
    time: u32,
    cause: &StopCause,
    pen: &mut Pen,
    desk: &mut D,
) -> Result<(), OutFault>
    requires sound { IsSound project.now }
    requires ready { OnCert pen.old.to (IsTrue (D.ready desk.old)) }
    ensures { Puts D.files D.rest D.written D.printed D.target D.ready D.counts D.openings
        (stop_line project.now time cause.now)
        result pen.old pen.new desk.old desk.new }
{
    let period = number(u64::from(period_of(cause)));
    let time = clock(u64::from(time));
    put_pieces(
        &[
            b"STOP period ".as_slice(),
            period.bytes(),
            b" time ",
            time.bytes(),
            b" ",
        ],
        pen,
        desk,
    )?;
    put_cause(project, cause, pen, desk)
}
