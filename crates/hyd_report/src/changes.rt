//! The lines of controls and rules that changed a link.

ghost use Rattle.std.specs.Prelude.{◌≡◌, ◌≤◌, length, map, IsTrue, None};
ghost use Rattle.hyd_spec.specs.Lists.{joined};
ghost use Rattle.hyd_spec_reports.specs.Report.{change_line};
ghost use Rattle.hyd_report.specs.EventTextsAndChangesByRules.{is_by_rule, before_rules};
ghost use Rattle.hyd_io.specs.Output.{OnCert};
ghost use Rattle.hyd_net.specs.Sound.{IsSound};
ghost use Rattle.hyd_spec_reports.specs.ReportLine.{ControlLine, RuleLine, line_text};
ghost use Rattle.hyd_io.specs.TextPutIn.{Puts};

use crate::ids::{link_id, rule_id};
use crate::line_pieces::put_pieces;
use crate::numbers_times_and_settings::{clock, number};
use crate::states::state_text;
use hyd_io::{Desk, OutFault, Pen};
use hyd_net::{LinkState, Project};
use hyd_spec::{Change, Source};

/// Puts the line of a control, by its number, that gave a link a state at a time in seconds.
fn put_control<D: Desk>(
    project: &Project,
    time: u64,
    control: u32,
    link: u32,
    to: &LinkState,
    pen: &mut Pen,
    desk: &mut D,
) -> Result<(), OutFault>
    requires sound { IsSound project.now }
    requires ready { OnCert pen.old.to (IsTrue (D.ready desk.old)) }
    ensures { Puts D.files D.rest D.written D.printed D.target D.ready D.counts D.openings
        (line_text project.now (ControlLine time control link to.now)) result pen.old pen.new desk.old desk.new }
{
    let control = number(u64::from(control) + 1);
    let time = clock(time);
    let state = state_text(to);
    put_pieces(
        &[
            b"CONTROL ".as_slice(),
            control.bytes(),
            b" ",
            time.bytes(),
            b" LINK ",
            link_id(project, link),
            b" ",
            state.bytes(),
            b"\n",
        ],
        pen,
        desk,
    )
}

/// Puts the line of a rule, by its number, that gave a link a state at a time in seconds.
fn put_rule<D: Desk>(
    project: &Project,
    time: u64,
    rule: u32,
    link: u32,
    to: &LinkState,
    pen: &mut Pen,
    desk: &mut D,
) -> Result<(), OutFault>
    requires sound { IsSound project.now }
    requires ready { OnCert pen.old.to (IsTrue (D.ready desk.old)) }
    ensures { Puts D.files D.rest D.written D.printed D.target D.ready D.counts D.openings
        (line_text project.now (RuleLine time rule link to.now)) result pen.old pen.new desk.old desk.new }
{
    let time = clock(time);
    let state = state_text(to);
    put_pieces(
        &[
            b"RULE ".as_slice(),
            rule_id(project, rule),
            b" ",
            time.bytes(),
            b" LINK ",
            link_id(project, link),
            b" ",
            state.bytes(),
            b"\n",
        ],
        pen,
        desk,
    )
}

/// Puts the line of a change at a time in seconds.
fn put_change<D: Desk>(
    project: &Project,
    time: u64,
    change: &Change,
    pen: &mut Pen,
    desk: &mut D,
) -> Result<(), OutFault>
    requires sound { IsSound project.now }
    requires ready { OnCert pen.old.to (IsTrue (D.ready desk.old)) }
    ensures { Puts D.files D.rest D.written D.printed D.target D.ready D.counts D.openings
        (line_text project.now (change_line time change.now)) result pen.old pen.new desk.old desk.new }
{
    match change.source {
        Source::Control(control) => {
            put_control(project, time, control, change.link, &change.to, pen, desk)
        }
        Source::Rule(rule) => put_rule(project, time, rule, change.link, &change.to, pen, desk),
    }
}

/// Puts the lines of changes at a time in seconds.
pub(crate) fn put_changes<D: Desk>(
    project: &Project,
    time: u64,
    changes: &[Change],
    pen: &mut Pen,
    desk: &mut D,
) -> Result<(), OutFault>
    requires sound { IsSound project.now }
    requires ready { OnCert pen.old.to (IsTrue (D.ready desk.old)) }
    requires unbroken { pen.old.fault ≡ None }
    ensures { Puts D.files D.rest D.written D.printed D.target D.ready D.counts D.openings
        (joined (map (λ change. line_text project.now (change_line time change)) changes.now))
        result pen.old pen.new desk.old desk.new }
{
    for i in 0..changes.len() {
        put_change(project, time, &changes[i], pen, desk)?;
    }
    Ok(())
}

/// Whether a rule made the change.
fn is_by_rule(change: &Change) -> bool
    ensures { result ≡ is_by_rule change.now }
{
    match change.source {
        Source::Control(_) => false,
        Source::Rule(_) => true,
    }
}

/// How many changes stand before the first one by a rule.
pub(crate) fn before_rules(changes: &[Change]) -> usize
    ensures value { result ≡ before_rules changes.now }
    ensures within { result ≤ length changes.now }
{
    for i in 0..changes.len() {
        if is_by_rule(&changes[i]) {
            return i;
        }
    }
    changes.len()
}
