//! The lines of controls and rules that changed a link.

ghost use Rattle.std.specs.Prelude.{◌≡◌, ◌≤◌, ◌^◌, map, IsTrue, None};
ghost use Rattle.hyd_io.specs.Output.{OnCert};
ghost use Rattle.hyd_io.specs.TextPutIn.{Puts};
ghost use Rattle.hyd_net.specs.Sound.{IsSound};
ghost use Rattle.hyd_spec.specs.Lists.{joined};
ghost use Rattle.hyd_spec_reports.specs.Report.{change_line};
ghost use Rattle.hyd_spec_reports.specs.ReportLine.{ControlLine, RuleLine, line_text};
ghost use Rattle.hyd_spec_open_reports.specs.OpenReportLine.{open_line_text};

use crate::ids::{link_id, rule_id};
use crate::line_pieces::put_pieces;
use crate::numbers_times_and_settings::{clock, number};
use crate::open_time::{OpenTime, last_of};
use crate::states::state_text;
use hyd_io::{Desk, OutFault, Pen};
use hyd_net::{LinkState, Project};
use hyd_spec::{Change, Source};

/// Puts the line of a control, by its number, that gave a link a state at a time.
fn put_control<D: Desk>(
    project: &Project,
    at: OpenTime,
    control: u32,
    link: u32,
    to: &LinkState,
    pen: &mut Pen,
    desk: &mut D,
) -> Result<(), OutFault>
    requires sound { IsSound project.now }
    requires first { at.first ≤ 2 ^ 33 }
    requires ready { OnCert pen.old.to (IsTrue (D.ready desk.old)) }
    ensures { Puts D.files D.rest D.written D.printed D.target D.ready D.counts D.openings
        (open_line_text project.now (record { line = ControlLine at.first control link to.now; late = at.late }))
        result pen.old pen.new desk.old desk.new }
{
    let control = number(u64::from(control) + 1);
    let first = clock(at.first);
    let last = last_of(at);
    let state = state_text(to);
    put_pieces(
        &[
            b"CONTROL ".as_slice(),
            control.bytes(),
            b" ",
            first.bytes(),
            last.bytes(),
            b" LINK ",
            link_id(project, link),
            b" ",
            state.bytes(),
            b"\n",
        ],
        pen,
        desk,
    )
}

/// Puts the line of a rule, by its number, that gave a link a state at a second: rules end a period at a known one.
fn put_rule<D: Desk>(
    project: &Project,
    time: u64,
    rule: u32,
    link: u32,
    to: &LinkState,
    pen: &mut Pen,
    desk: &mut D,
) -> Result<(), OutFault>
    requires sound { IsSound project.now }
    requires ready { OnCert pen.old.to (IsTrue (D.ready desk.old)) }
    ensures { Puts D.files D.rest D.written D.printed D.target D.ready D.counts D.openings
        (line_text project.now (RuleLine time rule link to.now)) result pen.old pen.new desk.old desk.new }
{
    let time = clock(time);
    let state = state_text(to);
    put_pieces(
        &[
            b"RULE ".as_slice(),
            rule_id(project, rule),
            b" ",
            time.bytes(),
            b" LINK ",
            link_id(project, link),
            b" ",
            state.bytes(),
            b"\n",
        ],
        pen,
        desk,
    )
}

/// Puts the line of a change at a time.
fn put_change<D: Desk>(
    project: &Project,
    at: OpenTime,
    change: &Change,
    pen: &mut Pen,
    desk: &mut D,
) -> Result<(), OutFault>
    requires sound { IsSound project.now }
    requires first { at.first ≤ 2 ^ 33 }
    requires ready { OnCert pen.old.to (IsTrue (D.ready desk.old)) }
    ensures { Puts D.files D.rest D.written D.printed D.target D.ready D.counts D.openings
        (open_line_text project.now (record { line = change_line at.first change.now; late = at.late }))
        result pen.old pen.new desk.old desk.new }
{
    match change.source {
        Source::Control(control) => {
            put_control(project, at, control, change.link, &change.to, pen, desk)
        }
        Source::Rule(rule) => {
            put_rule(project, at.first, rule, change.link, &change.to, pen, desk)
        }
    }
}

/// Puts the lines of changes at a time, one for each in order: that of a control with both seconds where the time is
/// open, that of a rule with the first one alone, since rules end a period at a known second. Its faults and its needs
/// are those of `Pen::put`, of a pen without a fault. It takes no memory.
pub fn put_open_changes<D: Desk>(
    project: &Project,
    at: OpenTime,
    changes: &[Change],
    pen: &mut Pen,
    desk: &mut D,
) -> Result<(), OutFault>
    requires sound { IsSound project.now }
    requires first { at.first ≤ 2 ^ 33 }
    requires ready { OnCert pen.old.to (IsTrue (D.ready desk.old)) }
    requires unbroken { pen.old.fault ≡ None }
    ensures { Puts D.files D.rest D.written D.printed D.target D.ready D.counts D.openings
        (joined (map (λ change. open_line_text project.now
        (record { line = change_line at.first change; late = at.late })) changes.now))
        result pen.old pen.new desk.old desk.new }
{
    for i in 0..changes.len() {
        put_change(project, at, &changes[i], pen, desk)?;
    }
    Ok(())
}
