//! The lines of tanks.

ghost use Rattle.std.specs.Prelude.{◌≡◌, ◌<◌, ◌++◌, codes, length, slice_get, All, IsTrue};
ghost use Rattle.std.specs.Prelude.{IfSome, None};
ghost use Rattle.hyd_io.specs.Output.{OnCert};
ghost use Rattle.hyd_net.specs.Sound.{IsSound};
ghost use Rattle.hyd_spec.specs.Lists.{map_from};
ghost use Rattle.hyd_spec_certificates.specs.SpansAsIntervals.{levels_of, flows_of};
ghost use Rattle.hyd_spec_certificates.specs.Interval.{Interval};
ghost use Rattle.hyd_spec_reports.specs.ReportLine.{TankLine, line_text, tank_word};
ghost use Rattle.hyd_io.specs.TextPutIn.{Puts};
ghost use Rattle.hyd_report.specs.PrintedIntervals.{ArePrinted, IsSmall};
ghost use Rattle.hyd_report.specs.NodeAndLinkLines.{texts, tank_at, tank_line};

use crate::ids::tank_id;
use crate::line_pieces::put_pieces;
use crate::printed_intervals::{Ends, print_flows, print_levels, print_tank_heads};
use crate::short_text::Text;
use crate::states::tank_word;
use hyd_io::{Desk, OutFault, Pen};
use hyd_net::Project;
use hyd_num::Span;
use hyd_spec::TankState;
use hyd_spec_certificates::LevelSpan;

/// What the line of a tank ends with.
fn state_end(state: &TankState) -> Text
    ensures { result ≡ codes " state " ++ (tank_word state.now ++ codes "\n") }
{
    let mut text = Text::new();
    text.push(b" state ");
    text.push(tank_word(state));
    text.push(b"\n");
    text
}

/// Puts the line of a tank by its printed numbers.
fn put_parts<'x, D: Desk>(
    project: &'x Project,
    tank: u32,
    head: &'x Ends,
    level: &'x Ends,
    inflow: &'x Ends,
    state: TankState,
    pen: &mut Pen,
    desk: &mut D,
) -> Result<(), OutFault>
    requires sound { IsSound project.now }
    requires ready { OnCert pen.old.to (IsTrue (D.ready desk.old)) }
    ensures { (h l i : Interval) → ArePrinted h head.now → ArePrinted l level.now → ArePrinted i inflow.now
        → Puts D.files D.rest D.written D.printed D.target D.ready D.counts D.openings
        (line_text project.now (TankLine tank h l i state)) result pen.old pen.new desk.old desk.new }
{
    let last = state_end(&state);
    put_pieces(
        &[
            b"TANK ".as_slice(),
            tank_id(project, tank),
            b" head ",
            head.low.bytes(),
            b" ",
            head.high.bytes(),
            b" level ",
            level.low.bytes(),
            b" ",
            level.high.bytes(),
            b" inflow ",
            inflow.low.bytes(),
            b" ",
            inflow.high.bytes(),
            last.bytes(),
        ],
        pen,
        desk,
    )
}

/// The elevation of the bottom of a tank.
fn bottom_of(project: &Project, tank: u32) -> i64
    requires { tank < length project.now.tanks.list }
    ensures { IfSome (slice_get project.now.tanks.list tank) (λ t. result ≡ t.bottom) }
{
    project.tanks.as_slice()[tank as usize].bottom
}

/// Puts the line of a tank at its levels, with its inflow and its state.
fn put_tank<D: Desk>(
    project: &Project,
    tank: u32,
    levels: &LevelSpan,
    inflow: &Span,
    state: &TankState,
    pen: &mut Pen,
    desk: &mut D,
) -> Result<(), OutFault>
    requires sound { IsSound project.now }
    requires in_range { tank < length project.now.tanks.list }
    requires small { IsSmall inflow.now }
    requires ready { OnCert pen.old.to (IsTrue (D.ready desk.old)) }
    ensures { IfSome (slice_get project.now.tanks.list tank) (λ here.
        Puts D.files D.rest D.written D.printed D.target D.ready D.counts D.openings
        (line_text project.now (tank_at project.now tank here (levels_of levels.now) (flows_of inflow.now) state.now))
        result pen.old pen.new desk.old desk.new) }
{
    let head = print_tank_heads(project, levels, bottom_of(project, tank));
    let level = print_levels(project, levels);
    let inflow = print_flows(project, inflow);
    put_parts(project, tank, &head, &level, &inflow, *state, pen, desk)
}

/// Puts the lines of all tanks, each at its levels, in head ticks above its bottom, with its inflow, in flow ticks, and
/// its state. Its faults and its needs are those of `Pen::put`: after a fault, what went out is a front of what was put
/// in before and of these lines. It takes no memory.
pub fn put_tanks<D: Desk>(
    project: &Project,
    levels: &[LevelSpan],
    inflows: &[Span],
    states: &[TankState],
    pen: &mut Pen,
    desk: &mut D,
) -> Result<(), OutFault>
    requires sound { IsSound project.now }
    requires levels { length levels.now ≡ length project.now.tanks.list }
    requires inflows { length inflows.now ≡ length project.now.tanks.list }
    requires states { length states.now ≡ length project.now.tanks.list }
    requires small { All IsSmall inflows.now }
    requires ready { OnCert pen.old.to (IsTrue (D.ready desk.old)) }
    requires unbroken { pen.old.fault ≡ None }
    ensures { Puts D.files D.rest D.written D.printed D.target D.ready D.counts D.openings
        (texts project.now (map_from (tank_line project.now levels.now inflows.now states.now) 0
        project.now.tanks.list))
        result pen.old pen.new desk.old desk.new }
{
    for k in 0..project.tanks.len() {
        put_tank(
            project,
            k as u32,
            &levels[k],
            &inflows[k],
            &states[k],
            pen,
            desk,
        )?;
    }
    Ok(())
}
