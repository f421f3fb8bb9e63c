//! The lines of events.

ghost use Rattle.std.specs.Prelude.{◌≡◌, map, IsTrue, None};
ghost use Rattle.hyd_spec.specs.Lists.{joined};
ghost use Rattle.hyd_io.specs.Output.{OnCert};
ghost use Rattle.hyd_net.specs.Sound.{IsSound};
ghost use Rattle.hyd_spec_reports.specs.ReportLine.{line_text};
ghost use Rattle.hyd_spec_reports.specs.Report.{event_line};
ghost use Rattle.hyd_io.specs.TextPutIn.{Puts};
ghost use Rattle.hyd_report.specs.EventTextsAndChangesByRules.{event_text};

use crate::ids::tank_id;
use crate::line_pieces::put_pieces;
use crate::numbers_times_and_settings::{clock, number};
use crate::short_text::Text;
use hyd_io::{Desk, OutFault, Pen};
use hyd_net::Project;
use hyd_spec_certificates::{Event, EventKind};

/// What a tank reached.
fn event_text(what: EventKind) -> Text
    ensures { result ≡ event_text what }
{
    let mut text = Text::new();
    match what {
        EventKind::Full => text.push(b"FULL"),
        EventKind::Empty => text.push(b"EMPTY"),
        EventKind::Control(control) => {
            text.push(b"CONTROL ");
            text.push(number(u64::from(control) + 1).bytes());
        }
    }
    text
}

/// Puts the line of an event at a time in seconds.
fn put_event<D: Desk>(
    project: &Project,
    time: u64,
    event: &Event,
    pen: &mut Pen,
    desk: &mut D,
) -> Result<(), OutFault>
    requires sound { IsSound project.now }
    requires ready { OnCert pen.old.to (IsTrue (D.ready desk.old)) }
    ensures { Puts D.files D.rest D.written D.printed D.target D.ready D.counts D.openings
        (line_text project.now (event_line time event.now)) result pen.old pen.new desk.old desk.new }
{
    let time = clock(time);
    let what = event_text(event.what);
    put_pieces(
        &[
            b"EVENT ".as_slice(),
            time.bytes(),
            b" TANK ",
            tank_id(project, event.tank),
            b" ",
            what.bytes(),
            b"\n",
        ],
        pen,
        desk,
    )
}

/// Puts the lines of events at a time in seconds.
pub(crate) fn put_events<D: Desk>(
    project: &Project,
    time: u64,
    events: &[Event],
    pen: &mut Pen,
    desk: &mut D,
) -> Result<(), OutFault>
    requires sound { IsSound project.now }
    requires ready { OnCert pen.old.to (IsTrue (D.ready desk.old)) }
    requires unbroken { pen.old.fault ≡ None }
    ensures { Puts D.files D.rest D.written D.printed D.target D.ready D.counts D.openings
        (joined (map (λ event. line_text project.now (event_line time event)) events.now))
        result pen.old pen.new desk.old desk.new }
{
    for i in 0..events.len() {
        put_event(project, time, &events[i], pen, desk)?;
    }
    Ok(())
}
