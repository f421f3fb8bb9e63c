//! The lines of the start and of the end of a period.

ghost use Rattle.std.specs.Prelude.{◌≡◌, ◌+◌, ◌≤◌, ◌^◌, length, take, drop, IsTrue, None};
ghost use Rattle.hyd_io.specs.Output.{OnCert};
ghost use Rattle.hyd_io.specs.TextPutIn.{Puts};
ghost use Rattle.hyd_net.specs.Sound.{IsSound};
ghost use Rattle.hyd_report.specs.EventTextsAndChangesByRules.{is_by_rule, before_rules};
ghost use Rattle.hyd_open_report.specs.OpenPeriodLines.{open_texts, open_start_lines, opened_lines, open_end_lines};

use hyd_io::{Desk, OutFault, Pen};
use hyd_net::Project;
use hyd_open_lines::{OpenTime, put_open_changes, put_open_events};
use hyd_period_facts::Facts;
use hyd_spec::{Change, Source};
use hyd_spec_certificates::Event;

/// Whether a rule made the change.
fn is_by_rule(change: &Change) -> bool
    ensures { result ≡ is_by_rule change.now }
{
    match change.source {
        Source::Control(_) => false,
        Source::Rule(_) => true,
    }
}

/// How many changes stand before the first one by a rule.
fn before_rules(changes: &[Change]) -> usize
    ensures value { result ≡ before_rules changes.now }
    ensures within { result ≤ length changes.now }
{
    for i in 0..changes.len() {
        if is_by_rule(&changes[i]) {
            return i;
        }
    }
    changes.len()
}

/// The changes before the first one by a rule.
fn by_controls(facts: &Facts) -> &[Change]
    ensures { result.now ≡ take (before_rules facts.now.changes.list) facts.now.changes.list }
{
    let changes = facts.changes.rows();
    &changes[..before_rules(changes)]
}

/// The changes from the first one by a rule on.
fn by_rules(facts: &Facts) -> &[Change]
    ensures { result.now ≡ drop (before_rules facts.now.changes.list) facts.now.changes.list }
{
    let changes = facts.changes.rows();
    &changes[before_rules(changes)..]
}

/// When a period ends first, in seconds.
fn first_end(facts: &Facts) -> u64
    ensures value { result ≡ facts.now.time + facts.now.length }
    ensures small { result ≤ 2 ^ 33 }
{
    u64::from(facts.time) + u64::from(facts.length)
}

/// Puts the lines of changes by controls at a start that is open by so many seconds. Its faults and its needs are those
/// of `Pen::put`: after a fault, what went out is a front of what was put in before and of these lines. It takes no
/// memory.
pub fn put_start<D: Desk>(
    project: &Project,
    facts: &Facts,
    late: u32,
    pen: &mut Pen,
    desk: &mut D,
) -> Result<(), OutFault>
    requires sound { IsSound project.now }
    requires ready { OnCert pen.old.to (IsTrue (D.ready desk.old)) }
    ensures { Puts D.files D.rest D.written D.printed D.target D.ready D.counts D.openings
        (open_texts project.now (open_start_lines facts.now late))
        result pen.old pen.new desk.old desk.new }
{
    // A pen that has a fault answers it also where there are no lines.
    pen.put(desk, b"")?;
    let at = OpenTime {
        first: u64::from(facts.time),
        late,
    };
    put_open_changes(project, at, by_controls(facts), pen, desk)
}

/// Puts the lines of events at an end that is open by so many seconds.
pub(crate) fn put_opened<D: Desk>(
    project: &Project,
    facts: &Facts,
    late: u32,
    events: &[Event],
    pen: &mut Pen,
    desk: &mut D,
) -> Result<(), OutFault>
    requires sound { IsSound project.now }
    requires ready { OnCert pen.old.to (IsTrue (D.ready desk.old)) }
    requires unbroken { pen.old.fault ≡ None }
    ensures { Puts D.files D.rest D.written D.printed D.target D.ready D.counts D.openings
        (open_texts project.now (opened_lines facts.now late events.now))
        result pen.old pen.new desk.old desk.new }
{
    let at = OpenTime {
        first: first_end(facts),
        late,
    };
    put_open_events(project, at, events, pen, desk)
}

/// Puts the lines of events and of changes by rules at an end that is known to the second, and those of events at one
/// that is open by so many seconds. Its faults and its needs are those of `put_start`. It takes no memory.
pub fn put_end<D: Desk>(
    project: &Project,
    facts: &Facts,
    late: u32,
    events: &[Event],
    pen: &mut Pen,
    desk: &mut D,
) -> Result<(), OutFault>
    requires sound { IsSound project.now }
    requires ready { OnCert pen.old.to (IsTrue (D.ready desk.old)) }
    requires unbroken { pen.old.fault ≡ None }
    ensures { Puts D.files D.rest D.written D.printed D.target D.ready D.counts D.openings
        (open_texts project.now (open_end_lines facts.now late events.now))
        result pen.old pen.new desk.old desk.new }
{
    let known = OpenTime {
        first: first_end(facts),
        late: 0,
    };
    put_open_events(project, known, facts.events.as_slice(), pen, desk)?;
    put_open_changes(project, known, by_rules(facts), pen, desk)?;
    put_opened(project, facts, late, events, pen, desk)
}
