//! Clauses on the time and on the time of day.
#![tactic(auto)]

ghost use Rattle.std.specs.Prelude.{◌≡◌, ◌^◌, ◌<◌};
ghost use Rattle.hyd_spec.specs.PumpPatternsAndSimpleControls.{clock_at};
ghost use Rattle.hyd_spec.specs.Rules.{seconds_of, time_holds, has_come, has_come_today};

use hyd_net::{Project, Relation, Value};

// A day, in seconds.
const DAY: u32 = 86_400;

/// The time of day at a time of the run, in seconds.
pub(crate) fn clock_at(project: &Project, time: u32) -> u32
    ensures value { result ≡ clock_at project.now time }
    ensures day { result < 86400 }
{
    let passed = u64::from(time) + u64::from(project.times.start_clock);
    (passed % u64::from(DAY)) as u32
}

/// The seconds that a clause on a time compares with.
pub(crate) fn seconds_of(value: Value) -> u32
    requires { seconds_of value < 2 ^ 32 }
    ensures { result ≡ seconds_of value }
{
    match value {
        Value::Amount { span, .. } => span.lo.unsigned_abs() as u32,
        Value::Open | Value::Closed | Value::Active => 0,
    }
}

/// A clause on a time holds, where `came` says whether that time has come within the last rule step.
pub(crate) fn time_holds(relation: Relation, now: u32, at: u32, came: bool) -> bool
    ensures { result ≡ time_holds relation now at came }
{
    match relation {
        Relation::Less => now < at,
        Relation::AtMost => now <= at,
        Relation::More => now > at,
        Relation::AtLeast => now >= at,
        Relation::Equal => came,
        Relation::Unequal => !came,
    }
}

/// A time has come within the last rule step.
pub(crate) fn has_come(project: &Project, time: u32, at: u32) -> bool
    ensures { result ≡ has_come project.now time at }
{
    at <= time && u64::from(time) < u64::from(at) + u64::from(project.times.rule)
}

/// A time of day has come within the last rule step, modulo a day.
pub(crate) fn has_come_today(project: &Project, now: u32, at: u32) -> bool
    requires { now < 86400 }
    ensures { result ≡ has_come_today project.now now at }
{
    (now + DAY - at % DAY) % DAY < project.times.rule
}
