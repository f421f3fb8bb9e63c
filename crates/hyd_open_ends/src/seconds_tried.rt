//! Up to which second the rules are tried.
#![tactic(auto)]

ghost use Rattle.std.specs.Prelude.{◌≡◌, ◌^◌, ◌≤◌, ◌↔◌, IsTrue};
ghost use Rattle.hyd_spec_open_ends.specs.OpenEnds as ends;
ghost use Rattle.hyd_open_ends.specs.FoundEnds.{IsNarrow, IsLastTried};

use hyd_open_watches::Seconds;

/// Whether the end by what is watched comes before the next instant of the clock from each start, and is open by at
/// most the slack.
pub(crate) fn is_narrow(late: u32, slack: u32, seconds: Seconds) -> bool
    requires late { late ≤ 10 ^ 8 }
    requires cap { seconds.cap ≤ 10 ^ 8 }
    requires in_time { seconds.earliest ≤ seconds.cap }
    requires late_in_time { seconds.latest ≤ seconds.cap }
    ensures { IsTrue result ↔ IsNarrow late slack seconds }
{
    let last = late + seconds.latest;
    last < seconds.cap && last.saturating_sub(seconds.earliest) <= slack
}

/// The last second after the first start at which the rules may matter: the last by which the end by what is watched
/// comes, where that is narrow, else the first.
pub(crate) fn last_tried(late: u32, slack: u32, seconds: Seconds) -> u32
    requires late { late ≤ 10 ^ 8 }
    requires cap { seconds.cap ≤ 10 ^ 8 }
    requires in_time { seconds.earliest ≤ seconds.cap }
    requires late_in_time { seconds.latest ≤ seconds.cap }
    ensures last { IsLastTried late slack seconds result }
    ensures within { result ≤ seconds.cap }
{
    if is_narrow(late, slack, seconds) {
        late + seconds.latest
    } else {
        seconds.earliest
    }
}

/// The second after the first start by which a period has ended in each history.
pub(crate) fn last_end(late: u32, seconds: Seconds) -> u32
    requires late { late ≤ 10 ^ 8 }
    requires cap { seconds.cap ≤ 10 ^ 8 }
    requires late_in_time { seconds.latest ≤ seconds.cap }
    ensures { result ≡ ends.last_end late seconds.latest seconds.cap }
{
    (late + seconds.latest).min(seconds.cap)
}
