//! The end of a period in which no rule matters in time.
#![tactic(auto)]

ghost use Rattle.std.specs.Prelude.{ℕ, ◌≡◌, ◌^◌, ◌≤◌, IfOk, IfErr};
ghost use Rattle.hyd_spec.specs.ProgramTypes.{Project};
ghost use Rattle.hyd_spec_certificates.specs.PeriodNetwork.{Grid};
ghost use Rattle.hyd_spec_certificates.specs.RecordAndStanding.{Record};
ghost use Rattle.hyd_spec_open_ends.specs.OpenStandings.{OpenStanding};
ghost use Rattle.hyd_spec_open_ends.specs.OpenEnds as ends;
ghost use Rattle.hyd_spec_open_ends.specs.RulesOverLengths.{NoRuleMattersUpTo};
ghost use Rattle.hyd_open_ends.specs.Ways.{way_of, end_of};
ghost use Rattle.hyd_open_ends.specs.FoundEnds.{AreOf, IsQuiet};

use crate::seconds_tried::{is_narrow, last_end};
use crate::ways::{Open, Way};
use hyd_open_watches::Seconds;

/// The end of a period in which no rule matters up to the last second at which they are tried: the next instant of the
/// clock, or what is watched, where that is narrow.
pub(crate) fn without_rules(late: u32, slack: u32, seconds: Seconds) -> Result<Way, Open>
    requires late { late ≤ 10 ^ 8 }
    requires cap { seconds.cap ≤ 10 ^ 8 }
    requires in_time { seconds.earliest ≤ seconds.cap }
    requires late_in_time { seconds.latest ≤ seconds.cap }
    ensures ends { IfOk result (λ way. (project : Project) (grid : Grid) (standing : OpenStanding) (row : Record)
        (last : ℕ) → AreOf project grid standing row late slack seconds last
        → NoRuleMattersUpTo project grid standing row last → ends.EndsIn project grid standing row (way_of way)) }
    ensures within { IfOk result (λ way. ends.late_at_end late (way_of way) ≤ slack) }
    ensures longest { IfOk result (λ way. ends.longest_length (way_of way) ≤ seconds.cap) }
    ensures quiet { IfOk result (λ way. IsQuiet (way_of way)) }
    ensures open { IfErr result (λ found. (project : Project) (grid : Grid) (standing : OpenStanding) (row : Record)
        (last : ℕ) → AreOf project grid standing row late slack seconds last
        → NoRuleMattersUpTo project grid standing row last
        → ends.IsFirstOpen project grid standing row slack (end_of found)) }
{
    if seconds.earliest == seconds.cap {
        return Ok(Way::ByInstant(seconds.cap));
    }
    if is_narrow(late, slack, seconds) {
        return Ok(Way::ByWatched {
            earliest: seconds.earliest,
            latest: seconds.latest,
        });
    }
    Err(Open::Event {
        earliest: seconds.earliest,
        latest: last_end(late, seconds),
    })
}
