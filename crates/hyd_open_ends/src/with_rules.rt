//! The end of a period in which the rules matter in time.
#![tactic(auto)]

ghost use Rattle.std.specs.Prelude.{ℕ, ◌≡◌, ◌^◌, ◌≤◌, List, IfOk, IfErr};
ghost use Rattle.hyd_spec.specs.ProgramTypes.{Project, LinkState};
ghost use Rattle.hyd_spec.specs.declared.Change.{Change};
ghost use Rattle.hyd_spec_certificates.specs.PeriodNetwork.{Grid};
ghost use Rattle.hyd_spec_certificates.specs.RecordAndStanding.{Record};
ghost use Rattle.hyd_spec_open_ends.specs.OpenStandings.{OpenStanding};
ghost use Rattle.hyd_spec_open_ends.specs.OpenEnds as ends;
ghost use Rattle.hyd_open_rules.specs.Matters.{IsFirstMatter, seconds_of};
ghost use Rattle.hyd_open_ends.specs.Ways.{way_of, end_of};
ghost use Rattle.hyd_open_ends.specs.FoundEnds.{AreOf, EndsByRules};

use crate::seconds_tried::last_end;
use crate::ways::{Open, Way};
use hyd_open_rules::Matter;
use hyd_open_watches::Seconds;

/// The end of a period in which the rules matter first, up to the last second at which they are tried: by them, where
/// each start lies before and nothing that is watched comes sooner, unless one of them is open there.
pub(crate) fn with_rules(late: u32, seconds: Seconds, matter: Matter) -> Result<Way, Open>
    requires late { late ≤ 10 ^ 8 }
    requires cap { seconds.cap ≤ 10 ^ 8 }
    requires in_time { seconds.earliest ≤ seconds.cap }
    requires late_in_time { seconds.latest ≤ seconds.cap }
    ensures ends { IfOk result (λ way. (project : Project) (grid : Grid) (standing : OpenStanding) (row : Record)
        (slack last : ℕ) (before after : List Change) (links : List LinkState)
        → AreOf project grid standing row late slack seconds last
        → IsFirstMatter project grid standing row last before after links matter
        → EndsByRules project grid standing row before after links (way_of way)) }
    ensures in_time { IfOk result (λ way. ends.late_at_end late (way_of way) ≡ 0) }
    ensures longest { IfOk result (λ way. ends.longest_length (way_of way) ≤ seconds.cap) }
    ensures open { IfErr result (λ found. (project : Project) (grid : Grid) (standing : OpenStanding) (row : Record)
        (slack last : ℕ) (before after : List Change) (links : List LinkState)
        → AreOf project grid standing row late slack seconds last
        → IsFirstMatter project grid standing row last before after links matter
        → ends.IsFirstOpen project grid standing row slack (end_of found)) }
{
    match matter {
        Matter::Open { found, .. } => Err(Open::Rule(found)),
        Matter::Acts(at) => {
            if late < at && at <= seconds.earliest {
                Ok(Way::ByRules(at))
            } else {
                Err(Open::Event {
                    earliest: at.min(seconds.earliest),
                    latest: last_end(late, seconds),
                })
            }
        }
    }
}
