//! Ways in which a period ends whose start or end lies between two seconds, and what may be open.
#![tactic(auto)]

ghost use Rattle.std.specs.Prelude.{◌≡◌, ◌^◌, ◌≤◌};
ghost use Rattle.hyd_spec_open_ends.specs.OpenEnds as ends;
ghost use Rattle.hyd_open_ends.specs.Ways.{way_of};

use hyd_open_stocks::Lengths;
use hyd_period_length::RuleOpen;

/// How a period ends whose start may be open by some seconds.
#[derive(Clone, Copy, Drop)]
pub enum Way {
    /// By the rules, so many seconds after its first start.
    ByRules(u32),
    /// At the next instant of the clock, so many seconds after its first start.
    ByInstant(u32),
    /// By what is watched, between two lengths counted from its own start.
    ByWatched { earliest: u32, latest: u32 },
}

/// What is open first where a period ends in none of these ways.
#[derive(Clone, Copy, Drop)]
pub enum Open {
    /// A rule.
    Rule(RuleOpen),
    /// The end itself, between two seconds counted from the period's first start.
    Event { earliest: u32, latest: u32 },
}

/// The shortest and the longest that a period lasts that ends so, where its start is open by `late` seconds.
pub fn lengths_of(way: Way, late: u32) -> Lengths
    ensures shortest { result.shortest ≡ ends.shortest_length late (way_of way) }
    ensures longest { result.longest ≡ ends.longest_length (way_of way) }
{
    match way {
        Way::ByRules(seconds) => Lengths {
            shortest: seconds.saturating_sub(late),
            longest: seconds,
        },
        Way::ByInstant(seconds) => Lengths {
            shortest: seconds.saturating_sub(late),
            longest: seconds,
        },
        Way::ByWatched { earliest, latest } => Lengths {
            shortest: earliest,
            longest: latest,
        },
    }
}

/// When it ends first, in seconds after its first start.
pub fn first_end(way: Way) -> u32
    ensures { result ≡ ends.first_end (way_of way) }
{
    match way {
        Way::ByRules(seconds) => seconds,
        Way::ByInstant(seconds) => seconds,
        Way::ByWatched { earliest, .. } => earliest,
    }
}

/// How many seconds its end is open, where its start is open by `late` seconds.
pub fn late_at_end(way: Way, late: u32) -> u32
    requires late { late ≤ 10 ^ 8 }
    requires longest { ends.longest_length (way_of way) ≤ 10 ^ 8 }
    ensures { result ≡ ends.late_at_end late (way_of way) }
{
    match way {
        Way::ByRules(_) => 0,
        Way::ByInstant(_) => 0,
        Way::ByWatched { earliest, latest } => (late + latest).saturating_sub(earliest),
    }
}
