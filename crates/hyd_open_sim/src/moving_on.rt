//! The standing behind a period.
#![tactic(auto)]

ghost use Rattle.std.specs.Prelude.{◌≡◌, false};
ghost use Rattle.hyd_net.specs.Sound.{IsSound};
ghost use Rattle.hyd_open_period_end.specs.EndOfOpenPeriod.{HasRoom};
ghost use Rattle.hyd_open_sim_start.specs.StandingsOfOpenRuns.{IsStanding, standing_for};
ghost use Rattle.hyd_open_sim.specs.EndedPeriods.{CanGoOn, next_standing};

use hyd_net::Project;
use hyd_open_period_end::OpenPeriodEnd;
use hyd_open_sim_start::Standing;

/// Moves on behind a period that was done, to the standing that its end leaves. When it ended and what happened there
/// stay.
pub fn move_on(standing: &mut Standing, project: &Project, close: &mut OpenPeriodEnd)
    requires sound { IsSound project.now }
    requires standing { IsStanding project.now standing.old }
    requires unfinished { standing.old.finished ≡ false }
    requires goes_on { CanGoOn project.now standing.old close.old }
    requires room { HasRoom project.now close.old }
    ensures standing { standing_for standing.new ≡ next_standing project.now standing.old close.old }
    ensures is { IsStanding project.now standing.new }
    ensures first { close.new.first ≡ close.old.first }
    ensures late { close.new.late ≡ close.old.late }
    ensures opened { close.new.opened ≡ close.old.opened }
    ensures close { HasRoom project.now close.new }
{
    if standing.time == project.times.duration {
        standing.finish();
        return;
    }
    standing.follow(
        close.first,
        close.late,
        &mut close.next,
        &mut close.commanded,
    );
}
