//! The period that is due in a run for a spread, and the standing behind it.
#![tactic(auto)]

ghost use Rattle.std.specs.Prelude.{◌≡◌, true, false, IfErr, OnOk, OnErr};
ghost use Rattle.hyd_net.specs.Sound.{IsSound};
ghost use Rattle.hyd_spec_spread.specs.Spreads.{IsSpread};
ghost use Rattle.hyd_spec_spread_reports.specs.TextsOfSpreadReports.{says_nothing};
ghost use Rattle.hyd_spec_spread_stops.specs.StopsOfSpreads.{StopsOver};
ghost use Rattle.hyd_open_certificates.specs.OpenRowView.{open_header_of};
ghost use Rattle.hyd_period_facts.specs.ReservedMemory.{HasRoom};
ghost use Rattle.hyd_open_period_end.specs.EndOfOpenPeriod.{HasRoom as HasCloseRoom};
ghost use Rattle.hyd_open_sim_start.specs.StandingsOfOpenRuns.{IsStanding, known_for, standing_for};
ghost use Rattle.hyd_open_sim.specs.RunView.{header_for};
ghost use Rattle.hyd_spread_networks.specs.NetsOfSpreads.{AreNetsOf};
ghost use Rattle.hyd_spread_stops.specs.StuckOverSpreads.{NamesStuckOver};
ghost use Rattle.hyd_spread_sim.specs.DuePeriods.{IsSearchFor};
ghost use Rattle.hyd_spread_sim.specs.SpreadSteps.{IsAdvancedOver};

use crate::due_period::do_period;
use crate::moving_on::go_on;
use hyd_finders::Finder;
use hyd_net::Project;
use hyd_open_certificates::OpenRow;
use hyd_open_period_end::OpenPeriodEnd;
use hyd_open_sim::OpenSettings;
use hyd_open_sim_start::Standing;
use hyd_period_facts::Facts;
use hyd_spec_certificates::StopCause;
use hyd_spread_networks::SpreadNets;
use hyd_spread_vectors::SpreadSearch;

/// Does the period that is due at a standing, and moves on behind it. Fails with the cause that stops the run there;
/// the standing then stays.
pub(crate) fn advance<F: Finder, G: Finder>(
    project: &Project,
    settings: OpenSettings,
    standing: &mut Standing,
    nets: &mut SpreadNets,
    above: &mut F,
    below: &mut G,
    search: &mut SpreadSearch,
    found: &mut OpenRow,
    facts: &mut Facts,
    close: &mut OpenPeriodEnd,
) -> Result<(), StopCause>
    requires sound { IsSound project.now }
    requires spread { IsSpread project.now nets.old.spread }
    requires standing { IsStanding project.now standing.old }
    requires unfinished { standing.old.finished ≡ false }
    requires of { AreNetsOf project.now nets.old }
    requires search { IsSearchFor project.now settings.search.rounds search.old }
    requires header { open_header_of found.old ≡ header_for project.now }
    requires facts { HasRoom project.now facts.old }
    requires close { HasCloseRoom project.now close.old }
    requires told { says_nothing nets.old.spread ≡ true → G.told below.old ≡ F.told above.old }
    ensures advanced { OnOk result (IsAdvancedOver (record { above = F.told above.old; below = G.told below.old })
        project.now settings (standing_for standing.old) nets.new found.new facts.new close.new.first close.new.late
        close.new.opened.list (standing_for standing.new)) }
    ensures stops { IfErr result (StopsOver project.now nets.old.spread (standing_for standing.old) settings.slack
        settings.search.rounds) }
    ensures stuck { IfErr result (NamesStuckOver project.now nets.old.spread (known_for standing.old)
        settings.search.rounds) }
    ensures stays { OnErr result (standing.new ≡ standing.old) }
    ensures standing { IsStanding project.now standing.new }
    ensures of { AreNetsOf project.now nets.new }
    ensures spread { nets.new.spread ≡ nets.old.spread }
    ensures search { IsSearchFor project.now settings.search.rounds search.new }
    ensures header { open_header_of found.new ≡ open_header_of found.old }
    ensures facts { HasRoom project.now facts.new }
    ensures close { HasCloseRoom project.now close.new }
    ensures told_above { F.told above.new ≡ F.told above.old }
    ensures told_below { G.told below.new ≡ G.told below.old }
{
    do_period(
        project, settings, standing, nets, above, below, search, found, facts, close,
    )?;
    go_on(standing, project, nets, found, facts, close);
    Ok(())
}
