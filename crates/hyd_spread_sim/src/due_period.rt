//! The period that is due in a run for a spread: started, tried, and done again with the tight vectors where others
//! don't do.
#![tactic(auto)]

ghost use Rattle.std.specs.Prelude.{◌≡◌, true, false, IfOk, IfErr, OnOk};
ghost use Rattle.hyd_net.specs.Sound.{IsSound};
ghost use Rattle.hyd_spec.specs.NodeNumbers.{tank_count};
ghost use Rattle.hyd_spec_spread.specs.Spreads.{IsSpread};
ghost use Rattle.hyd_spec_spread_reports.specs.TextsOfSpreadReports.{says_nothing};
ghost use Rattle.hyd_spec_spread_promises.specs.SharpOverSpreads.{AreTightOver, IsNarrowWithin};
ghost use Rattle.hyd_spec_spread_stops.specs.StopsOfSpreads.{StopsOver};
ghost use Rattle.hyd_cert.specs.RecordView.{row_of};
ghost use Rattle.hyd_open_certificates.specs.OpenRowView.{open_header_of};
ghost use Rattle.hyd_period_facts.specs.ReservedMemory.{HasRoom};
ghost use Rattle.hyd_open_period_end.specs.EndOfOpenPeriod.{HasRoom as HasCloseRoom};
ghost use Rattle.hyd_open_sim_start.specs.StandingsOfOpenRuns.{IsStanding, known_for, standing_for};
ghost use Rattle.hyd_open_sim.specs.EndedPeriods.{next_standing};
ghost use Rattle.hyd_open_sim.specs.RunView.{header_for};
ghost use Rattle.hyd_sim.specs.NarrowRecordsAndStops.{SaysNone};
ghost use Rattle.hyd_spread_networks.specs.NetsOfSpreads.{AreNetsOf, pair_of};
ghost use Rattle.hyd_spread_start.specs.StartsOver.{IsStartedOver};
ghost use Rattle.hyd_spread_stops.specs.StuckOverSpreads.{NamesStuckOver};
ghost use Rattle.hyd_spread_vectors.specs.VectorsOfBothNetworks.{KeepsSize};
ghost use Rattle.hyd_spread_sim.specs.MadeOver.{IsMadeOver};
ghost use Rattle.hyd_spread_sim.specs.PeriodAttempt.{AreSoughtOver};
ghost use Rattle.hyd_spread_sim.specs.DuePeriods.{GoesOnOver, IsDoneOver, IsSearchFor, fault_stop_of};

use crate::narrow_periods::is_narrow;
use crate::period_attempt::{Fault, try_period};
use hyd_finders::Finder;
use hyd_net::Project;
use hyd_open_certificates::OpenRow;
use hyd_open_period_end::OpenPeriodEnd;
use hyd_open_sim::OpenSettings;
use hyd_open_sim_start::{Standing, begin, open_stop};
use hyd_period_facts::Facts;
use hyd_spec_certificates::StopCause;
use hyd_spread_networks::SpreadNets;
use hyd_spread_start::start_period;
use hyd_spread_stops::{lack_fits, lack_stop};
use hyd_spread_vectors::{SpreadSearch, narrow_over, tight_over};

// Why a period stops whose vectors are as sharp as can be.
fn fault_stop(standing: &Standing, rounds: u32, fault: Fault) -> StopCause
    ensures { result ≡ fault_stop_of standing.now.number rounds fault }
{
    match fault {
        Fault::Lack(lack) => lack_stop(standing.number, rounds, lack),
        Fault::Open(what) => open_stop(standing.number, what),
    }
}

// Does a period that was started, with tight vectors. Fails with the cause that stops the run there.
fn tighten<F: Finder, G: Finder>(
    project: &Project,
    slack: u32,
    rounds: u32,
    standing: &Standing,
    nets: &SpreadNets,
    above: &mut F,
    below: &mut G,
    search: &mut SpreadSearch,
    found: &mut OpenRow,
    facts: &mut Facts,
    close: &mut OpenPeriodEnd,
) -> Result<(), StopCause>
    requires sound { IsSound project.now }
    requires spread { IsSpread project.now nets.now.spread }
    requires standing { IsStanding project.now standing.now }
    requires unfinished { standing.now.finished ≡ false }
    requires of { AreNetsOf project.now nets.now }
    requires search { IsSearchFor project.now rounds search.old }
    requires header { open_header_of found.old ≡ header_for project.now }
    requires started { IsStartedOver project.now nets.now.spread (standing_for standing.now) nets.now found.old
        facts.old }
    requires close { HasCloseRoom project.now close.old }
    requires told { says_nothing nets.now.spread ≡ true → G.told below.old ≡ F.told above.old }
    ensures made { OnOk result (IsMadeOver project.now slack standing.now nets.now found.new facts.new close.new) }
    ensures tight { OnOk result (AreTightOver project.now (pair_of nets.now) (row_of found.new.row)) }
    ensures sought { OnOk result (AreSoughtOver true (record { above = F.told above.old; below = G.told below.old })
        (pair_of nets.now) (tank_count project.now) rounds (row_of found.new.row)) }
    ensures stops { IfErr result (StopsOver project.now nets.now.spread (standing_for standing.now) slack rounds) }
    ensures stuck { IfErr result (NamesStuckOver project.now nets.now.spread (known_for standing.now) rounds) }
    ensures header { open_header_of found.new ≡ open_header_of found.old }
    ensures facts { HasRoom project.now facts.new }
    ensures close { HasCloseRoom project.now close.new }
    ensures search { KeepsSize search.old search.new }
    ensures told_above { F.told above.new ≡ F.told above.old }
    ensures told_below { G.told below.new ≡ G.told below.old }
{
    tight_over();
    match try_period(
        project, standing, slack, nets, above, below, true, search, found, facts, close,
    ) {
        Ok(()) => Ok(()),
        Err(fault) => Err(fault_stop(standing, rounds, fault)),
    }
}

// Does a period that was started, with vectors that needn't be tight, and tells whether its record does: whether the
// period is narrow, none of its vectors is lacking, and they leave no matter open. Fails with the cause that stops the
// run where no vector is a certificate; where only rounds were spent, the tight vectors may still be reached.
fn does<F: Finder, G: Finder>(
    project: &Project,
    settings: OpenSettings,
    standing: &Standing,
    nets: &SpreadNets,
    above: &mut F,
    below: &mut G,
    search: &mut SpreadSearch,
    found: &mut OpenRow,
    facts: &mut Facts,
    close: &mut OpenPeriodEnd,
) -> Result<bool, StopCause>
    requires sound { IsSound project.now }
    requires spread { IsSpread project.now nets.now.spread }
    requires standing { IsStanding project.now standing.now }
    requires unfinished { standing.now.finished ≡ false }
    requires of { AreNetsOf project.now nets.now }
    requires search { IsSearchFor project.now settings.search.rounds search.old }
    requires header { open_header_of found.old ≡ header_for project.now }
    requires started { IsStartedOver project.now nets.now.spread (standing_for standing.now) nets.now found.old
        facts.old }
    requires close { HasCloseRoom project.now close.old }
    requires told { says_nothing nets.now.spread ≡ true → G.told below.old ≡ F.told above.old }
    ensures made { IfOk result (λ fits. fits ≡ true
        → IsMadeOver project.now settings.slack standing.now nets.now found.new facts.new close.new) }
    ensures narrow { IfOk result (λ fits. fits ≡ true → IsNarrowWithin settings.search.width nets.now.spread
        (standing_for standing.now) (pair_of nets.now) (row_of found.new.row)
        (next_standing project.now standing.now close.new)) }
    ensures sought { IfOk result (λ fits. fits ≡ true → AreSoughtOver false
        (record { above = F.told above.old; below = G.told below.old }) (pair_of nets.now) (tank_count project.now)
        settings.search.rounds (row_of found.new.row)) }
    ensures stops { IfErr result (StopsOver project.now nets.now.spread (standing_for standing.now) settings.slack
        settings.search.rounds) }
    ensures stuck { IfErr result (NamesStuckOver project.now nets.now.spread (known_for standing.now)
        settings.search.rounds) }
    ensures certain { IfErr result SaysNone }
    ensures goes_on { IfOk result (λ fits. GoesOnOver (record { above = F.told above.old; below = G.told below.old })
        (pair_of nets.now) (tank_count project.now) settings.search.rounds search.new.held (row_of found.new.row)) }
    ensures header { open_header_of found.new ≡ open_header_of found.old }
    ensures number { found.new.row.number ≡ found.old.row.number }
    ensures time { found.new.row.time ≡ found.old.row.time }
    ensures late { found.new.late ≡ found.old.late }
    ensures facts { HasRoom project.now facts.new }
    ensures close { HasCloseRoom project.now close.new }
    ensures search { KeepsSize search.old search.new }
    ensures told_above { F.told above.new ≡ F.told above.old }
    ensures told_below { G.told below.new ≡ G.told below.old }
{
    narrow_over();
    match try_period(
        project,
        standing,
        settings.slack,
        nets,
        above,
        below,
        false,
        search,
        found,
        facts,
        close,
    ) {
        Ok(()) => Ok(is_narrow(
            project,
            standing,
            nets,
            search,
            close,
            settings.search.width,
        )),
        Err(Fault::Lack(lack)) => lack_fits(standing.number, settings.search.rounds, lack),
        Err(Fault::Open(_)) => Ok(false),
    }
}

// Does a period that was started: finds vectors and ends the period by them. Where these leave a matter open, the
// record isn't narrow on a network, or rounds toward one were spent, it does so again with the tight vectors. Fails with
// the cause that stops the run there. The states of links at the start are made in the room of those at the end.
fn do_started<F: Finder, G: Finder>(
    project: &Project,
    settings: OpenSettings,
    standing: &Standing,
    nets: &SpreadNets,
    above: &mut F,
    below: &mut G,
    search: &mut SpreadSearch,
    found: &mut OpenRow,
    facts: &mut Facts,
    close: &mut OpenPeriodEnd,
) -> Result<(), StopCause>
    requires sound { IsSound project.now }
    requires spread { IsSpread project.now nets.now.spread }
    requires standing { IsStanding project.now standing.now }
    requires unfinished { standing.now.finished ≡ false }
    requires of { AreNetsOf project.now nets.now }
    requires search { IsSearchFor project.now settings.search.rounds search.old }
    requires header { open_header_of found.old ≡ header_for project.now }
    requires started { IsStartedOver project.now nets.now.spread (standing_for standing.now) nets.now found.old
        facts.old }
    requires close { HasCloseRoom project.now close.old }
    requires told { says_nothing nets.now.spread ≡ true → G.told below.old ≡ F.told above.old }
    ensures done { OnOk result (IsDoneOver (record { above = F.told above.old; below = G.told below.old }) project.now
        settings standing.now nets.now found.new facts.new close.new) }
    ensures stops { IfErr result (StopsOver project.now nets.now.spread (standing_for standing.now) settings.slack
        settings.search.rounds) }
    ensures stuck { IfErr result (NamesStuckOver project.now nets.now.spread (known_for standing.now)
        settings.search.rounds) }
    ensures search { KeepsSize search.old search.new }
    ensures header { open_header_of found.new ≡ open_header_of found.old }
    ensures facts { HasRoom project.now facts.new }
    ensures close { HasCloseRoom project.now close.new }
    ensures told_above { F.told above.new ≡ F.told above.old }
    ensures told_below { G.told below.new ≡ G.told below.old }
{
    if settings.search.tight {
        return tighten(
            project,
            settings.slack,
            settings.search.rounds,
            standing,
            nets,
            above,
            below,
            search,
            found,
            facts,
            close,
        );
    }
    if does(
        project, settings, standing, nets, above, below, search, found, facts, close,
    )? {
        return Ok(());
    }
    begin(project, standing, &mut close.commanded, facts);
    tighten(
        project,
        settings.slack,
        settings.search.rounds,
        standing,
        nets,
        above,
        below,
        search,
        found,
        facts,
        close,
    )
}

/// Does the period of a run for a spread that begins at a standing: sets the nets of both sides, finds vectors by a
/// finder a side, the tight ones where others don't do or these are asked for, and ends the period by them. Fails with
/// the cause that stops the run there.
pub fn do_period<F: Finder, G: Finder>(
    project: &Project,
    settings: OpenSettings,
    standing: &Standing,
    nets: &mut SpreadNets,
    above: &mut F,
    below: &mut G,
    search: &mut SpreadSearch,
    found: &mut OpenRow,
    facts: &mut Facts,
    close: &mut OpenPeriodEnd,
) -> Result<(), StopCause>
    requires sound { IsSound project.now }
    requires spread { IsSpread project.now nets.old.spread }
    requires standing { IsStanding project.now standing.now }
    requires unfinished { standing.now.finished ≡ false }
    requires of { AreNetsOf project.now nets.old }
    requires search { IsSearchFor project.now settings.search.rounds search.old }
    requires header { open_header_of found.old ≡ header_for project.now }
    requires facts { HasRoom project.now facts.old }
    requires close { HasCloseRoom project.now close.old }
    requires told { says_nothing nets.old.spread ≡ true → G.told below.old ≡ F.told above.old }
    ensures done { OnOk result (IsDoneOver (record { above = F.told above.old; below = G.told below.old }) project.now
        settings standing.now nets.new found.new facts.new close.new) }
    ensures stops { IfErr result (StopsOver project.now nets.old.spread (standing_for standing.now) settings.slack
        settings.search.rounds) }
    ensures stuck { IfErr result (NamesStuckOver project.now nets.old.spread (known_for standing.now)
        settings.search.rounds) }
    ensures of { AreNetsOf project.now nets.new }
    ensures spread { nets.new.spread ≡ nets.old.spread }
    ensures search { KeepsSize search.old search.new }
    ensures header { open_header_of found.new ≡ open_header_of found.old }
    ensures facts { HasRoom project.now facts.new }
    ensures close { HasCloseRoom project.now close.new }
    ensures told_above { F.told above.new ≡ F.told above.old }
    ensures told_below { G.told below.new ≡ G.told below.old }
{
    start_period(project, standing, nets, found, facts, &mut close.commanded)?;
    do_started(
        project, settings, standing, nets, above, below, search, found, facts, close,
    )
}
