//! The period that is due in a run: started, tried, and its record taken where it is narrow.
#![tactic(auto)]

ghost use Rattle.std.specs.Prelude.{◌≡◌, length, true, false, IfOk, IfErr, OnOk, OnErr};
ghost use Rattle.hyd_net.specs.Sound.{IsSound};
ghost use Rattle.hyd_spec.specs.NodeNumbers.{tank_count};
ghost use Rattle.hyd_spec_open_ends.specs.PromisesOfOpenRuns.{StopsOpenly};
ghost use Rattle.hyd_spec_open_reports.specs.PromisesOfOpenReports.{IsNarrowOpenly};
ghost use Rattle.hyd_cert.specs.RecordView.{row_of};
ghost use Rattle.hyd_open_certificates.specs.OpenRowView.{open_header_of, open_record_of};
ghost use Rattle.hyd_period_facts.specs.ReservedMemory.{HasRoom};
ghost use Rattle.hyd_period_network.specs.NetAsPeriodNetwork.{grid_of};
ghost use Rattle.hyd_period_network.specs.NetsSetToPeriods.{IsNetOf};
ghost use Rattle.hyd_open_period_end.specs.EndOfOpenPeriod.{HasRoom as HasCloseRoom};
ghost use Rattle.hyd_open_sim_start.specs.StandingsOfOpenRuns.{IsStanding, known_for, standing_for};
ghost use Rattle.hyd_open_sim_start.specs.StartedPeriods.{IsStarted};
ghost use Rattle.hyd_sim.specs.NarrowRecordsAndStops.{NamesStuck, SaysNone};
ghost use Rattle.hyd_sim.specs.PeriodAttempt.{AreSought, GoesOn};
ghost use Rattle.hyd_sim.specs.Steps.{AreTight};
ghost use Rattle.hyd_open_sim.specs.EndedPeriods.{IsMade, next_standing};
ghost use Rattle.hyd_open_sim.specs.PeriodAttempt.{fault_stop_of};
ghost use Rattle.hyd_open_sim.specs.RunView.{header_for};
ghost use Rattle.hyd_open_sim.specs.Steps.{IsAdvanced, IsDone};

use crate::moving_on::move_on;
use crate::narrow_records::is_narrow;
use crate::open_settings::OpenSettings;
use crate::period_attempt::{Fault, try_period};
use hyd_finders::Finder;
use hyd_net::Project;
use hyd_open_certificates::OpenRow;
use hyd_open_period_end::OpenPeriodEnd;
use hyd_open_sim_start::{Standing, begin, lack_fits, lack_stop, open_stop, start_period};
use hyd_period_facts::Facts;
use hyd_period_network::Net;
use hyd_period_vectors::Search;
use hyd_spec_certificates::StopCause;

// Why a period stops whose vectors are as sharp as can be.
fn fault_stop(standing: &Standing, rounds: u32, fault: Fault) -> StopCause
    ensures { result ≡ fault_stop_of standing.now.number rounds fault }
{
    match fault {
        Fault::Lack(lack) => lack_stop(standing.number, rounds, lack),
        Fault::Open(what) => open_stop(standing.number, what),
    }
}

// Does a period that was started, with tight vectors. Fails with the cause that stops the run there.
fn tighten<F: Finder>(
    project: &Project,
    slack: u32,
    rounds: u32,
    standing: &Standing,
    net: &Net,
    finder: &mut F,
    search: &mut Search,
    found: &mut OpenRow,
    facts: &mut Facts,
    close: &mut OpenPeriodEnd,
) -> Result<(), StopCause>
    requires sound { IsSound project.now }
    requires standing { IsStanding project.now standing.now }
    requires unfinished { standing.now.finished ≡ false }
    requires of { IsNetOf project.now net.now }
    requires search { search.old ≡ record { junctions = length project.now.junctions.list; rounds = rounds } }
    requires header { open_header_of found.old ≡ header_for project.now }
    requires started { IsStarted project.now (standing_for standing.now) net.now found.old facts.old }
    requires close { HasCloseRoom project.now close.old }
    ensures made { OnOk result (IsMade project.now slack standing.now net.now found.new facts.new close.new) }
    ensures tight { OnOk result (AreTight project.now (grid_of net.now) (row_of found.new.row)) }
    ensures sought { OnOk result (AreSought true (F.told finder.old) (grid_of net.now) (tank_count project.now) rounds
        (row_of found.new.row)) }
    ensures stops { IfErr result (StopsOpenly project.now (standing_for standing.now) slack rounds) }
    ensures stuck { IfErr result (NamesStuck project.now (known_for standing.now) rounds) }
    ensures header { open_header_of found.new ≡ open_header_of found.old }
    ensures facts { HasRoom project.now facts.new }
    ensures close { HasCloseRoom project.now close.new }
    ensures search { search.new ≡ search.old }
    ensures told { F.told finder.new ≡ F.told finder.old }
{
    let _junctions = net.junctions();
    match try_period(
        project, standing, slack, net, finder, true, search, found, facts, close,
    ) {
        Ok(()) => Ok(()),
        Err(fault) => Err(fault_stop(standing, rounds, fault)),
    }
}

// Does a period that was started, with vectors that needn't be tight, and tells whether its record does: whether it is
// narrow, none of its vectors is lacking, and they leave no matter open. Fails with the cause that stops the run where
// no vector is a certificate; where only rounds were spent, the tight vectors may still be reached.
fn does<F: Finder>(
    project: &Project,
    settings: OpenSettings,
    standing: &Standing,
    net: &Net,
    finder: &mut F,
    search: &mut Search,
    found: &mut OpenRow,
    facts: &mut Facts,
    close: &mut OpenPeriodEnd,
) -> Result<bool, StopCause>
    requires sound { IsSound project.now }
    requires standing { IsStanding project.now standing.now }
    requires unfinished { standing.now.finished ≡ false }
    requires of { IsNetOf project.now net.now }
    requires search { search.old ≡ record {
      junctions = length project.now.junctions.list;
      rounds = settings.search.rounds;
    } }
    requires header { open_header_of found.old ≡ header_for project.now }
    requires started { IsStarted project.now (standing_for standing.now) net.now found.old facts.old }
    requires close { HasCloseRoom project.now close.old }
    ensures made { IfOk result (λ fits. fits ≡ true
        → IsMade project.now settings.slack standing.now net.now found.new facts.new close.new) }
    ensures narrow { IfOk result (λ fits. fits ≡ true → IsNarrowOpenly settings.search.width
        (standing_for standing.now) (open_record_of found.new) (next_standing project.now standing.now close.new)) }
    ensures sought { IfOk result (λ fits. fits ≡ true → AreSought false (F.told finder.old) (grid_of net.now)
        (tank_count project.now) settings.search.rounds (row_of found.new.row)) }
    ensures stops { IfErr result (StopsOpenly project.now (standing_for standing.now) settings.slack
        settings.search.rounds) }
    ensures stuck { IfErr result (NamesStuck project.now (known_for standing.now) settings.search.rounds) }
    ensures certain { IfErr result SaysNone }
    ensures goes_on { IfOk result (λ fits. GoesOn (F.told finder.old) (grid_of net.now) (tank_count project.now)
        settings.search.rounds (row_of found.new.row)) }
    ensures header { open_header_of found.new ≡ open_header_of found.old }
    ensures number { found.new.row.number ≡ found.old.row.number }
    ensures time { found.new.row.time ≡ found.old.row.time }
    ensures late { found.new.late ≡ found.old.late }
    ensures facts { HasRoom project.now facts.new }
    ensures close { HasCloseRoom project.now close.new }
    ensures search { search.new ≡ search.old }
    ensures told { F.told finder.new ≡ F.told finder.old }
{
    let _junctions = net.junctions();
    match try_period(
        project,
        standing,
        settings.slack,
        net,
        finder,
        false,
        search,
        found,
        facts,
        close,
    ) {
        Ok(()) => Ok(is_narrow(project, standing, found, close, settings.search.width)),
        Err(Fault::Lack(lack)) => lack_fits(standing.number, settings.search.rounds, lack),
        Err(Fault::Open(_)) => Ok(false),
    }
}

// Does the period that begins at a standing: sets the net and the links, finds vectors and ends the period by them.
// Where these leave a matter open, the record isn't narrow, or rounds toward one were spent, it does so again with the
// tight vectors. Fails with the cause that stops the run there. The states of links at the start are made in the room of
// those at the end.
fn do_period<F: Finder>(
    project: &Project,
    settings: OpenSettings,
    standing: &Standing,
    net: &mut Net,
    search: &mut Search,
    found: &mut OpenRow,
    facts: &mut Facts,
    close: &mut OpenPeriodEnd,
    finder: &mut F,
) -> Result<(), StopCause>
    requires sound { IsSound project.now }
    requires standing { IsStanding project.now standing.now }
    requires unfinished { standing.now.finished ≡ false }
    requires of { IsNetOf project.now net.old }
    requires search { search.old ≡ record {
      junctions = length project.now.junctions.list;
      rounds = settings.search.rounds;
    } }
    requires header { open_header_of found.old ≡ header_for project.now }
    requires facts { HasRoom project.now facts.old }
    requires close { HasCloseRoom project.now close.old }
    ensures done { OnOk result (IsDone (F.told finder.old) project.now settings standing.now net.new found.new facts.new
        close.new) }
    ensures stops { IfErr result (StopsOpenly project.now (standing_for standing.now) settings.slack
        settings.search.rounds) }
    ensures stuck { IfErr result (NamesStuck project.now (known_for standing.now) settings.search.rounds) }
    ensures of { IsNetOf project.now net.new }
    ensures search { search.new ≡ search.old }
    ensures header { open_header_of found.new ≡ open_header_of found.old }
    ensures facts { HasRoom project.now facts.new }
    ensures close { HasCloseRoom project.now close.new }
    ensures told { F.told finder.new ≡ F.told finder.old }
{
    start_period(project, standing, net, found, facts, &mut close.commanded)?;
    if settings.search.tight {
        return tighten(
            project,
            settings.slack,
            settings.search.rounds,
            standing,
            net,
            finder,
            search,
            found,
            facts,
            close,
        );
    }
    if does(
        project, settings, standing, net, finder, search, found, facts, close,
    )? {
        return Ok(());
    }
    begin(project, standing, &mut close.commanded, facts);
    tighten(
        project,
        settings.slack,
        settings.search.rounds,
        standing,
        net,
        finder,
        search,
        found,
        facts,
        close,
    )
}

/// Does the period that is due at a standing, and moves on behind it. Fails with the cause that stops the run there;
/// the standing then stays.
pub(crate) fn advance<F: Finder>(
    project: &Project,
    settings: OpenSettings,
    standing: &mut Standing,
    net: &mut Net,
    search: &mut Search,
    found: &mut OpenRow,
    facts: &mut Facts,
    close: &mut OpenPeriodEnd,
    finder: &mut F,
) -> Result<(), StopCause>
    requires sound { IsSound project.now }
    requires standing { IsStanding project.now standing.old }
    requires unfinished { standing.old.finished ≡ false }
    requires of { IsNetOf project.now net.old }
    requires search { search.old ≡ record {
      junctions = length project.now.junctions.list;
      rounds = settings.search.rounds;
    } }
    requires header { open_header_of found.old ≡ header_for project.now }
    requires facts { HasRoom project.now facts.old }
    requires close { HasCloseRoom project.now close.old }
    ensures advanced { OnOk result (IsAdvanced (F.told finder.old) project.now settings (standing_for standing.old)
        net.new found.new facts.new close.new.first close.new.late close.new.opened.list
        (standing_for standing.new)) }
    ensures stops { IfErr result (StopsOpenly project.now (standing_for standing.old) settings.slack
        settings.search.rounds) }
    ensures stuck { IfErr result (NamesStuck project.now (known_for standing.old) settings.search.rounds) }
    ensures stays { OnErr result (standing.new ≡ standing.old) }
    ensures standing { IsStanding project.now standing.new }
    ensures of { IsNetOf project.now net.new }
    ensures search { search.new ≡ search.old }
    ensures header { open_header_of found.new ≡ open_header_of found.old }
    ensures facts { HasRoom project.now facts.new }
    ensures close { HasCloseRoom project.now close.new }
    ensures told { F.told finder.new ≡ F.told finder.old }
{
    do_period(
        project, settings, standing, net, search, found, facts, close, finder,
    )?;
    move_on(standing, project, close);
    Ok(())
}
