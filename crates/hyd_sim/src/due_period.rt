//! The period that is due in a run: started, tried, and its record taken where it is narrow.
#![tactic(auto)]

ghost use Rattle.std.specs.Prelude.{◌≡◌, ◌≢◌, ℕ, length, true, false, Ok, IfOk, IfErr, IsOk, OnOk, OnErr};
ghost use Rattle.hyd_net.specs.Sound.{IsSound};
ghost use Rattle.hyd_spec.specs.NodeNumbers.{tank_count};
ghost use Rattle.hyd_spec_certificates.specs.Narrow.{IsNarrow};
ghost use Rattle.hyd_spec_certificates.specs.RecordAndStanding.{Record as Row};
ghost use Rattle.hyd_spec_certificates.specs.Valid.{DemandsAreInRange};
ghost use Rattle.hyd_spec_certificates.specs.Stops.{Stops};
ghost use Rattle.hyd_cert.specs.RecordView.{header_of, row_of};
ghost use Rattle.hyd_period_facts.specs.ReservedMemory.{HasRoom};
ghost use Rattle.hyd_period_network.specs.NetAsPeriodNetwork.{grid_of};
ghost use Rattle.hyd_period_network.specs.NetsSetToPeriods.{IsNetOf};
ghost use Rattle.hyd_period_end.specs.EndOfPeriod.{HasRoom as HasCloseRoom};
ghost use Rattle.hyd_period_vectors.specs.SoughtVectors.{HaveSame};
ghost use Rattle.hyd_sim.specs.PeriodAttempt.{AreSought, GoesOn, IsMade, IsStarted, fault_stop_of, next_standing};
ghost use Rattle.hyd_sim.specs.NarrowRecordsAndStops.{NamesStuck, SaysNone};
ghost use Rattle.hyd_sim.specs.Steps.{AreTight, IsAdvanced, IsDone, IsProposal};
ghost use Rattle.hyd_sim.specs.RunView.{IsStanding, header_for, standing_for};

use crate::facts_and_links_at_start::begin;
use crate::narrow_records::are_narrow;
use crate::period_attempt::{Fault, try_period};
use crate::settings::Settings;
use crate::standing_between_periods::Standing;
use crate::stop_causes::{demand_stop, lack_fits, lack_stop, open_stop};
use hyd_cert::Record;
use hyd_net::{LinkState, Project};
use hyd_period_end::PeriodEnd;
use hyd_period_facts::Facts;
use hyd_period_network::Net;
use hyd_period_vectors::{Finder, Search};
use hyd_spec_certificates::{Problem, Side, StopCause};

// Whether the record of a period that is over is narrow.
fn is_narrow(
    project: &Project,
    standing: &Standing,
    row: &Record,
    close: &PeriodEnd,
    width: i64,
) -> bool
    requires heads { length (row_of row.now).main.lower ≡ length (row_of row.now).main.upper }
    requires levels { standing.now.time ≢ project.now.times.duration
        → length close.now.next.levels.list ≡ length standing.now.stocks.levels.list }
    ensures narrow { result ≡ true → IsNarrow width (standing_for standing.now) (row_of row.now)
        (next_standing project.now standing.now row.now.length close.now) }
    ensures wide { result ≡ false → IsNarrow width (standing_for standing.now) (row_of row.now)
        (next_standing project.now standing.now row.now.length close.now) → ⊥ }
{
    let upper = row.vector(Problem::Main, Side::Upper);
    let lower = row.vector(Problem::Main, Side::Lower);
    let before = standing.stocks.levels.as_slice();
    if standing.time == project.times.duration {
        return are_narrow(upper, lower, before, before, width);
    }
    are_narrow(upper, lower, before, close.next.levels.as_slice(), width)
}

/// Puts the net into the period that begins at a standing, and facts and links to its start. Fails with the stop where
/// a demand is out of range.
pub(crate) fn start_period(
    project: &Project,
    standing: &Standing,
    net: &mut Net,
    row: &mut Record,
    facts: &mut Facts,
    links: &mut [LinkState],
) -> Result<(), StopCause>
    requires sound { IsSound project.now }
    requires standing { IsStanding project.now standing.now }
    requires of { IsNetOf project.now net.old }
    requires facts { HasRoom project.now facts.old }
    requires links { length links.old ≡ length project.now.links.list }
    ensures started { OnOk result (IsStarted project.now standing.now net.new row.new facts.new) }
    ensures in_range { (DemandsAreInRange project.now standing.now.time) → IsOk result }
    ensures stops { (rounds : ℕ) → IfErr result (Stops project.now (standing_for standing.now) rounds) }
    ensures stuck { (rounds : ℕ) → IfErr result (NamesStuck project.now (standing_for standing.now) rounds) }
    ensures of { IsNetOf project.now net.new }
    ensures header { header_of row.new ≡ header_of row.old }
    ensures facts { HasRoom project.now facts.new }
    ensures links { length links.new ≡ length links.old }
{
    begin(project, standing, links, facts);
    row.number = standing.number;
    row.time = standing.time;
    row.length = 0;
    match net.set_period(
        project,
        standing.time,
        links,
        standing.stocks.levels.as_slice(),
        standing.stocks.tanks.as_slice(),
    ) {
        Ok(()) => Ok(()),
        Err(fault) => Err(demand_stop(standing.number, fault)),
    }
}

// Why a period stops whose vectors are as sharp as can be.
fn fault_stop(standing: &Standing, rounds: u32, fault: Fault) -> StopCause
    ensures { result ≡ fault_stop_of standing.now.number rounds fault }
{
    match fault {
        Fault::Lack(lack) => lack_stop(standing.number, rounds, lack),
        Fault::Open(found) => open_stop(standing.number, found),
    }
}

// Does a period that was started, with tight vectors. Fails with the cause that stops the run there.
fn tighten<F: Finder>(
    project: &Project,
    rounds: u32,
    standing: &Standing,
    net: &Net,
    finder: &mut F,
    search: &mut Search,
    row: &mut Record,
    facts: &mut Facts,
    close: &mut PeriodEnd,
) -> Result<(), StopCause>
    requires sound { IsSound project.now }
    requires standing { IsStanding project.now standing.now }
    requires unfinished { standing.now.finished ≡ false }
    requires of { IsNetOf project.now net.now }
    requires search { search.old ≡ record { junctions = length project.now.junctions.list; rounds = rounds } }
    requires header { header_of row.old ≡ header_for project.now }
    requires started { IsStarted project.now standing.now net.now row.old facts.old }
    requires close { HasCloseRoom project.now close.old }
    ensures made { OnOk result (IsMade project.now standing.now net.now row.new facts.new close.new) }
    ensures tight { OnOk result (AreTight project.now (grid_of net.now) (row_of row.new)) }
    ensures sought { OnOk result (AreSought true (F.told finder.old) (grid_of net.now) (tank_count project.now) rounds
        (row_of row.new)) }
    ensures stops { IfErr result (Stops project.now (standing_for standing.now) rounds) }
    ensures stuck { IfErr result (NamesStuck project.now (standing_for standing.now) rounds) }
    ensures header { header_of row.new ≡ header_of row.old }
    ensures facts { HasRoom project.now facts.new }
    ensures close { HasCloseRoom project.now close.new }
    ensures search { search.new ≡ search.old }
    ensures told { F.told finder.new ≡ F.told finder.old }
{
    let _junctions = net.junctions();
    match try_period(
        project, standing, net, finder, true, search, row, facts, close,
    ) {
        Ok(()) => Ok(()),
        Err(fault) => Err(fault_stop(standing, rounds, fault)),
    }
}

// Does a period that was started, with vectors that needn't be tight, and tells whether its record does: whether it is
// narrow, none of its vectors is lacking, and they leave no matter open. Fails with the cause that stops the run where
// no vector is a certificate; where only rounds were spent, the tight vectors may still be reached.
fn does<F: Finder>(
    project: &Project,
    settings: Settings,
    standing: &Standing,
    net: &Net,
    finder: &mut F,
    search: &mut Search,
    row: &mut Record,
    facts: &mut Facts,
    close: &mut PeriodEnd,
) -> Result<bool, StopCause>
    requires sound { IsSound project.now }
    requires standing { IsStanding project.now standing.now }
    requires unfinished { standing.now.finished ≡ false }
    requires of { IsNetOf project.now net.now }
    requires search { search.old ≡ record { junctions = length project.now.junctions.list; rounds = settings.rounds } }
    requires header { header_of row.old ≡ header_for project.now }
    requires started { IsStarted project.now standing.now net.now row.old facts.old }
    requires close { HasCloseRoom project.now close.old }
    ensures made { IfOk result (λ fits. fits ≡ true
        → IsMade project.now standing.now net.now row.new facts.new close.new) }
    ensures narrow { IfOk result (λ fits. fits ≡ true → IsNarrow settings.width (standing_for standing.now)
        (row_of row.new) (next_standing project.now standing.now row.new.length close.new)) }
    ensures sought { IfOk result (λ fits. fits ≡ true → AreSought false (F.told finder.old) (grid_of net.now)
        (tank_count project.now) settings.rounds (row_of row.new)) }
    ensures stops { IfErr result (Stops project.now (standing_for standing.now) settings.rounds) }
    ensures stuck { IfErr result (NamesStuck project.now (standing_for standing.now) settings.rounds) }
    ensures certain { IfErr result SaysNone }
    ensures goes_on { IfOk result (λ fits. GoesOn (F.told finder.old) (grid_of net.now) (tank_count project.now)
        settings.rounds (row_of row.new)) }
    ensures proposal { (w : Row) → IsProposal (F.told finder.old) project.now settings (standing_for standing.now) w
        → (result ≡ Ok true) × HaveSame (tank_count project.now) (row_of row.new) w }
    ensures header { header_of row.new ≡ header_of row.old }
    ensures number { row.new.number ≡ row.old.number }
    ensures time { row.new.time ≡ row.old.time }
    ensures facts { HasRoom project.now facts.new }
    ensures close { HasCloseRoom project.now close.new }
    ensures search { search.new ≡ search.old }
    ensures told { F.told finder.new ≡ F.told finder.old }
{
    let _junctions = net.junctions();
    match try_period(
        project, standing, net, finder, false, search, row, facts, close,
    ) {
        Ok(()) => Ok(is_narrow(project, standing, row, close, settings.width)),
        Err(Fault::Lack(lack)) => lack_fits(standing.number, settings.rounds, lack),
        Err(Fault::Open(_)) => Ok(false),
    }
}

// Does the period that begins at a standing: sets the net and the links, finds vectors and ends the period by them.
// Where these leave a matter open, the record isn't narrow, or rounds toward one were spent, it does so again with the
// tight vectors. Fails with the cause that stops the run there. The states of links at the start are made in the room of
// those at the end.
fn do_period<F: Finder>(
    project: &Project,
    settings: Settings,
    standing: &Standing,
    net: &mut Net,
    search: &mut Search,
    row: &mut Record,
    facts: &mut Facts,
    close: &mut PeriodEnd,
    finder: &mut F,
) -> Result<(), StopCause>
    requires sound { IsSound project.now }
    requires standing { IsStanding project.now standing.now }
    requires unfinished { standing.now.finished ≡ false }
    requires of { IsNetOf project.now net.old }
    requires search { search.old ≡ record { junctions = length project.now.junctions.list; rounds = settings.rounds } }
    requires header { header_of row.old ≡ header_for project.now }
    requires facts { HasRoom project.now facts.old }
    requires close { HasCloseRoom project.now close.old }
    ensures done { OnOk result (IsDone (F.told finder.old) project.now settings standing.now net.new row.new facts.new
        close.new) }
    ensures stops { IfErr result (Stops project.now (standing_for standing.now) settings.rounds) }
    ensures stuck { IfErr result (NamesStuck project.now (standing_for standing.now) settings.rounds) }
    ensures of { IsNetOf project.now net.new }
    ensures search { search.new ≡ search.old }
    ensures header { header_of row.new ≡ header_of row.old }
    ensures facts { HasRoom project.now facts.new }
    ensures close { HasCloseRoom project.now close.new }
    ensures proposal { (w : Row) → settings.tight ≡ false
        → IsProposal (F.told finder.old) project.now settings (standing_for standing.now) w
        → IsOk result × HaveSame (tank_count project.now) (row_of row.new) w }
    ensures told { F.told finder.new ≡ F.told finder.old }
{
    start_period(project, standing, net, row, facts, &mut close.commanded)?;
    if settings.tight {
        return tighten(
            project,
            settings.rounds,
            standing,
            net,
            finder,
            search,
            row,
            facts,
            close,
        );
    }
    if does(
        project, settings, standing, net, finder, search, row, facts, close,
    )? {
        return Ok(());
    }
    begin(project, standing, &mut close.commanded, facts);
    tighten(
        project,
        settings.rounds,
        standing,
        net,
        finder,
        search,
        row,
        facts,
        close,
    )
}

/// Does the period that is due at a standing, and moves on behind it. Fails with the cause that stops the run there;
/// the standing then stays.
pub(crate) fn advance<F: Finder>(
    project: &Project,
    settings: Settings,
    standing: &mut Standing,
    net: &mut Net,
    search: &mut Search,
    row: &mut Record,
    facts: &mut Facts,
    close: &mut PeriodEnd,
    finder: &mut F,
) -> Result<(), StopCause>
    requires sound { IsSound project.now }
    requires standing { IsStanding project.now standing.old }
    requires unfinished { standing.old.finished ≡ false }
    requires of { IsNetOf project.now net.old }
    requires search { search.old ≡ record { junctions = length project.now.junctions.list; rounds = settings.rounds } }
    requires header { header_of row.old ≡ header_for project.now }
    requires facts { HasRoom project.now facts.old }
    requires close { HasCloseRoom project.now close.old }
    ensures advanced { OnOk result (IsAdvanced (F.told finder.old) project.now settings (standing_for standing.old)
        net.new row.new facts.new (standing_for standing.new)) }
    ensures stops { IfErr result (Stops project.now (standing_for standing.old) settings.rounds) }
    ensures stuck { IfErr result (NamesStuck project.now (standing_for standing.old) settings.rounds) }
    ensures stays { OnErr result (standing.new ≡ standing.old) }
    ensures standing { IsStanding project.now standing.new }
    ensures of { IsNetOf project.now net.new }
    ensures search { search.new ≡ search.old }
    ensures header { header_of row.new ≡ header_of row.old }
    ensures facts { HasRoom project.now facts.new }
    ensures close { HasCloseRoom project.now close.new }
    ensures proposal { (w : Row) → settings.tight ≡ false
        → IsProposal (F.told finder.old) project.now settings (standing_for standing.old) w
        → IsOk result × HaveSame (tank_count project.now) (row_of row.new) w }
    ensures told { F.told finder.new ≡ F.told finder.old }
{
    do_period(
        project, settings, standing, net, search, row, facts, close, finder,
    )?;
    standing.move_on(project, net, row, facts, close);
    Ok(())
}
