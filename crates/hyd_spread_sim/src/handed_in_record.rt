//! A record handed in as that of the period that is due in a run for a spread.
#![tactic(auto)]

ghost use Rattle.std.specs.Prelude.{◌≡◌, ℕ, true, false, IfErr, OnOk};
ghost use Rattle.hyd_net.specs.Sound.{IsSound};
ghost use Rattle.hyd_spec_open_refusals.specs.RefusedOpenRecords.{IsInPlaceOpenly};
ghost use Rattle.hyd_spec_spread.specs.Spreads.{IsSpread};
ghost use Rattle.hyd_spec_spread_refusals.specs.RefusedSpreadRecords.{HasItsPair, IsRefusedOver};
ghost use Rattle.hyd_spec_spread_runs.specs.RunsForSpreads.{AreCertificatesOver};
ghost use Rattle.hyd_cert.specs.RecordView.{row_of};
ghost use Rattle.hyd_open_certificates.specs.OpenRowView.{open_header_of, open_record_of};
ghost use Rattle.hyd_period_facts.specs.ReservedMemory.{HasRoom};
ghost use Rattle.hyd_period_end.specs.OpenMatters.{SharesVectors};
ghost use Rattle.hyd_period_vectors.specs.SoughtVectors.{Stays};
ghost use Rattle.hyd_open_period_end.specs.EndOfOpenPeriod.{HasRoom as HasCloseRoom};
ghost use Rattle.hyd_open_sim_start.specs.StandingsOfOpenRuns.{IsStanding, standing_for};
ghost use Rattle.hyd_open_sim.specs.RunView.{header_for};
ghost use Rattle.hyd_spread_networks.specs.NetsOfSpreads.{AreNetsOf, pair_of};
ghost use Rattle.hyd_spread_start.specs.StartsOver.{IsStartedOver};
ghost use Rattle.hyd_spread_sim.specs.MadeOver.{IsMadeOver};

use crate::given_vectors::check_vectors_over;
use hyd_net::Project;
use hyd_open_certificates::OpenRow;
use hyd_open_period_end::{ANY_SLACK, OpenPeriodEnd};
use hyd_open_sim_start::{Standing, take_vectors};
use hyd_period_facts::Facts;
use hyd_spec_certificates::CertRefused;
use hyd_spread_bounds::outermost_in_order;
use hyd_spread_networks::SpreadNets;
use hyd_spread_period_end::end_period;
use hyd_spread_start::start_period;

/// Decides whether a record is the one that is due: the run isn't over, its number and its first start are the next,
/// and that is open by as many seconds.
pub(crate) fn check_place(
    project: &Project,
    standing: &Standing,
    nets: &SpreadNets,
    given: &OpenRow,
) -> Result<(), CertRefused>
    ensures in_place { OnOk result (IsInPlaceOpenly (standing_for standing.now) (open_record_of given.now)) }
    ensures refused { IfErr result (IsRefusedOver project.now nets.now.spread (standing_for standing.now)
        (open_record_of given.now)) }
{
    let _project = project;
    let _nets = nets;
    let period = standing.number;
    if standing.finished {
        return Err(CertRefused::After { period });
    }
    if given.row.number != standing.number
        || given.row.time != standing.time
        || given.late != standing.late
    {
        return Err(CertRefused::Place { period });
    }
    Ok(())
}

// Checks the vectors of a record, each on the net of its side, and takes them.
fn certify(
    project: &Project,
    standing: &Standing,
    nets: &SpreadNets,
    found: &mut OpenRow,
    given: &OpenRow,
) -> Result<(), CertRefused>
    requires of { AreNetsOf project.now nets.now }
    requires header { open_header_of found.old ≡ header_for project.now }
    requires given { open_header_of given.now ≡ header_for project.now }
    requires has_pair { HasItsPair project.now nets.now.spread (standing_for standing.now) (pair_of nets.now)
        (open_record_of given.now) }
    ensures certificates { OnOk result (AreCertificatesOver project.now (pair_of nets.now) (row_of given.now.row)) }
    ensures shares { OnOk result (SharesVectors (row_of given.now.row) (row_of found.new.row)) }
    ensures refused { IfErr result (IsRefusedOver project.now nets.now.spread (standing_for standing.now)
        (open_record_of given.now)) }
    ensures stays { Stays found.old.row found.new.row }
    ensures same { found.new ≡ record found.old { row = found.new.row } }
{
    let _project = project;
    if let Err(failing) = check_vectors_over(nets, &given.row) {
        return Err(CertRefused::Fails {
            period: standing.number,
            problem: failing.problem,
            side: failing.side,
            junction: failing.junction,
        });
    }
    take_vectors(&mut found.row, &given.row);
    Ok(())
}

// Whether a record has other lengths than another.
fn has_other_lengths(found: &OpenRow, given: &OpenRow) -> bool
    ensures same { result ≡ false
        → (found.now.shortest ≡ given.now.shortest) × (found.now.row.length ≡ given.now.row.length) }
    ensures other { result ≡ true
        → ((found.now.shortest ≡ given.now.shortest) × (found.now.row.length ≡ given.now.row.length)) → ⊥ }
{
    found.shortest != given.shortest || found.row.length != given.row.length
}

// Checks a record of a period that was started, and ends the period by its vectors, its end open by any seconds.
fn end_by(
    project: &Project,
    standing: &Standing,
    nets: &SpreadNets,
    found: &mut OpenRow,
    facts: &mut Facts,
    close: &mut OpenPeriodEnd,
    given: &OpenRow,
) -> Result<(), CertRefused>
    requires sound { IsSound project.now }
    requires spread { IsSpread project.now nets.now.spread }
    requires standing { IsStanding project.now standing.now }
    requires of { AreNetsOf project.now nets.now }
    requires header { open_header_of found.old ≡ header_for project.now }
    requires given { open_header_of given.now ≡ header_for project.now }
    requires started { IsStartedOver project.now nets.now.spread (standing_for standing.now) nets.now found.old
        facts.old }
    requires close { HasCloseRoom project.now close.old }
    requires in_place { IsInPlaceOpenly (standing_for standing.now) (open_record_of given.now) }
    ensures made { OnOk result ((slack : ℕ)
        × IsMadeOver project.now slack standing.now nets.now found.new facts.new close.new) }
    ensures found { OnOk result (open_record_of found.new ≡ open_record_of given.now) }
    ensures refused { IfErr result (IsRefusedOver project.now nets.now.spread (standing_for standing.now)
        (open_record_of given.now)) }
    ensures header { open_header_of found.new ≡ open_header_of found.old }
    ensures facts { HasRoom project.now facts.new }
    ensures close { HasCloseRoom project.now close.new }
{
    certify(project, standing, nets, found, given)?;
    let period = standing.number;
    outermost_in_order();
    if end_period(project, standing, nets, ANY_SLACK, found, facts, close).is_err() {
        return Err(CertRefused::Open { period });
    }
    if has_other_lengths(found, given) {
        return Err(CertRefused::Length { period });
    }
    Ok(())
}

/// Checks a record that is due: starts its period on the nets of both sides, and ends it by the record's vectors. The
/// states of links at the start are made in the room of those at the end.
pub(crate) fn check_due(
    project: &Project,
    standing: &Standing,
    nets: &mut SpreadNets,
    found: &mut OpenRow,
    facts: &mut Facts,
    close: &mut OpenPeriodEnd,
    given: &OpenRow,
) -> Result<(), CertRefused>
    requires sound { IsSound project.now }
    requires spread { IsSpread project.now nets.old.spread }
    requires standing { IsStanding project.now standing.now }
    requires of { AreNetsOf project.now nets.old }
    requires header { open_header_of found.old ≡ header_for project.now }
    requires given { open_header_of given.now ≡ header_for project.now }
    requires facts { HasRoom project.now facts.old }
    requires close { HasCloseRoom project.now close.old }
    requires in_place { IsInPlaceOpenly (standing_for standing.now) (open_record_of given.now) }
    ensures made { OnOk result ((slack : ℕ)
        × IsMadeOver project.now slack standing.now nets.new found.new facts.new close.new) }
    ensures found { OnOk result (open_record_of found.new ≡ open_record_of given.now) }
    ensures refused { IfErr result (IsRefusedOver project.now nets.old.spread (standing_for standing.now)
        (open_record_of given.now)) }
    ensures of { AreNetsOf project.now nets.new }
    ensures spread { nets.new.spread ≡ nets.old.spread }
    ensures header { open_header_of found.new ≡ open_header_of found.old }
    ensures facts { HasRoom project.now facts.new }
    ensures close { HasCloseRoom project.now close.new }
{
    if start_period(project, standing, nets, found, facts, &mut close.commanded).is_err() {
        return Err(CertRefused::Demand {
            period: standing.number,
        });
    }
    end_by(project, standing, nets, found, facts, close, given)
}
