//! What is open first, in one kind.
#![tactic(auto)]

ghost use Rattle.std.specs.Prelude.{ℕ, List, map};
ghost use Rattle.hyd_spec.specs.ProgramTypes.{Project};
ghost use Rattle.hyd_spec_certificates.specs.SpansAsIntervals.{levels_of};
ghost use Rattle.hyd_spec_certificates.specs.declared.LevelSpan.{LevelSpan};
ghost use Rattle.hyd_spec_certificates.specs.PeriodNetwork.{Grid};
ghost use Rattle.hyd_spec_open_ends.specs.OpenStandings.{OpenStanding, OpenRecord};
ghost use Rattle.hyd_spec_open_ends.specs.OpenEnds as ends;
ghost use Rattle.hyd_period_facts.specs.TankStart.{IsUnsettled};
ghost use Rattle.hyd_open_ends.specs.Ways.{end_of};
ghost use Rattle.hyd_open_period_end.specs.OpenMatters.{IsOpenlyOpenAt, IsOpenAmong};

use hyd_open_ends::Open as OpenEnd;
use hyd_period_end::Open;
use hyd_period_facts::Unsettled;

/// An end that is open, as a matter.
pub(crate) fn open_end(found: OpenEnd) -> Open
    ensures { (project : Project) (grid : Grid) (standing : OpenStanding) (slack : ℕ) (other : OpenRecord)
        → ends.IsFirstOpen project grid standing other.row slack (end_of found)
        → IsOpenlyOpenAt project grid standing slack other result }
{
    match found {
        OpenEnd::Rule(rule) => Open::Rule(rule),
        OpenEnd::Event { earliest, latest } => Open::Event { earliest, latest },
    }
}

/// The state of a tank or a level control that is open, as a matter.
pub(crate) fn open_there(found: Unsettled) -> Open
    ensures { (project : Project) (levels : List LevelSpan) → IsUnsettled project levels found
        → IsOpenAmong project (map levels_of levels) result }
{
    match found {
        Unsettled::Tank(tank) => Open::Tank(tank),
        Unsettled::Control(control) => Open::Control(control),
    }
}
