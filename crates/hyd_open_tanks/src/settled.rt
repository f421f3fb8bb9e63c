//! Whether the states of tanks and the level controls are decided at levels.
#![tactic(auto)]

ghost use Rattle.std.specs.Prelude.{◌≡◌, ◌≤◌, ◌+◌, length, map, IfErr, OnOk};
ghost use Rattle.hyd_net.specs.Sound.{IsSound};
ghost use Rattle.hyd_spec.specs.NodeNumbers.{tank_count};
ghost use Rattle.hyd_spec_certificates.specs.SpansAsIntervals.{levels_of};
ghost use Rattle.hyd_spec_certificates.specs.Valid.{AreStates, ControlsAreDecided};
ghost use Rattle.hyd_period_facts.specs.TankStart.{IsUnsettled};

use hyd_controls_and_rules::find_open;
use hyd_net::{List, Project};
use hyd_period_facts::{Unsettled, put_states};
use hyd_spec::TankState;
use hyd_spec_certificates::LevelSpan;

/// Puts the states of tanks at their level intervals, and tries each level control there. Fails with [`Unsettled`]
/// exactly where a state or a level control is open.
pub(crate) fn put_settled(
    project: &Project,
    levels: &[LevelSpan],
    states: &mut List<TankState>,
) -> Result<(), Unsettled>
    requires sound { IsSound project.now }
    requires each_level { length levels.now ≡ tank_count project.now }
    requires room { tank_count project.now ≤ length states.old.list + states.old.spare }
    ensures states { OnOk result (AreStates project.now (map levels_of levels.now) states.new.list) }
    ensures controls { OnOk result (ControlsAreDecided project.now (map levels_of levels.now)) }
    ensures open { IfErr result (IsUnsettled project.now levels.now) }
    ensures stay { length states.old.list + states.old.spare ≤ length states.new.list + states.new.spare }
{
    if let Err(open) = put_states(project, levels, states) {
        return Err(Unsettled::Tank(open));
    }
    match find_open(project, levels) {
        Ok(()) => Ok(()),
        Err(open) => Err(Unsettled::Control(open)),
    }
}
