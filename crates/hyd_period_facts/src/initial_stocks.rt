//! The stocks and the states of tanks with which a run begins.
#![tactic(auto)]

ghost use Rattle.std.specs.Prelude.{◌≡◌, ◌≤◌, ◌+◌, ℕ, Some, length, map, slice_get};
ghost use Rattle.hyd_net.specs.Sound.{IsSound};
ghost use Rattle.hyd_spec.specs.ProgramTypes.{Tank};
ghost use Rattle.hyd_spec.specs.NodeNumbers.{tank_count};
ghost use Rattle.hyd_spec.specs.Tank.{walls_of};
ghost use Rattle.hyd_spec_certificates.specs.SpansAsIntervals.{levels_of};
ghost use Rattle.hyd_spec_certificates.specs.RecordAndStanding.{initial_standing};
ghost use Rattle.hyd_tank.specs.StockIntervals.{AreHeld, volumes_of};
ghost use Rattle.hyd_period_facts.specs.TankStart.{stocks_among};

use crate::levels_and_level_controls::add_level;
use crate::states::put_states;
use crate::stocks::add_volume;
use hyd_net::{List, Project};
use hyd_spec::TankState;
use hyd_spec_certificates::LevelSpan;
use hyd_tank::{VolumeSpan, initial_stock};

/// Puts the levels and the volumes of tanks with which a run begins. What the lists held before goes. They have room
/// for an item for each tank, so no memory is taken.
pub(crate) fn put_initial(
    project: &Project,
    levels: &mut List<LevelSpan>,
    volumes: &mut List<VolumeSpan>,
)
    requires sound { IsSound project.now }
    requires levels_room { tank_count project.now ≤ length levels.old.list + levels.old.spare }
    requires volumes_room { tank_count project.now ≤ length volumes.old.list + volumes.old.spare }
    ensures levels { map levels_of levels.new.list ≡ (initial_standing project.now).levels }
    ensures volumes { map volumes_of volumes.new.list ≡ (initial_standing project.now).volumes }
    ensures held { (k : ℕ) (each : Tank) → slice_get project.now.tanks.list k ≡ Some each
        → AreHeld (walls_of project.now each) each (stocks_among levels.new.list volumes.new.list k) }
    ensures levels_count { length levels.new.list ≡ tank_count project.now }
    ensures volumes_count { length volumes.new.list ≡ tank_count project.now }
    ensures levels_stay { length levels.old.list + levels.old.spare ≤ length levels.new.list + levels.new.spare }
    ensures volumes_stay { length volumes.old.list + volumes.old.spare ≤ length volumes.new.list + volumes.new.spare }
{
    levels.clear();
    volumes.clear();
    for tank in 0..project.tanks.len() {
        let stock = initial_stock(project, tank as u32);
        add_level(levels, stock.level);
        add_volume(volumes, stock.volume);
    }
}

/// Puts the states of tanks at the levels with which a run begins. What the list held before goes. It has room for an
/// item for each tank, so no memory is taken; and each tank has one level, so no state is open.
pub(crate) fn put_initial_states(
    project: &Project,
    levels: &[LevelSpan],
    states: &mut List<TankState>,
)
    requires sound { IsSound project.now }
    requires levels { map levels_of levels.now ≡ (initial_standing project.now).levels }
    requires each_level { length levels.now ≡ tank_count project.now }
    requires room { tank_count project.now ≤ length states.old.list + states.old.spare }
    ensures states { states.new.list ≡ (initial_standing project.now).tanks }
    ensures stay { length states.old.list + states.old.spare ≤ length states.new.list + states.new.spare }
{
    if put_states(project, levels, states).is_err() {
        unreachable!()
    }
}
