//! The settings of links: their states, and the ways that full and empty tanks forbid.
#![tactic(auto)]

ghost use Rattle.std.specs.Prelude.{◌≡◌, ◌+◌, ◌^◌, ◌≤◌, ◌<◌, length, map, false};
ghost use Rattle.std.specs.Option.{option_map_or};
ghost use Rattle.hyd_spec.specs.LinkLaw.{is_full, is_empty, overflows};
ghost use Rattle.hyd_spec.specs.NodeNumbers.{nodes_before_tanks};
ghost use Rattle.hyd_net.specs.Sound.{IsSound};
ghost use Rattle.hyd_period_network.specs.LawsInSettings.{tank_state, setting_of, AreBoth, AreSet, AreStates};
ghost use Rattle.hyd_period_network.specs.BothLaws.{AreFree};
ghost use Rattle.hyd_period_network.specs.NetsSetToPeriods.{ends_of};

use crate::both_laws::BothLaws;
use crate::junctions_ends_and_settings::Setting;
use crate::laws::set_link;
use hyd_net::{Link, LinkState, Project};
use hyd_spec::TankState;

// The state of a node that is a tank.
fn tank_state(project: &Project, tanks: &[TankState], node: u32) -> Option<TankState>
    requires few { length project.now.junctions.list + length project.now.reservoirs.list ≤ 2 ^ 32 }
    ensures { result ≡ tank_state project.now tanks.now node }
{
    let before = project.junctions.len() + project.reservoirs.len();
    let node = node as usize;
    if node < before {
        return None;
    }
    let number = node - before;
    if number < tanks.len() {
        return Some(tanks[number]);
    }
    None
}

fn is_full(state: Option<TankState>) -> bool
    ensures { result ≡ option_map_or is_full state false }
{
    match state {
        Some(TankState::Full) => true,
        _ => false,
    }
}

fn is_empty(state: Option<TankState>) -> bool
    ensures { result ≡ option_map_or is_empty state false }
{
    match state {
        Some(TankState::Empty) => true,
        _ => false,
    }
}

// The node is a tank that takes inflow where it is full.
fn overflows(project: &Project, node: u32) -> bool
    requires few { length project.now.junctions.list + length project.now.reservoirs.list ≤ 2 ^ 32 }
    ensures { result ≡ overflows project.now node }
{
    let before = project.junctions.len() + project.reservoirs.len();
    let node = node as usize;
    if node < before {
        return false;
    }
    let tanks = project.tanks.as_slice();
    let number = node - before;
    if number < tanks.len() {
        return tanks[number].overflow;
    }
    false
}

fn setting_of(project: &Project, tanks: &[TankState], link: &Link, state: &LinkState) -> Setting
    requires few { length project.now.junctions.list + length project.now.reservoirs.list ≤ 2 ^ 32 }
    ensures { result ≡ setting_of project.now tanks.now link.now state.now }
{
    let first = tank_state(project, tanks, link.from);
    let second = tank_state(project, tanks, link.to);
    let into_second = is_full(second) && !overflows(project, link.to);
    let into_first = is_full(first) && !overflows(project, link.from);
    Setting {
        state: *state,
        no_forward: into_second || is_empty(first),
        no_reverse: into_first || is_empty(second),
    }
}

/// Puts each link into the setting of its state, between tanks in theirs. Where a link is in that setting, nothing is
/// written. No memory is taken.
pub(crate) fn set_links(
    project: &Project,
    states: &[LinkState],
    tanks: &[TankState],
    settings: &mut [Setting],
    laws: &mut [BothLaws],
)
    requires sound { IsSound project.now }
    requires states { AreStates project.now states.now }
    requires each_setting { length settings.old ≡ length project.now.links.list }
    requires each_law { length laws.old ≡ length project.now.links.list }
    requires stand { AreBoth project.now project.now.links.list settings.old laws.old }
    requires free { AreFree (nodes_before_tanks project.now) (map ends_of project.now.links.list) laws.old }
    ensures count_settings { length settings.new ≡ length settings.old }
    ensures count_laws { length laws.new ≡ length laws.old }
    ensures stand { AreBoth project.now project.now.links.list settings.new laws.new }
    ensures free { AreFree (nodes_before_tanks project.now) (map ends_of project.now.links.list) laws.new }
    ensures set { AreSet project.now tanks.now project.now.links.list states.now settings.new
        (length project.now.links.list) }
{
    let links = project.links.as_slice();
    for i in 0..links.len() {
        let wanted = setting_of(project, tanks, &links[i], &states[i]);
        set_link(
            project,
            &links[i].kind,
            &wanted,
            &mut settings[i],
            &mut laws[i],
        );
    }
}
