//! The start of a period: pump patterns and simple controls.
#![tactic(auto)]

ghost use Rattle.std.specs.Prelude.{◌≡◌, ◌≤◌, ◌^◌, ◌<◌, length, unsigned_abs};
ghost use Rattle.hyd_net.specs.Sound.{IsSound};
ghost use Rattle.hyd_net.specs.ControlsAndRules.{IsMoment};
ghost use Rattle.hyd_num.specs.Rational.{whole};
ghost use Rattle.hyd_spec.specs.NodeNumbers.{tank_count};
ghost use Rattle.hyd_spec.specs.Tank.{reaches};
ghost use Rattle.hyd_spec.specs.PumpPatternsAndSimpleControls.{speed_state, is_pattern_boundary, patterned_state};
ghost use Rattle.hyd_spec.specs.PumpPatternsAndSimpleControls.{patterned, control_acts, controlled, started, acts_at};
ghost use Rattle.hyd_laws_at_scale.specs.Scales.{parts_of};
ghost use Rattle.hyd_controls_and_rules.specs.PumpPatternsAndSimpleControls.{pattern_of, HasPatternThere};

use crate::times::clock_at;
use hyd_demands_and_reservoir_heads::multiplier_at;
use hyd_laws_at_scale::Scale;
use hyd_met_flows::number_at;
use hyd_net::{Link, LinkKind, LinkState, Project, When};

// ---- pump patterns

fn pattern_of(kind: &LinkKind) -> Option<u32>
    ensures { result ≡ pattern_of kind.now }
{
    match kind {
        LinkKind::Pump { pattern, .. } => *pattern,
        LinkKind::CurvePump { pattern, .. } => *pattern,
        LinkKind::Pipe(_) | LinkKind::CheckPipe(_) => None,
        LinkKind::Tcv { .. } | LinkKind::Fcv { .. } | LinkKind::Gpv { .. } => None,
    }
}

// A pump at a speed in billionths.
fn speed_state(nano: i64) -> LinkState
    ensures { result ≡ speed_state nano }
{
    if nano <= 0 {
        return LinkState::Closed;
    }
    LinkState::Speed(nano)
}

// Pumps take their pattern's multiplier at time 0 and where a step of the patterns begins.
fn is_pattern_boundary(project: &Project, time: u32) -> bool
    requires { 1 ≤ project.now.times.pattern }
    ensures { result ≡ is_pattern_boundary project.now time }
{
    let passed = u64::from(time) + u64::from(project.times.pattern_start);
    time == 0 || passed % u64::from(project.times.pattern) == 0
}

fn patterned_state(project: &Project, time: u32, link: &Link, state: LinkState) -> LinkState
    requires sound { IsSound project.now }
    requires there { HasPatternThere project.now link.now.kind }
    ensures { result ≡ patterned_state project.now time link.now state }
{
    match pattern_of(&link.kind) {
        Some(pattern) => speed_state(multiplier_at(project, pattern, time)),
        None => state,
    }
}

fn set_pumps(project: &Project, time: u32, links: &mut [LinkState])
    requires sound { IsSound project.now }
    requires each_link { length links.old ≡ length project.now.links.list }
    ensures { links.new ≡ patterned project.now time links.old }
{
    if !is_pattern_boundary(project, time) {
        return;
    }
    let all = project.links.as_slice();
    for number in 0..links.len() {
        links[number] = patterned_state(project, time, &all[number], links[number]);
    }
}

// ---- simple controls

// A level (parts of a head tick) has reached a target (head ticks): ABOVE means at least, and BELOW at most.
fn reaches(scale: Scale, above: bool, ticks: i64, level: i128) -> bool
    requires { unsigned_abs ticks ≤ 10 ^ 18 }
    ensures { result ≡ reaches (parts_of scale) above ticks (whole level) }
{
    let target = scale.in_parts(i128::from(ticks));
    if above {
        level >= target
    } else {
        level <= target
    }
}

fn acts(project: &Project, scale: Scale, time: u32, levels: &[i128], when: &When) -> bool
    requires moment { IsMoment project.now when.now }
    requires each_level { length levels.now ≡ tank_count project.now }
    ensures { result ≡ control_acts project.now time (acts_at (parts_of scale) levels.now) when.now }
{
    match when {
        When::Level { tank, above, ticks } => {
            let level = number_at(levels, *tank as usize);
            reaches(scale, *above, *ticks, level)
        }
        When::Time(at) => *at == time,
        When::Clock(at) => *at == clock_at(project, time),
    }
}

// Carries out the controls that act, in order, a later one overriding.
fn carry_out(project: &Project, scale: Scale, time: u32, levels: &[i128], links: &mut [LinkState])
    requires sound { IsSound project.now }
    requires each_level { length levels.now ≡ tank_count project.now }
    requires each_link { length links.old ≡ length project.now.links.list }
    ensures { links.new ≡ controlled project.now time (acts_at (parts_of scale) levels.now) links.old }
{
    let controls = project.controls.as_slice();
    for control in controls {
        if acts(project, scale, time, levels, &control.when) {
            links[control.link as usize] = control.to;
        }
    }
}

/// The start of a period at a time in seconds, from the states that links were commanded to be in, where tanks have
/// these levels (parts of a head tick): each pump with a pattern takes its multiplier as speed at time 0 and where a
/// step of the patterns begins, and then the simple controls are carried out in order, a later one overriding. ABOVE
/// means at least, and BELOW at most. (EPANET 2.2 User Manual, chapter 3, controls.) It takes no memory.
pub fn start_links(
    project: &Project,
    scale: Scale,
    time: u32,
    levels: &[i128],
    links: &mut [LinkState],
)
    requires sound { IsSound project.now }
    requires each_level { length levels.now ≡ tank_count project.now }
    requires each_link { length links.old ≡ length project.now.links.list }
    ensures { links.new ≡ started project.now time (acts_at (parts_of scale) levels.now) links.old }
{
    set_pumps(project, time, links);
    carry_out(project, scale, time, levels, links);
}
