//! The start of a period: pump patterns and simple controls.
#![tactic(auto)]

ghost use Rattle.std.specs.Prelude.{◌≡◌, ◌+◌, ◌≤◌, ◌<◌, ℕ, ℤ, List, ◌++◌, length, map, is_some, IfSome, IfErr, OnOk};
ghost use Rattle.std.specs.Prelude.{OnErr};
ghost use Rattle.hyd_net.specs.Sound.{IsSound};
ghost use Rattle.hyd_spec.specs.NodeNumbers.{tank_count};
ghost use Rattle.hyd_spec.specs.PumpPatternsAndSimpleControls.{speed_state, is_pattern_boundary, patterned_state};
ghost use Rattle.hyd_spec.specs.PumpPatternsAndSimpleControls.{patterned};
ghost use Rattle.hyd_spec.specs.PumpPatternsAndSimpleControls.{control_acts};
ghost use Rattle.hyd_spec.specs.PumpPatternsAndSimpleControls.{controlled, started, acts_at};
ghost use Rattle.hyd_spec_certificates.specs.SpansAsIntervals.{levels_of};
ghost use Rattle.hyd_spec_certificates.specs.Decided.{acts_on, control_truth};
ghost use Rattle.hyd_spec_certificates.specs.Valid.{ControlsAreDecided};
ghost use Rattle.hyd_spec_certificates.specs.ChangesAtStart.{control_changes, start_changes};
ghost use Rattle.hyd_spec_certificates.specs.Stops.{is_open_control};
ghost use Rattle.hyd_theorems_on_histories.specs.PassedOn.{LevelsLie};
ghost use Rattle.hyd_controls_and_rules.specs.PumpPatternsAndSimpleControls.{pattern_of, HasPatternThere, IsTankThere};
ghost use Rattle.hyd_controls_and_rules.specs.PumpPatternsAndSimpleControls.{IsLevelOf};
ghost use Rattle.hyd_controls_and_rules.specs.PumpPatternsAndSimpleControls.{IsFirstOpen};

use crate::changes::Changes;
use crate::logic::{at_both_ends, is_unknown, is_yes};
use crate::state_comparison::is_same_state;
use crate::time_of_day::clock_at;
use hyd_demands_and_reservoir_heads::multiplier_at;
use hyd_net::{Control, Link, LinkKind, LinkState, Project, When};
use hyd_spec::{Change, Source};
use hyd_spec_certificates::{LevelSpan, Verdict};

/// The first level control that both ends of its tank's level interval disagree on. Controls are counted from 0.
#[derive(Clone, Copy, Drop)]
pub struct LevelOpen {
    /// Its number among the controls.
    pub control: u32,
    /// The lower end of its tank's level interval, in head ticks.
    pub lo: i64,
    /// The upper end.
    pub hi: i64,
}

// ---- pump patterns

fn pattern_of(kind: &LinkKind) -> Option<u32>
    ensures { result ≡ pattern_of kind.now }
{
    match kind {
        LinkKind::Pump { pattern, .. } => *pattern,
        LinkKind::CurvePump { pattern, .. } => *pattern,
        LinkKind::Pipe(_) | LinkKind::CheckPipe(_) => None,
        LinkKind::Tcv { .. } | LinkKind::Fcv { .. } | LinkKind::Gpv { .. } => None,
    }
}

// A pump at a speed in billionths.
fn speed_state(nano: i64) -> LinkState
    ensures { result ≡ speed_state nano }
{
    if nano <= 0 {
        return LinkState::Closed;
    }
    LinkState::Speed(nano)
}

// Pumps take their pattern's multiplier at time 0 and where a step of the patterns begins.
fn is_pattern_boundary(project: &Project, time: u32) -> bool
    requires { 1 ≤ project.now.times.pattern }
    ensures { result ≡ is_pattern_boundary project.now time }
{
    let passed = u64::from(time) + u64::from(project.times.pattern_start);
    time == 0 || passed % u64::from(project.times.pattern) == 0
}

fn patterned_state(project: &Project, time: u32, link: &Link, state: LinkState) -> LinkState
    requires sound { IsSound project.now }
    requires there { HasPatternThere project.now link.now.kind }
    ensures { result ≡ patterned_state project.now time link.now state }
{
    match pattern_of(&link.kind) {
        Some(pattern) => speed_state(multiplier_at(project, pattern, time)),
        None => state,
    }
}

fn set_pumps(project: &Project, time: u32, links: &mut [LinkState])
    requires sound { IsSound project.now }
    requires each_link { length links.old ≡ length project.now.links.list }
    ensures { links.new ≡ patterned project.now time links.old }
{
    if !is_pattern_boundary(project, time) {
        return;
    }
    let all = project.links.as_slice();
    for number in 0..links.len() {
        links[number] = patterned_state(project, time, &all[number], links[number]);
    }
}

// ---- controls

// ABOVE means at least, and BELOW at most.
fn level_verdict(level: &LevelSpan, above: bool, ticks: i64) -> Verdict
    ensures { result ≡ control_truth (levels_of level.now) above ticks }
{
    if above {
        at_both_ends(level.lo >= ticks, level.hi >= ticks)
    } else {
        at_both_ends(level.lo <= ticks, level.hi <= ticks)
    }
}

// The level interval of a level control's tank, where the control is open.
fn open_level(levels: &[LevelSpan], control: &Control) -> Option<LevelSpan>
    requires { IsTankThere (length levels.now) control.now.when }
    ensures is_open { is_some result ≡ is_open_control (map levels_of levels.now) control.now }
    ensures level { IfSome result (IsLevelOf levels.now control.now) }
{
    let When::Level { tank, above, ticks } = control.when else {
        return None;
    };
    let level = levels[tank as usize];
    if is_unknown(level_verdict(&level, above, ticks)) {
        return Some(level);
    }
    None
}

/// Whether each level control is decided at the level intervals of tanks (head ticks above their bottoms). Fails with
/// [`LevelOpen`], the first one that isn't, exactly where one isn't.
pub fn find_open(project: &Project, levels: &[LevelSpan]) -> Result<(), LevelOpen>
    requires sound { IsSound project.now }
    requires each_level { length levels.now ≡ tank_count project.now }
    ensures decided { OnOk result (ControlsAreDecided project.now (map levels_of levels.now)) }
    ensures open { IfErr result (IsFirstOpen project.now levels.now) }
{
    let controls = project.controls.as_slice();
    for (number, control) in controls.iter().enumerate() {
        if let Some(level) = open_level(levels, control) {
            return Err(LevelOpen {
                control: number as u32,
                lo: level.lo,
                hi: level.hi,
            });
        }
    }
    Ok(())
}

fn acts(project: &Project, time: u32, levels: &[LevelSpan], when: &When) -> bool
    requires { IsTankThere (length levels.now) when.now }
    ensures { result ≡ control_acts project.now time (acts_on (map levels_of levels.now)) when.now }
{
    match when {
        When::Level { tank, above, ticks } => {
            let level = levels[*tank as usize];
            is_yes(level_verdict(&level, *above, *ticks))
        }
        When::Time(at) => *at == time,
        When::Clock(at) => *at == clock_at(project, time),
    }
}

// Carries out the controls that act, in order, a later one overriding.
fn carry_out(
    project: &Project,
    time: u32,
    levels: &[LevelSpan],
    links: &mut [LinkState],
    changes: &mut Changes,
)
    requires sound { IsSound project.now }
    requires each_level { length levels.now ≡ tank_count project.now }
    requires each_link { length links.old ≡ length project.now.links.list }
    requires room { length project.now.controls.list ≤ changes.old.spare }
    ensures links { links.new ≡ controlled project.now time (acts_on (map levels_of levels.now)) links.old }
    ensures rows { let acts = acts_on (map levels_of levels.now) in
        changes.new.list ≡ changes.old.list
        ++ control_changes project.now time acts 0 project.now.controls.list links.old }
    ensures spare { changes.old.spare + length changes.old.list ≡ changes.new.spare + length changes.new.list }
    ensures most { length changes.new.list ≤ length changes.old.list + length project.now.controls.list }
{
    let controls = project.controls.as_slice();
    for (number, control) in controls.iter().enumerate() {
        if !acts(project, time, levels, &control.when) {
            continue;
        }
        let link = control.link as usize;
        if !is_same_state(&links[link], &control.to) {
            changes.push(Change {
                source: Source::Control(number as u32),
                link: control.link,
                to: control.to,
            });
        }
        links[link] = control.to;
    }
}

/// The start of a period at a time in seconds, from the states that links were commanded to be in (EPANET 2.2 User
/// Manual, chapter 3, controls): each pump with a pattern takes its multiplier as speed at time 0 and where a step of
/// the patterns begins, and then the simple controls are carried out in order, a later one overriding. ABOVE means at
/// least, and BELOW at most. A row is appended for each control that changes the state of its link. It takes no memory.
/// The links are then as they start at all exact levels of the intervals, at every scale.
///
/// Fails with [`LevelOpen`] exactly where both ends of a tank's level interval disagree on a level control; links and
/// changes are then as before.
pub fn settle(
    project: &Project,
    time: u32,
    levels: &[LevelSpan],
    links: &mut [LinkState],
    changes: &mut Changes,
) -> Result<(), LevelOpen>
    requires sound { IsSound project.now }
    requires each_level { length levels.now ≡ tank_count project.now }
    requires each_link { length links.old ≡ length project.now.links.list }
    requires room { length project.now.controls.list ≤ changes.old.spare }

    // At each start of which all controls are decided.
    ensures decided { OnOk result (ControlsAreDecided project.now (map levels_of levels.now)) }
    ensures links { OnOk result (links.new
        ≡ started project.now time (acts_on (map levels_of levels.now)) links.old) }
    ensures holds { (S : ℕ) (exact : List ℤ) → 0 < S → LevelsLie S (map levels_of levels.now) exact
        → OnOk result (links.new ≡ started project.now time (acts_at S exact) links.old) }
    ensures rows { OnOk result (changes.new.list ≡ changes.old.list
        ++ start_changes project.now time (acts_on (map levels_of levels.now)) links.old) }
    ensures spare { OnOk result (changes.old.spare + length changes.old.list
        ≡ changes.new.spare + length changes.new.list) }
    ensures most { OnOk result (length changes.new.list
        ≤ length changes.old.list + length project.now.controls.list) }

    // At any other.
    ensures open { IfErr result (IsFirstOpen project.now levels.now) }
    ensures same_links { OnErr result (links.new ≡ links.old) }
    ensures same_changes { OnErr result (changes.new ≡ changes.old) }
{
    find_open(project, levels)?;
    set_pumps(project, time, links);
    carry_out(project, time, levels, links, changes);
    Ok(())
}
