//! The states of links at the start of the first period.
#![tactic(auto)]

ghost use Rattle.std.specs.Prelude.{◌≡◌, length, map, IfOk};
ghost use Rattle.hyd_net.specs.Sound.{IsSound};
ghost use Rattle.hyd_spec.specs.NodeNumbers.{tank_count};
ghost use Rattle.hyd_spec.specs.PumpPatternsAndSimpleControls.{started};
ghost use Rattle.hyd_spec.specs.History.{initial_links};
ghost use Rattle.hyd_spec_certificates.specs.SpansAsIntervals.{levels_of};
ghost use Rattle.hyd_spec_certificates.specs.Decided.{acts_on};
ghost use Rattle.hyd_spec_certificates.specs.Valid.{ControlsAreDecided};

use hyd_controls_and_rules::{Changes, settle};
use hyd_net::{LinkState, OutOfMemory, Project};
use hyd_spec_certificates::LevelSpan;
use std::alloc::Global;

// The states that the file gives them.
fn states_of_file(alloc: Global, project: &Project) -> Result<Vec<LinkState>, OutOfMemory>
    ensures { IfOk result (λ states. states.items ≡ initial_links project.now) }
{
    let links = project.links.as_slice();
    let mut states = Vec::new(alloc);
    for place in 0..links.len() {
        states.push(links[place].start)?;
    }
    Ok(states)
}

/// The states that pump patterns and controls give links at time 0, a state for each link, with tanks at levels (head
/// ticks above their bottoms, a span for each tank) that decide each control. Fails where memory is wanting.
pub fn states_at_start(
    alloc: Global,
    project: &Project,
    levels: &[LevelSpan],
) -> Result<Vec<LinkState>, OutOfMemory>
    requires sound { IsSound project.now }
    requires each_level { length levels.now ≡ tank_count project.now }
    requires decided { ControlsAreDecided project.now (map levels_of levels.now) }
    ensures states { IfOk result (λ states. states.items
        ≡ started project.now 0 (acts_on (map levels_of levels.now)) (initial_links project.now)) }
    ensures each { IfOk result (λ states. length states.items ≡ length project.now.links.list) }
{
    let mut states = states_of_file(alloc, project)?;
    let mut changes = Changes::open(alloc, project)?;
    if settle(project, 0, levels, &mut states, &mut changes).is_err() {
        unreachable!()
    }
    Ok(states)
}
