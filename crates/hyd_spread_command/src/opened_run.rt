//! The run for the spread of a text, at its start.

ghost use Rattle.std.specs.Prelude.{◌≡◌, None, IfOk, IfErr};
ghost use Rattle.hyd_net.specs.Sound.{IsSound};
ghost use Rattle.hyd_spec_open_spreads.specs.OpenRunsForSpreads.{open_standing_within};
ghost use Rattle.hyd_spec_spread_rows.specs.TextsOfSpreads.{spread_in};
ghost use Rattle.hyd_spread_rows.specs.SpreadsRead.{IfFault};
ghost use Rattle.hyd_spread_check.specs.PassedOn.{standing_of};
ghost use Rattle.hyd_spread_files.specs.RefusedSpreads.{GivesRun, IsSpreadFault};

use hyd_net::Project;
use hyd_spread_check::{OpenSettings, SpreadSim};
use hyd_spread_files::nets_fault;
use hyd_spread_rows::SpreadRefused;
use hyd_spread_start::read_start;
use std::alloc::Global;

/// A run of a network for the spread of a text, at its start, with all the memory that it will need. Fails with the
/// fault of the text, exactly where it has one, or for want of memory.
pub(crate) fn open_run(
    alloc: Global,
    project: Project,
    text: &[u8],
    settings: OpenSettings,
) -> Result<SpreadSim, SpreadRefused>
    requires sound { IsSound project }
    ensures fault { IfErr result (λ refused. IfFault refused (λ fault.
        IsSpreadFault project text.now fault.line fault.cause)) }
    ensures gives { IfOk result (λ sim. GivesRun project text.now) }
    ensures standing { IfOk result (λ sim. standing_of sim ≡ open_standing_within project sim.nets.spread) }
    ensures spread { IfOk result (λ sim. sim.nets.spread ≡ spread_in project text.now) }
    ensures running { IfOk result (λ sim. sim.stopped ≡ None) }
    ensures project { IfOk result (λ sim. sim.project ≡ project) }
    ensures settings { IfOk result (λ sim. sim.settings ≡ settings) }
{
    let start = read_start(alloc, &project, text)?;
    match SpreadSim::open(alloc, project, start, settings) {
        Ok(sim) => {
            // The nets are those of the network.
            let _project = sim.project();
            Ok(sim)
        }
        Err(unopened) => Err(nets_fault(&unopened.project, text, unopened.refused)),
    }
}
