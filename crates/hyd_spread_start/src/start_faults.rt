//! The fault of a text that leaves a tank open at the start.
#![tactic(auto)]

ghost use Rattle.hyd_net.specs.Sound.{IsSound};
ghost use Rattle.hyd_spec_spread.specs.IntervalsOfData.{known_levels};
ghost use Rattle.hyd_spec_spread_rows.specs.TextsOfSpreads.{HasNoFault, spread_in};
ghost use Rattle.hyd_spec_spread_starts.specs.StartsOfSpreads.{IsOpenTank, IsFaultAtStart};

use hyd_net::{Cause, Project};
use hyd_spread_rows::{SpreadFault, level_line};

/// The fault of a text that leaves a tank, counted from 0, open at the start: Range, in the line of the row that counts
/// for it. The text has no other fault.
pub(crate) fn start_fault(project: &Project, text: &[u8], tank: u32) -> SpreadFault
    requires sound { IsSound project.now }
    requires no_other { HasNoFault project.now text.now }
    requires open { IsOpenTank project.now (known_levels project.now (spread_in project.now text.now)) tank }
    ensures { IsFaultAtStart project.now text.now result.line result.cause }
{
    match level_line(project, text, tank) {
        Some(line) => SpreadFault {
            line,
            cause: Cause::Range,
        },
        None => unreachable!(),
    }
}
