//! What a run for the spread of a text begins with, or the fault of the text.
#![tactic(auto)]

ghost use Rattle.std.specs.Prelude.{◌≡◌, IfOk, IfErr};
ghost use Rattle.hyd_net.specs.Sound.{IsSound};
ghost use Rattle.hyd_spec_spread.specs.Spreads.{no_spread};
ghost use Rattle.hyd_spec_spread_rows.specs.TextsOfSpreads.{spread_in};
ghost use Rattle.hyd_spec_spread_starts.specs.StartsOfSpreads.{IsFaultForRun, CanBegin};
ghost use Rattle.hyd_spread_rows.specs.SpreadsRead.{IfFault, spread_of};
ghost use Rattle.hyd_spread_start.specs.StartsOfRuns.{BeginsRun};

use crate::run_at_start::first_standing;
use hyd_net::{OutOfMemory, Project};
use hyd_open_sim_start::{Standing, first_standing as first_alone};
use hyd_spread_rows::{SpreadRefused, SpreadRows, read_spread};
use std::alloc::Global;

/// What a run for a spread begins with: the spread, and the standing at the start.
#[derive(Drop)]
pub struct SpreadStart {
    pub rows: SpreadRows,
    pub standing: Standing,
}

/// What a run for the spread of a text begins with. Fails with the first fault of the text, or where it has none with
/// the one at the start: Range, in the line of the row that counts for the first tank that it leaves open there; or for
/// want of memory.
pub fn read_start(
    alloc: Global,
    project: &Project,
    text: &[u8],
) -> Result<SpreadStart, SpreadRefused>
    requires { IsSound project.now }
    ensures fault { IfErr result (λ refused. IfFault refused (λ f. IsFaultForRun project.now text.now f.line f.cause)) }
    ensures begins { IfOk result (λ _. CanBegin project.now text.now) }
    ensures spread { IfOk result (λ start. spread_of start.rows ≡ spread_in project.now text.now) }
    ensures run { IfOk result (BeginsRun project.now) }
{
    let rows = read_spread(alloc, project, text)?;
    let standing = first_standing(alloc, project, &rows, text)?;
    Ok(SpreadStart { rows, standing })
}

/// What a run without a spread begins with.
pub fn start_without_spread(alloc: Global, project: &Project) -> Result<SpreadStart, OutOfMemory>
    requires { IsSound project.now }
    ensures spread { IfOk result (λ start. spread_of start.rows ≡ no_spread) }
    ensures run { IfOk result (BeginsRun project.now) }
{
    let standing = first_alone(alloc, project)?;
    let rows = SpreadRows {
        demands: Vec::new(alloc),
        emitters: Vec::new(alloc),
        heads: Vec::new(alloc),
        levels: Vec::new(alloc),
    };
    Ok(SpreadStart { rows, standing })
}
