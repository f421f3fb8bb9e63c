//! The volumes that are kept of tanks.
#![tactic(auto)]

ghost use Rattle.std.specs.Prelude.{◌≡◌, ◌^◌, ◌≤◌, ◌<◌, Some, length, slice_get, unsigned_abs};
ghost use Rattle.hyd_net.specs.Sound.{IsSound};
ghost use Rattle.hyd_spec.specs.ProgramTypes.{Tank};
ghost use Rattle.hyd_spec.specs.Tank.{kept_volume, walls_of};

use hyd_net::Project;
use hyd_num::Span;
use hyd_tank::{VolumeSpan, initial_stock, stock_at};

/// More than a tank takes or gives in `LONG` seconds, in flow ticks.
const GREAT_INFLOW: i128 = 1_000_000_000_000_000_000_000_000_000;

/// Some seconds.
const LONG: u32 = 100_000_000;

/// The volumes that are kept of a tank at its minimum and at its maximum: those to which a great inflow empties and
/// fills it.
pub(crate) fn kept_volumes(project: &Project, tank: u32) -> VolumeSpan
    requires sound { IsSound project.now }
    requires tank { tank < length project.now.tanks.list }
    ensures least { (each : Tank) → slice_get project.now.tanks.list tank ≡ Some each
        → result.lo ≡ kept_volume (walls_of project.now each) each.minimum }
    ensures most { (each : Tank) → slice_get project.now.tanks.list tank ≡ Some each
        → result.hi ≡ kept_volume (walls_of project.now each) each.maximum }
    ensures least_small { unsigned_abs result.lo ≤ 10 ^ 18 }
    ensures most_small { unsigned_abs result.hi ≤ 10 ^ 18 }
{
    let stock = initial_stock(project, tank);
    let either_way = Span {
        lo: -GREAT_INFLOW,
        hi: GREAT_INFLOW,
    };
    stock_at(project, tank, stock, either_way, LONG).volume
}
