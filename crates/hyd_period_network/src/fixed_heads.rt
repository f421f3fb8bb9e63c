//! Heads of reservoirs and tanks.
#![tactic(auto)]

ghost use Rattle.std.specs.Prelude.{◌≡◌, pos, ◌+ℤ◌, ◌≤ℤ◌, length, map, All};
ghost use Rattle.hyd_net.specs.NumberRanges.{IsHead};
ghost use Rattle.hyd_net.specs.Sound.{IsSound};
ghost use Rattle.hyd_spec.specs.DemandsHeadsAndPumpLifts.{reservoir_head};
ghost use Rattle.hyd_spec_certificates.specs.SpansAsIntervals.{levels_of};
ghost use Rattle.hyd_spec_certificates.specs.PeriodNetwork.{tank_intervals};
ghost use Rattle.hyd_period_network.specs.SoundNets.{AreHeads};
ghost use Rattle.hyd_period_network.specs.NetsSetToPeriods.{AreLevels, IsSpanOf, HasHeads};

use hyd_demands_and_reservoir_heads::head_at;
use hyd_net::{Project, Tank};
use hyd_spec_certificates::LevelSpan;

// Writes a head where another is held.
fn set_head(head: &mut i64, wanted: i64)
    ensures { head.new ≡ wanted }
{
    if *head != wanted {
        *head = wanted;
    }
}

// Writes a tank's heads where others are held.
fn set_heads(heads: &mut LevelSpan, wanted: LevelSpan)
    ensures { heads.new ≡ wanted }
{
    set_head(&mut heads.lo, wanted.lo);
    set_head(&mut heads.hi, wanted.hi);
}

/// Makes the head of each reservoir that at a time.
pub(crate) fn set_reservoirs(project: &Project, time: u32, heads: &mut [i64])
    requires sound { IsSound project.now }
    requires each { length heads.old ≡ length project.now.reservoirs.list }
    ensures count { length heads.new ≡ length heads.old }
    ensures set { heads.new ≡ map (reservoir_head project.now time) project.now.reservoirs.list }
    ensures range { All IsHead heads.new }
{
    for i in 0..heads.len() {
        set_head(&mut heads[i], head_at(project, i as u32, time));
    }
}

// A tank's heads: its bottom plus its levels.
fn heads_of(tank: &Tank, levels: &LevelSpan) -> LevelSpan
    requires bottom { IsHead tank.now.bottom }
    requires top { IsHead (tank.now.bottom +ℤ tank.now.maximum) }
    requires lowest { pos 0 ≤ℤ tank.now.minimum }
    requires levels { IsSpanOf tank.now levels.now }
    ensures { HasHeads tank.now levels.now result }
{
    LevelSpan {
        lo: levels.lo + tank.bottom,
        hi: levels.hi + tank.bottom,
    }
}

/// Makes the heads of each tank those at its levels.
pub(crate) fn set_tanks(project: &Project, levels: &[LevelSpan], heads: &mut [LevelSpan])
    requires sound { IsSound project.now }
    requires levels { AreLevels project.now levels.now }
    requires each { length heads.old ≡ length project.now.tanks.list }
    ensures count { length heads.new ≡ length heads.old }
    ensures set { map levels_of heads.new ≡ tank_intervals project.now.tanks.list (map levels_of levels.now) }
    ensures range { All AreHeads heads.new }
{
    let tanks = project.tanks.as_slice();
    for i in 0..tanks.len() {
        set_heads(&mut heads[i], heads_of(&tanks[i], &levels[i]));
    }
}
