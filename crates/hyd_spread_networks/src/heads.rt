//! Heads of reservoirs in the outermost networks.
#![tactic(auto)]

ghost use Rattle.std.specs.Prelude.{◌≡◌, ◌<◌, ◌≤◌, ◌*◌, ◌^◌, ◌*ℤ◌, map, All, OnOk, IfErr, length, unsigned_abs};
ghost use Rattle.std.specs.Bool.{OnTrue, OnFalse};
ghost use Rattle.hyd_net.specs.NumberRanges.{IsHead, LiesWithin, head_limit};
ghost use Rattle.hyd_net.specs.NetworkRanges.{IsReservoir};
ghost use Rattle.hyd_net.specs.Sound.{IsSound};
ghost use Rattle.hyd_spec.specs.WholeNumbers.{cut};
ghost use Rattle.hyd_spec.specs.DemandsHeadsAndPumpLifts.{multipliers_of};
ghost use Rattle.hyd_spec.specs.Lists.{Each};
ghost use Rattle.hyd_spec_certificates.specs.PeriodNetwork.{end_on};
ghost use Rattle.hyd_spec_certificates.specs.declared.Side.TheVariants.{Upper, Lower};
ghost use Rattle.hyd_spec_spread.specs.IntervalsOfData.{known_heads};
ghost use Rattle.hyd_spec_spread_rows.specs.TextsOfSpreads.{interval_from};
ghost use Rattle.hyd_spread_rows.specs.SpreadsRead.{spread_of, AreInRange};
ghost use Rattle.hyd_spread_networks.specs.HeadsBySpreads.{StaysHead, AllStay, HeadsStay};
ghost use Rattle.hyd_spec_spread_rows.specs.RangesOfEnds.{AreOffsets};
ghost use Rattle.hyd_spread_networks.specs.RefusedSpreads.{IsRefusedFor};

use crate::ends::offsets_at;
use crate::fault::SpreadNetsRefused;
use hyd_demands_and_reservoir_heads::head_at;
use hyd_net::ranges::GREATEST_HEAD;
use hyd_net::{Project, Reservoir};
use hyd_spec_spread_rows::Ends;
use hyd_spread_rows::SpreadRows;

// A head times a number of billionths, cut toward zero.
fn times(head: i64, billionths: i64) -> i128
    requires { unsigned_abs head * unsigned_abs billionths ≤ 10 ^ 26 }
    ensures value { result ≡ cut (head *ℤ billionths) (10 ^ 9) }
    ensures small { unsigned_abs result * 10 ^ 9 ≤ unsigned_abs head * unsigned_abs billionths }
{
    i128::from(head) * i128::from(billionths) / 1_000_000_000
}

// Whether a head stays in range, however far off it is.
fn stays(head: i128, offsets: Ends) -> bool
    requires head { IsHead head }
    requires offsets { AreOffsets offsets }
    ensures yes { OnTrue result (StaysHead (interval_from offsets) head) }
    ensures no { OnFalse result (StaysHead (interval_from offsets) head → ⊥) }
{
    if head + offsets.low < -GREATEST_HEAD {
        return false;
    }
    if head + offsets.high > GREATEST_HEAD {
        return false;
    }
    true
}

// Whether a head does, times each of these multipliers.
fn all_stay(head: i64, multipliers: &[i64], offsets: Ends) -> bool
    requires range { All (λ m. LiesWithin (head_limit * 10 ^ 9) (head *ℤ m)) multipliers.now }
    requires offsets { AreOffsets offsets }
    ensures yes { OnTrue result (All (λ m. StaysHead (interval_from offsets) (cut (head *ℤ m) (10 ^ 9)))
        multipliers.now) }
    ensures no { OnFalse result (All (λ m. StaysHead (interval_from offsets) (cut (head *ℤ m) (10 ^ 9)))
        multipliers.now → ⊥) }
{
    for i in 0..multipliers.len() {
        if !stays(times(head, multipliers[i]), offsets) {
            return false;
        }
    }
    true
}

fn multipliers_of(project: &Project, pattern: u32) -> &[i64]
    requires { pattern < length project.now.patterns.list }
    ensures { result.now ≡ multipliers_of project.now pattern }
{
    project.patterns.as_slice()[pattern as usize]
        .multipliers
        .as_slice()
}

// Whether each head of a reservoir does.
fn stays_at(project: &Project, reservoir: &Reservoir, offsets: Ends) -> bool
    requires sound { IsSound project.now }
    requires reservoir { IsReservoir project.now.patterns.list reservoir.now }
    requires offsets { AreOffsets offsets }
    ensures yes { OnTrue result (AllStay project.now (interval_from offsets) reservoir.now) }
    ensures no { OnFalse result (AllStay project.now (interval_from offsets) reservoir.now → ⊥) }
{
    match reservoir.pattern {
        None => stays(i128::from(reservoir.head), offsets),
        Some(pattern) => all_stay(reservoir.head, multipliers_of(project, pattern), offsets),
    }
}

/// Fails with the first reservoir that has a head which leaves the range of heads by its offsets.
pub(crate) fn judge_heads(project: &Project, rows: &SpreadRows) -> Result<(), SpreadNetsRefused>
    requires sound { IsSound project.now }
    requires range { AreInRange rows.now }
    ensures stay { OnOk result (Each project.now.reservoirs.list (HeadsStay project.now (spread_of rows.now))) }
    ensures refused { IfErr result (IsRefusedFor project.now (spread_of rows.now)) }
{
    let reservoirs = project.reservoirs.as_slice();
    for place in 0..reservoirs.len() {
        if !stays_at(project, &reservoirs[place], offsets_at(&rows.heads, place)) {
            return Err(SpreadNetsRefused::Head(place as u32));
        }
    }
    Ok(())
}

/// Writes the least and the greatest head of each reservoir at a time.
pub(crate) fn put_heads(
    project: &Project,
    time: u32,
    rows: &SpreadRows,
    least: &mut [i64],
    greatest: &mut [i64],
)
    requires sound { IsSound project.now }
    requires range { AreInRange rows.now }
    requires stay { Each project.now.reservoirs.list (HeadsStay project.now (spread_of rows.now)) }
    requires each_least { length least.old ≡ length project.now.reservoirs.list }
    requires each_greatest { length greatest.old ≡ length project.now.reservoirs.list }
    ensures least { least.new ≡ map (end_on Lower) (known_heads project.now (spread_of rows.now) time) }
    ensures greatest { greatest.new ≡ map (end_on Upper) (known_heads project.now (spread_of rows.now) time) }
    ensures least_range { All IsHead least.new }
    ensures greatest_range { All IsHead greatest.new }
{
    for place in 0..least.len() {
        let head = i128::from(head_at(project, place as u32, time));
        let offsets = offsets_at(&rows.heads, place);
        least[place] = (head + offsets.low) as i64;
        greatest[place] = (head + offsets.high) as i64;
    }
}
