//! How much a spread leaves open.
#![tactic(auto)]

ghost use Rattle.std.specs.Prelude.{◌≡◌, ◌<◌, ◌&&◌, ℤ, Some, is_some, map, slice_get, slice_index_or, length};
ghost use Rattle.hyd_net.specs.Sound.{IsSound};
ghost use Rattle.hyd_spec.specs.ProgramTypes.{Junction};
ghost use Rattle.hyd_spec_certificates.specs.Interval.{exactly};
ghost use Rattle.hyd_spec_spread.specs.Spreads.{one_alone, emitter_factors};
ghost use Rattle.hyd_spec_spread_rows.specs.TextsOfSpreads.{factors_from, interval_from};
ghost use Rattle.hyd_spec_spread_reports.specs.TextsOfSpreadReports.{are_several, is_wide};
ghost use Rattle.hyd_spec_spread_reports.specs.TextsOfSpreadReports.{demands_left, emitters_left, heads_left};
ghost use Rattle.hyd_spec_spread_reports.specs.TextsOfSpreadReports.{levels_left};
ghost use Rattle.hyd_spread_rows.specs.SpreadsRead.{spread_of};

use hyd_net::Project;
use hyd_spec_spread_rows::Ends;
use hyd_spread_rows::SpreadRows;

// Whether the factors of a junction are more than one.
fn are_several(factors: &[Ends], junction: usize) -> bool
    ensures { result ≡ are_several (slice_index_or (map factors_from factors.now) junction one_alone) }
{
    if junction < factors.len() {
        let ends = factors[junction];
        return ends.low.unsigned_abs() != ends.high.unsigned_abs();
    }
    false
}

// Whether the numbers of a node are more than one, where its own is one alone.
fn is_wide(intervals: &[Ends], node: usize) -> bool
    ensures { (own : ℤ) → result ≡ is_wide (slice_index_or (map interval_from intervals.now) node (exactly own)) }
{
    if node < intervals.len() {
        let ends = intervals[node];
        return ends.low != ends.high;
    }
    false
}

/// How many demands of junctions are left open.
pub(crate) fn demands_left(project: &Project, rows: &SpreadRows) -> u32
    requires { IsSound project.now }
    ensures { result ≡ demands_left project.now (spread_of rows.now) }
{
    let mut count = 0;
    for j in 0..project.junctions.len() {
        if are_several(&rows.demands, j) {
            count += 1;
        }
    }
    count
}

// Whether the coefficient of a junction's emitter is left open. Of a junction without one none is.
fn is_emitter_left(project: &Project, rows: &SpreadRows, junction: usize) -> bool
    requires { junction < length project.now.junctions.list }
    ensures { (j : Junction) → slice_get project.now.junctions.list junction ≡ Some j
        → result ≡ (is_some j.emitter && are_several (emitter_factors (spread_of rows.now) junction)) }
{
    project.junctions.as_slice()[junction].emitter.is_some()
        && are_several(&rows.emitters, junction)
}

/// How many coefficients of emitters are left open.
pub(crate) fn emitters_left(project: &Project, rows: &SpreadRows) -> u32
    requires { IsSound project.now }
    ensures { result ≡ emitters_left project.now (spread_of rows.now) }
{
    let mut count = 0;
    for j in 0..project.junctions.len() {
        if is_emitter_left(project, rows, j) {
            count += 1;
        }
    }
    count
}

/// How many heads of reservoirs are left open.
pub(crate) fn heads_left(project: &Project, rows: &SpreadRows) -> u32
    requires { IsSound project.now }
    ensures { result ≡ heads_left project.now (spread_of rows.now) }
{
    let mut count = 0;
    for r in 0..project.reservoirs.len() {
        if is_wide(&rows.heads, r) {
            count += 1;
        }
    }
    count
}

/// How many initial levels of tanks are left open.
pub(crate) fn levels_left(project: &Project, rows: &SpreadRows) -> u32
    requires { IsSound project.now }
    ensures { result ≡ levels_left project.now (spread_of rows.now) }
{
    let mut count = 0;
    for k in 0..project.tanks.len() {
        if is_wide(&rows.levels, k) {
            count += 1;
        }
    }
    count
}
