//! Pipes among all rows.
#![tactic(auto)]

ghost use Rattle.std.specs.Prelude.{◌≡◌, ◌^◌, List, None, true};
ghost use Rattle.hyd_spec_lines.specs.Lines.{LiesIn, Row};
ghost use Rattle.hyd_num.specs.FileQuantity.{is_us_unit};
ghost use Rattle.hyd_option_and_rule_lines.specs.FaultOrValue.{words_at};
ghost use Rattle.hyd_capacities.specs.FileNumberRanges.{IsLength, IsDiameter, IsRoughness, IsMinorCoefficient};
ghost use Rattle.hyd_capacities.specs.FileNumberRanges.{IsPositiveUpTo};
ghost use Rattle.hyd_spec_input.specs.CapacitiesOutOfRange.{IsRefusedPipe, IsRefusedPowerPipe};
ghost use Rattle.hyd_spec_input.specs.FaultsWithOtherRows as others;
ghost use Rattle.hyd_spec_input.specs.OptionsAndTimesInForce as force;
ghost use Rattle.hyd_spec_input.specs.NodeAndLinkRows as row;
ghost use Rattle.hyd_spec_input.specs.SectionsAndTables.{node_rows};
ghost use Rattle.hyd_rows_and_tables.specs.WrongInSection.{IsCapacityFault, IsFaultThen};
ghost use Rattle.hyd_rows_and_tables.specs.IdTables.{IsTable, IsEven};
ghost use Rattle.hyd_judge_links_controls_and_rules.specs.LinkFaults as links;
ghost use Rattle.hyd_judge_links_controls_and_rules.specs.LinkFaults.{IsRefusedPipeOf};

use crate::id_and_ends::ends_fault;
use hyd_kept_capacities::KeptCapacities;
use hyd_lex::{Line, Lines};
use hyd_net::Cause;
use hyd_network_rows::{PipeRow, read_pipe_by};
use hyd_num::{Decimal, FlowUnit};
use hyd_rows_and_tables::Table;
use hyd_spec_power_laws::HazenWilliamsPipe;

const GREATEST_COEFFICIENT: i128 = 10_000 * 1_000_000_000;

// Limit 13 where the capacity of a pipe with Manning's coefficient is out of range.
fn capacity_fault(pipe: &PipeRow<'_>, us: bool, kept: &mut KeptCapacities) -> Option<Cause>
    requires length { IsLength pipe.now.length }
    requires diameter { IsDiameter pipe.now.diameter }
    requires roughness { IsRoughness pipe.now.roughness }
    requires minor { IsMinorCoefficient pipe.now.minor }
    ensures { IsCapacityFault (IsRefusedPipe pipe.now.length.nano pipe.now.diameter.nano pipe.now.roughness.nano
        pipe.now.minor.nano us) result }
{
    match kept.judged_pipe(pipe.length, pipe.diameter, pipe.roughness, pipe.minor, us) {
        Ok(_) => None,
        Err(_) => Some(Cause::Limit(13)),
    }
}

// Limit 13 where the capacity of a pipe with a Hazen-Williams coefficient is out of range.
fn power_capacity_fault(pipe: &PipeRow<'_>, us: bool, kept: &mut KeptCapacities) -> Option<Cause>
    requires length { IsLength pipe.now.length }
    requires diameter { IsDiameter pipe.now.diameter }
    requires coefficient { IsPositiveUpTo (10 ^ 4) pipe.now.roughness }
    ensures { IsCapacityFault (IsRefusedPowerPipe pipe.now.length.nano pipe.now.diameter.nano pipe.now.roughness.nano
        pipe.now.minor.nano us) result }
{
    let numbers = HazenWilliamsPipe {
        length: pipe.length,
        diameter: pipe.diameter,
        coefficient: pipe.roughness,
        minor: pipe.minor,
        us,
    };
    match kept.judged_power_pipe(numbers) {
        Ok(_) => None,
        Err(_) => Some(Cause::Limit(13)),
    }
}

// Whether a Hazen-Williams coefficient is above 0, up to 10,000.
fn is_coefficient(coefficient: Decimal) -> bool
    ensures { result ≡ others.is_coefficient coefficient.nano }
{
    1 <= coefficient.nano && coefficient.nano <= GREATEST_COEFFICIENT
}

// Range where the Hazen-Williams coefficient of a pipe is out of range, Limit 13 where its capacity is.
fn power_fault(pipe: &PipeRow<'_>, us: bool, kept: &mut KeptCapacities) -> Option<Cause>
    requires length { IsLength pipe.now.length }
    requires diameter { IsDiameter pipe.now.diameter }
    ensures { IsFaultThen (others.coefficient true pipe.now.roughness.nano) (IsRefusedPowerPipe pipe.now.length.nano
        pipe.now.diameter.nano pipe.now.roughness.nano pipe.now.minor.nano us) result }
{
    if !is_coefficient(pipe.roughness) {
        return Some(Cause::Range);
    }
    power_capacity_fault(pipe, us, kept)
}

/// What is wrong with a pipe that is right by itself, where losses are by Hazen-Williams or not. Its capacity is kept.
pub(crate) fn pipe_fault(
    text: &Lines<'_>,
    line: &Line,
    count: usize,
    new: bool,
    nodes: &Table,
    unit: FlowUnit,
    by_power: bool,
    kept: &mut KeptCapacities,
) -> Option<Cause>
    requires lies { LiesIn text.now.text line.now }
    requires even { IsEven nodes.now }
    requires right { row.pipe_by by_power (words_at text.now line.now) ≡ None }
    ensures { (rows : List Row) → IsTable text.now.text (node_rows rows) nodes.now
        → by_power ≡ force.has_hazen_williams rows
        → IsFaultThen (links.pipe_fault rows count new (words_at text.now line.now))
        (IsRefusedPipeOf rows (is_us_unit unit) (words_at text.now line.now)) result }
{
    let Ok(pipe) = read_pipe_by(text, line, by_power) else {
        return None;
    };
    if let Some(cause) = ends_fault(text, count, new, &pipe.ends, nodes) {
        return Some(cause);
    }
    if by_power {
        return power_fault(&pipe, unit.is_us(), kept);
    }
    capacity_fault(&pipe, unit.is_us(), kept)
}
