//! Pipes as their rows make them, with a check valve or without.
#![tactic(auto)]

ghost use Rattle.std.specs.Prelude.{◌≡◌, ◌^◌, List, true, false};
ghost use Rattle.hyd_spec_lines.specs.Lines.{Row, row_of};
ghost use Rattle.hyd_spec_lines.specs.declared.section.Section.TheVariants.{Pipes};
ghost use Rattle.hyd_capacities.specs.FileNumberRanges.{IsLength, IsDiameter, IsRoughness, IsMinorCoefficient};
ghost use Rattle.hyd_capacities.specs.FileNumberRanges.{IsPositiveUpTo};
ghost use Rattle.hyd_network_rows.specs.Rows.{IsPipeRow, pipe_status};
ghost use Rattle.hyd_spec_input.specs.CapacitiesOutOfRange.{IsRefusedPipe, IsRefusedPowerPipe, IsRefusedPipeBy};
ghost use Rattle.hyd_spec_input.specs.OptionsAndTimesInForce as force;
ghost use Rattle.hyd_spec_input.specs.Project as project;
ghost use Rattle.hyd_spec_input.specs.Project.{IsPipeKind};
ghost use Rattle.hyd_spec_input.specs.SectionsAndTables.{is_of};
ghost use Rattle.hyd_spec_input.specs.FaultsWithOtherRows as others;
ghost use Rattle.hyd_build_links_controls_and_rules.specs.RowsToBuildLinksFrom.{IsRowOf, rows_from};

use crate::rows_to_build_links_from::RowsForLinks;
use hyd_kept_capacities::KeptCapacities;
use hyd_lex::{Line, Lines};
use hyd_net::{LinkKind, PipeLoss};
use hyd_network_rows::{PipeRow, PipeStatus, read_pipe};
use hyd_spec_power_laws::HazenWilliamsPipe;

// The loss of a pipe with Manning's coefficient.
fn manning(pipe: &PipeRow<'_>, us: bool, kept: &mut KeptCapacities) -> PipeLoss
    requires length { IsLength pipe.now.length }
    requires diameter { IsDiameter pipe.now.diameter }
    requires roughness { IsRoughness pipe.now.roughness }
    requires minor { IsMinorCoefficient pipe.now.minor }
    requires free { ¬ IsRefusedPipe pipe.now.length.nano pipe.now.diameter.nano pipe.now.roughness.nano
        pipe.now.minor.nano us }
    ensures { (rows : List Row) (row : Row) → us ≡ others.us rows → force.has_hazen_williams rows ≡ false
        → IsPipeRow row.words pipe.now → project.IsPipeRow rows row result }
{
    let Ok(cap) = kept.pipe(pipe.length, pipe.diameter, pipe.roughness, pipe.minor, us) else {
        unreachable!()
    };
    PipeLoss::Manning(cap)
}

// The loss of a pipe with a Hazen-Williams coefficient.
fn hazen_williams(pipe: &PipeRow<'_>, us: bool, kept: &mut KeptCapacities) -> PipeLoss
    requires length { IsLength pipe.now.length }
    requires diameter { IsDiameter pipe.now.diameter }
    requires coefficient { IsPositiveUpTo (10 ^ 4) pipe.now.roughness }
    requires free { ¬ IsRefusedPowerPipe pipe.now.length.nano pipe.now.diameter.nano pipe.now.roughness.nano
        pipe.now.minor.nano us }
    ensures { (rows : List Row) (row : Row) → us ≡ others.us rows → force.has_hazen_williams rows ≡ true
        → IsPipeRow row.words pipe.now → project.IsPipeRow rows row result }
{
    let numbers = HazenWilliamsPipe {
        length: pipe.length,
        diameter: pipe.diameter,
        coefficient: pipe.roughness,
        minor: pipe.minor,
        us,
    };
    let Ok(cap) = kept.power_pipe(numbers) else {
        unreachable!()
    };
    PipeLoss::HazenWilliams(cap)
}

// The loss of a pipe, by Hazen-Williams or not, whose capacity is in range.
fn loss_of(pipe: &PipeRow<'_>, by_power: bool, us: bool, kept: &mut KeptCapacities) -> PipeLoss
    requires length { IsLength pipe.now.length }
    requires diameter { IsDiameter pipe.now.diameter }
    requires roughness { by_power ≡ false → IsRoughness pipe.now.roughness }
    requires coefficient { by_power ≡ true → IsPositiveUpTo (10 ^ 4) pipe.now.roughness }
    requires minor { IsMinorCoefficient pipe.now.minor }
    requires free { ¬ IsRefusedPipeBy by_power pipe.now.length.nano pipe.now.diameter.nano pipe.now.roughness.nano
        pipe.now.minor.nano us }
    ensures { (rows : List Row) (row : Row) → us ≡ others.us rows → by_power ≡ force.has_hazen_williams rows
        → IsPipeRow row.words pipe.now → project.IsPipeRow rows row result }
{
    if by_power {
        return hazen_williams(pipe, us, kept);
    }
    manning(pipe, us, kept)
}

// What a pipe with a loss is.
fn kind_of(status: PipeStatus, loss: PipeLoss) -> LinkKind
    ensures { (rows : List Row) (row : Row) → status ≡ pipe_status row.words → project.IsPipeRow rows row loss
        → IsPipeKind rows row result }
{
    match status {
        PipeStatus::CheckValve => LinkKind::CheckPipe(loss),
        _ => LinkKind::Pipe(loss),
    }
}

/// What the pipe of a row is. Its capacity is taken from those that are kept, where it is there.
pub(crate) fn pipe_kind(
    text: &Lines<'_>,
    line: &Line,
    given: &RowsForLinks<'_>,
    kept: &mut KeptCapacities,
) -> LinkKind
    requires { IsRowOf (is_of Pipes) text.now.text given.now line.now }
    ensures { IsPipeKind (rows_from text.now.text given.now) (row_of text.now.text line.now) result }
{
    let Ok(pipe) = read_pipe(text, line) else {
        unreachable!()
    };
    let loss = loss_of(&pipe, given.by_power, given.unit.is_us(), kept);
    kind_of(pipe.status, loss)
}
