//! What a whole file lacks.
#![tactic(auto)]

ghost use Rattle.std.specs.Prelude.{◌≡◌};
ghost use Rattle.std.specs.List.{All, list_any};
ghost use Rattle.hyd_spec_lines.specs.Lines.{LiesIn};
ghost use Rattle.hyd_spec_input.specs.Faults as faults;
ghost use Rattle.hyd_spec_input.specs.OptionsAndTimesInForce as force;
ghost use Rattle.hyd_rows_and_tables.specs.RowsOfLines.{rows_at};
ghost use Rattle.hyd_inp.specs.WaterSourceRows as sources;

use hyd_lex::{Line, Lines, Section};
use hyd_net::Cause;
use hyd_network_rows::last_option;

// Whether a row is one of a reservoir or a tank.
fn is_source(line: &Line) -> bool
    ensures { result ≡ sources.is_source line.now }
{
    match line.section {
        Section::Reservoirs => true,
        Section::Tanks => true,
        _ => false,
    }
}

// Whether there is a reservoir or a tank.
fn has_source(lines: &[Line]) -> bool
    ensures { result ≡ list_any sources.is_source lines.now }
{
    lines.iter().any(|line| is_source(line))
}

// Whether a head loss formula is named.
fn names_head_loss(text: &Lines<'_>, lines: &[Line]) -> bool
    requires { All (LiesIn text.now.text) lines.now }
    ensures { result ≡ force.names_head_loss (rows_at text.now.text lines.now) }
{
    match last_option(text, lines, b"HEADLOSS") {
        Some(_) => true,
        None => false,
    }
}

/// What the whole file lacks: a head loss formula (Unsupported 1), a reservoir or tank (Missing).
pub(crate) fn lack(text: &Lines<'_>, lines: &[Line]) -> Option<Cause>
    requires { All (LiesIn text.now.text) lines.now }
    ensures { result ≡ faults.lack (rows_at text.now.text lines.now) }
{
    if !names_head_loss(text, lines) {
        return Some(Cause::Unsupported(1));
    }
    if !has_source(lines) {
        return Some(Cause::Missing);
    }
    None
}
