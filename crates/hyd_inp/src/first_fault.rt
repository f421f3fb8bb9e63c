//! The first fault of a text, or what its network is built from.
#![tactic(auto)]

ghost use Rattle.std.specs.Prelude.{◌≡◌, ◌≤◌, ◌^◌, length, IfOk, IfErr, IfSome, IfNone};
ghost use Rattle.std.specs.List.{All};
ghost use Rattle.hyd_spec_lines.specs.Lines.{LiesIn, items_of, rows_in, all_rows_in, fault_in};
ghost use Rattle.hyd_spec_input.specs.Faults.{IsFault, IsFaultOf, HasNoFault};
ghost use Rattle.hyd_spec_input.specs.OptionsAndTimesInForce as force;
ghost use Rattle.hyd_rows_and_tables.specs.RowsOfLines.{rows_at};
ghost use Rattle.hyd_inp.specs.FaultOrNoMemory.{IfFault};
ghost use Rattle.hyd_inp.specs.IdTables.{AreTables};

use crate::fault::{InpFault, InpRefused, TEXT_TOO_LONG, line_cause};
use crate::first_wrong_with_others::first_with_others;
use crate::missing_from_file::lack;
use crate::tables::Tables;
use hyd_kept_capacities::KeptCapacities;
use hyd_lex::{LexFault, Line, Lines};
use hyd_net::OutOfMemory;
use hyd_network_rows::{first_by_itself, has_hazen_williams, has_hazen_williams_throughout};
use hyd_rows_and_tables::gather;
use std::alloc::Global;

/// The most bytes of a text: 64 MiB.
pub const LONGEST_TEXT: usize = 67_108_864;

// Whether losses are by Hazen-Williams: a line of HEADLOSS counts also behind a line that breaks a rule of lines.
fn is_by_power(text: &Lines<'_>, lines: &[Line], end: Option<LexFault>) -> bool
    requires lie { All (LiesIn text.now.text) lines.now }
    requires rows { rows_at text.now.text lines.now ≡ rows_in (items_of text.now.text) }
    requires end { end ≡ fault_in (items_of text.now.text) }
    ensures { result ≡ force.has_hazen_williams (all_rows_in (items_of text.now.text)) }
{
    match end {
        Some(_) => has_hazen_williams_throughout(text),
        None => has_hazen_williams(text, lines),
    }
}

/// The tables of a text of at most 64 MiB that has no fault, else its fault: its first row that is wrong by itself, the
/// fault that ends its rows, its first row that is wrong with the others, what it lacks. The capacities of pipes are kept.
pub(crate) fn tables_or_fault(
    alloc: Global,
    text: &Lines<'_>,
    lines: &[Line],
    end: Option<LexFault>,
    kept: &mut KeptCapacities,
) -> Result<Tables, InpRefused>
    requires few { length lines.now ≤ 2 ^ 26 }
    requires lie { All (LiesIn text.now.text) lines.now }
    requires rows { rows_at text.now.text lines.now ≡ rows_in (items_of text.now.text) }
    requires end { end ≡ fault_in (items_of text.now.text) }
    requires short { length text.now.text ≤ 2 ^ 26 }
    ensures fault { IfErr result (λ refused. IfFault refused
        (λ f. IsFaultOf (items_of text.now.text) f.line f.cause)) }
    ensures none { IfOk result (λ _. HasNoFault text.now.text) }
    ensures tables { IfOk result (AreTables text.now.text (rows_at text.now.text lines.now)) }
{
    let by_power = is_by_power(text, lines, end);
    if let Some(found) = first_by_itself(text, lines, by_power) {
        return Err(InpRefused::Fault(InpFault {
            line: found.line,
            cause: found.cause,
        }));
    }
    if let Some(fault) = end {
        return Err(InpRefused::Fault(InpFault {
            line: fault.line,
            cause: line_cause(fault.cause),
        }));
    }
    let judged = first_with_others(alloc, text, lines, kept)?;
    if let Some(found) = judged.found {
        return Err(InpRefused::Fault(InpFault {
            line: found.line,
            cause: found.cause,
        }));
    }
    match lack(text, lines) {
        Some(cause) => Err(InpRefused::Fault(InpFault { line: 0, cause })),
        None => Ok(judged.tables),
    }
}

/// The fault of a text, where it has one: the first in this order: more than 64 MiB (line 0), the first row that is
/// wrong by itself, the line that breaks a rule of lines, the first row that is wrong with the others, what the whole
/// file lacks (line 0).
pub fn find_fault(alloc: Global, text: &[u8]) -> Result<Option<InpFault>, OutOfMemory>
    ensures fault { IfOk result (λ fault. IfSome fault (λ f. IsFault text.now f.line f.cause)) }
    ensures none { IfOk result (λ fault. IfNone fault (HasNoFault text.now)) }
{
    if text.len() > LONGEST_TEXT {
        return Ok(Some(TEXT_TOO_LONG));
    }
    let gathered = gather(alloc, text)?;
    let reader = Lines::new(text);
    let mut kept = KeptCapacities::new(alloc);
    match tables_or_fault(
        alloc,
        &reader,
        gathered.lines.as_slice(),
        gathered.fault,
        &mut kept,
    ) {
        Ok(_) => Ok(None),
        Err(InpRefused::Fault(fault)) => Ok(Some(fault)),
        Err(InpRefused::OutOfMemory) => Err(OutOfMemory),
    }
}
