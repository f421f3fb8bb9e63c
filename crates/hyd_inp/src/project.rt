//! The network of a text, or its fault.
#![tactic(auto)]

ghost use Rattle.std.specs.Prelude.{IfOk, IfErr};
ghost use Rattle.hyd_spec_lines.specs.Lines.{items_of, rows_in};
ghost use Rattle.hyd_net.specs.Sound.{IsSound};
ghost use Rattle.hyd_spec_input.specs.Faults.{IsFault, HasNoFault};
ghost use Rattle.hyd_spec_input.specs.Project.{IsProject};
ghost use Rattle.hyd_inp.specs.FaultOrNoMemory.{IfFault};

use crate::build::build;
use crate::fault::{InpRefused, TEXT_TOO_LONG};
use crate::first_fault::{LONGEST_TEXT, tables_or_fault};
use hyd_kept_capacities::KeptCapacities;
use hyd_lex::Lines;
use hyd_net::Project;
use hyd_rows_and_tables::gather;
use std::alloc::Global;

/// Reads the network of a text of the input grammar. A fault is the first in this order: more than 64 MiB (line 0), the
/// first row that is wrong by itself, the line that breaks a rule of lines, the first row that is wrong with the
/// others, what the whole file lacks (line 0).
pub fn read_project(alloc: Global, text: &[u8]) -> Result<Project, InpRefused>
    ensures fault { IfErr result (λ refused. IfFault refused (λ f. IsFault text.now f.line f.cause)) }
    ensures no_fault { IfOk result (λ _. HasNoFault text.now) }
    ensures project { IfOk result (IsProject (rows_in (items_of text.now))) }
    ensures sound { IfOk result IsSound }
{
    if text.len() > LONGEST_TEXT {
        return Err(InpRefused::Fault(TEXT_TOO_LONG));
    }
    let gathered = gather(alloc, text)?;
    let reader = Lines::new(text);
    let lines = gathered.lines.as_slice();
    let mut kept = KeptCapacities::new(alloc);
    let tables = tables_or_fault(alloc, &reader, lines, gathered.fault, &mut kept)?;
    let project = build(alloc, &reader, lines, &tables, &mut kept)?;
    Ok(project)
}
