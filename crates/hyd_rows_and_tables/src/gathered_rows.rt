//! The rows of a text.
#![tactic(auto)]

ghost use Rattle.std.specs.Prelude.{◌≡◌, ◌^◌, ◌≤◌, length, IfOk};
ghost use Rattle.std.specs.List.{All};
ghost use Rattle.hyd_spec_lines.specs.Lines.{LiesIn, items_of, rows_in, fault_in};
ghost use Rattle.hyd_rows_and_tables.specs.RowsOfLines.{rows_at};

use hyd_lex::{LexFault, Line, Lines};
use hyd_net::OutOfMemory;
use std::alloc::Global;

/// The lines of a text up to the first that breaks a rule of lines, and that fault.
#[derive(Drop)]
pub struct Gathered {
    /// The lines of rows, in order.
    pub lines: Vec<Line>,
    /// What ended them; `None` where no line breaks a rule.
    pub fault: Option<LexFault>,
}

/// Gathers the rows of a text of at most 64 MiB.
pub fn gather(alloc: Global, text: &[u8]) -> Result<Gathered, OutOfMemory>
    requires { length text.now ≤ 2 ^ 26 }
    ensures rows { IfOk result (λ g. rows_at text.now g.lines.items ≡ rows_in (items_of text.now)) }
    ensures lie { IfOk result (λ g. All (LiesIn text.now) g.lines.items) }
    ensures few { IfOk result (λ g. length g.lines.items ≤ length text.now) }
    ensures fault { IfOk result (λ g. g.fault ≡ fault_in (items_of text.now)) }
{
    let mut lines = Vec::new(alloc);
    let mut reader = Lines::new(text);
    while let Some(item) = reader.next() {
        match item {
            Ok(line) => lines.push(line)?,
            Err(fault) => {
                return Ok(Gathered {
                    lines,
                    fault: Some(fault),
                });
            }
        }
    }
    Ok(Gathered { lines, fault: None })
}
