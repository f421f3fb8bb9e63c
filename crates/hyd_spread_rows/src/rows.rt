//! Rows of a spread.
#![tactic(auto)]

ghost use Rattle.std.specs.Prelude.{◌≡◌};
ghost use Rattle.hyd_spec_lines.specs.WordsOfLines.{words_in};
ghost use Rattle.hyd_spec_lines.specs.WordsOfLines as form;
ghost use Rattle.hyd_option_and_rule_lines.specs.FaultOrValue.{Judged};
ghost use Rattle.hyd_spec_spread_rows.specs.RowsOfSpreads as row;
ghost use Rattle.hyd_spec_spread_rows.specs.TextsOfSpreads.{line_fault, words_fault};
ghost use Rattle.hyd_spread_rows.specs.RowsRead.{IsRow, IsRead};

use crate::lines::{body, is_plain, word_at};
use crate::names::{is_known, node_alone, subject};
use crate::numbers::numbers;
use crate::words::id;
use hyd_net::{Cause, Project};
use hyd_rows_and_tables::NumberedIds;
use hyd_spec_spread_rows::{Ends, Subject};

// The most bytes of a line.
const LONGEST: usize = 1_024;

/// A row of a spread.
#[derive(Clone, Copy, Drop)]
pub(crate) struct Row {
    pub subject: Subject,
    /// The node that it names alone; none where it is for all.
    pub node: Option<u32>,
    pub ends: Ends,
}

// Reads a row: a wrong first word, a missing or a further word (Syntax), an ID longer than 31 bytes (Limit 3), a name
// that nothing of the kind has (UnknownName), a word that is no number (Number), a number outside its range (Range).
fn read_row(project: &Project, ids: &NumberedIds, body: &[u8]) -> Result<Row, Cause>
    requires { ids.now ≡ project.now.node_ids }
    ensures { Judged (row.row_fault project.now (words_in body.now)) result (IsRow project.now (words_in body.now)) }
{
    let Some(subject) = subject(body) else {
        return Err(Cause::Syntax);
    };
    let name = id(body, 1)?;
    if !is_known(project, ids, subject, name) {
        return Err(Cause::UnknownName);
    }
    let ends = numbers(project, ids, body, subject, name)?;
    Ok(Row {
        subject,
        node: node_alone(project, ids, name),
        ends,
    })
}

// Reads what stands before a comment: none where there are no words.
fn read_body(project: &Project, ids: &NumberedIds, body: &[u8]) -> Result<Option<Row>, Cause>
    requires { ids.now ≡ project.now.node_ids }
    ensures { Judged (words_fault project.now body.now (words_in body.now)) result
        (IsRead project.now (words_in body.now)) }
{
    match word_at(body, 0) {
        None => return Ok(None),
        Some(_) => {}
    }
    if !is_plain(body) {
        return Err(Cause::Syntax);
    }
    let row = read_row(project, ids, body)?;
    Ok(Some(row))
}

/// Reads a line: none where it has no words. Limit 2 where it has more than 1,024 bytes, Syntax where it has words and
/// a byte that isn't printing ASCII, a space or a tab, else what is wrong with its row.
pub(crate) fn read_line(
    project: &Project,
    ids: &NumberedIds,
    line: &[u8],
) -> Result<Option<Row>, Cause>
    requires { ids.now ≡ project.now.node_ids }
    ensures { Judged (line_fault project.now line.now) result (IsRead project.now (words_in (form.body line.now))) }
{
    if line.len() > LONGEST {
        return Err(Cause::Limit(2));
    }
    read_body(project, ids, body(line))
}
