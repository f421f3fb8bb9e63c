//! The reading of the file of a spread.

ghost use Rattle.std.specs.Prelude.{◌≡◌, ◌⊎◌, ◌≤◌, ℕ, length, List, IsTrue, IfOk, IfErr, OnOk};
ghost use Rattle.hyd_io.specs.DeskBytes.{IsTold};
ghost use Rattle.hyd_io.specs.DeskCounts.{with_opened};
ghost use Rattle.hyd_command_answers.specs.DeskContents.{seen, IsUntouched};
ghost use Rattle.hyd_command_answers.specs.FaultsAndRefusals.{HasCause};
ghost use Rattle.hyd_command_answers.specs.declared.status.Status.TheVariants.{ReadFault, OutOfMemory};
ghost use Rattle.hyd_spread_files.specs.SpreadFiles.{IsText};

use hyd_command_answers::{Status, read_text};
use hyd_inp::LONGEST_TEXT;
use hyd_io::Desk;
use hyd_spread_rows::has_rows;
use std::alloc::Global;

/// What the file of a spread holds.
#[derive(Drop)]
pub enum SpreadFile {
    /// A text with rows.
    Rows(Vec<u8>),
    /// A text without a row: there is no spread.
    NoRows,
    /// A text of more than 64 MiB, which isn't read.
    TooLong,
}

// What a text is that was read.
fn file_of(text: Vec<u8>) -> SpreadFile
    requires { length text.items ≤ LONGEST_TEXT }
    ensures { IsText text.items result }
{
    if has_rows(&text) {
        return SpreadFile::Rows(text);
    }
    SpreadFile::NoRows
}

/// Opens and reads the whole of the file of a spread. Answers a status where a read failed or memory ran out.
pub fn read_spread_file<D: Desk>(
    alloc: Global,
    file: &str,
    desk: &mut D,
) -> Result<SpreadFile, Status>
    requires { IsTrue (D.may_open file.now) }
    ensures text { (text : List ℕ) → IsTold (D.files desk.old) file.now text → IfOk result (IsText text) }
    ensures cause { IfErr result (λ status. HasCause status (D.counts desk.old) (D.counts desk.new)) }
    ensures steady { OnOk result (D.counts desk.new ≡ D.counts desk.old) }
    ensures why { IfErr result (λ status. (status ≡ ReadFault) ⊎ (status ≡ OutOfMemory)) }
    ensures untouched { IsUntouched
        (seen D.files D.written D.printed desk.old) (seen D.files D.written D.printed desk.new) }
    ensures opened { D.openings desk.new ≡ with_opened (D.openings desk.old) }
{
    match read_text(alloc, file, desk) {
        Ok(Some(text)) => Ok(file_of(text)),
        Ok(None) => Ok(SpreadFile::TooLong),
        Err(status) => Err(status),
    }
}
