//! The program: the words that the system gives, and the desk on its files.

ghost use Rattle.std.specs.Prelude.{◌≡◌, ◌≢◌, Some, IfOk, IsOk, IsErr, map, string_bytes};
ghost use Rattle.hyd_command_words.specs.CommandGrammar.{Order, order_of};
ghost use Rattle.hyd_cli.specs.WordsAndUsageLine.{words_behind_name};
ghost use Rattle.hyd_command_answers.specs.DeskContents.{seen};
ghost use Rattle.hyd_cli.specs.Answers.{MayUse, Leaves, AnswersUsage};
ghost use Rattle.hyd_command_answers.specs.FaultsAndRefusals.{HasCause};
ghost use Rattle.hyd_cli.specs.Commands.{DoesOrder};
ghost use Rattle.hyd_command_answers.specs.declared.status.Status.TheVariants.{Usage};

use crate::standard_error::say_why;
use crate::whole_command::tool;
use hyd_command_answers::Status;
use hyd_io::{Desk, FileDesk};
use std::alloc::{AllocError, Global};
use std::env::Args;
use std::rt::{Clock, Env, Files};
use std::{env, io};

/// The whole program on a runtime: makes the desk on its files and its standard output, starts on
/// its words, and ends with the answer. Where memory ran out or a call on the desk failed, it says so on standard error
/// before it ends, in one line with the file's name.
pub fn run_program<R: AllocGlobal + Env + Files + Print + Eprint + Clock + Drop>(rt: R) -> Status {
    let alloc = rt.alloc();
    let given = env::args(&rt);
    let mut desk = FileDesk::new(alloc, rt);
    let status = start(alloc, given, &mut desk);
    say_why(status, desk.input_name(), desk.failure(), desk.runtime());
    status
}

/// Runs the command of the words that the system gives: what is said of `tool` holds of it on the
/// words behind the program's name. Where the words can't be had as a whole there are none, which is no
/// command. Want of memory for the words leaves all untouched.
pub fn start<D: Desk>(alloc: Global, given: io::Result<Args>, desk: &mut D) -> Status
    requires names { MayUse D.may_open D.may_create (order_of (words_behind_name given)) }
    ensures cause { HasCause result (D.counts desk.old) (D.counts desk.new) }
    ensures leaves { Leaves (order_of (words_behind_name given)) result
        (seen D.files D.written D.printed desk.old) (seen D.files D.written D.printed desk.new) }
    ensures does { DoesOrder (order_of (words_behind_name given)) result
        (seen D.files D.written D.printed desk.old) (seen D.files D.written D.printed desk.new)
        (D.openings desk.old) (D.openings desk.new) (D.ready desk.new) }
    ensures no_words { IsErr given → AnswersUsage result
        (seen D.files D.written D.printed desk.old) (seen D.files D.written D.printed desk.new) }
    ensures never_usage { (order : Order) → order_of (words_behind_name given) ≡ Some order → result ≢ Usage }
{
    match words_behind(alloc, given) {
        Ok(words) => tool(alloc, &words, desk),
        Err(_) => Status::OutOfMemory,
    }
}

/// The words behind the program's name. There are none where the words can't be had as a whole, and
/// then no memory is taken.
fn words_behind(alloc: Global, given: io::Result<Args>) -> Result<Vec<String>, AllocError>
    ensures words { IfOk result (λ words. map string_bytes words.items ≡ words_behind_name given) }
    ensures none { IsErr given → IsOk result }
{
    match given {
        Ok(args) => args.skip(1).collect(alloc),
        Err(_) => Ok(Vec::new(alloc)),
    }
}
