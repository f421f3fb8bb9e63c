//! The call `tool`: any command of the program, from its words to its status.

ghost use Rattle.std.specs.Prelude.{◌≡◌, ◌≢◌, Option, Some, map, option_map, string_bytes};
ghost use Rattle.hyd_command_words.specs.CommandGrammar.{Order, GenOrder, order_of, gen};
ghost use Rattle.hyd_command_words.specs.CommandView.{order_seen};
ghost use Rattle.hyd_command_answers.specs.DeskContents.{seen};
ghost use Rattle.hyd_command_answers.specs.FaultsAndRefusals.{HasCause};
ghost use Rattle.hyd_cli.specs.Answers.{MayUse, Leaves, AnswersUsage};
ghost use Rattle.hyd_cli.specs.Commands.{DoesOrder};
ghost use Rattle.hyd_command_answers.specs.declared.status.Status.TheVariants.{Usage};

use crate::command_gen::generate_network;
use crate::command_run::run_words;
use crate::command_spread::run_for_spread;
use crate::help::read_command;
use crate::usage::print_usage;
use hyd_command_answers::{Status, fault_status};
use hyd_command_words::Command;
use hyd_io::Desk;
use hyd_spread_command::{check_files, check_for_spread};
use hyd_spread_target_commands::{
    close_pipes, close_pipes_for_spread, find_bracket, find_bracket_for_spread,
};
use hyd_witness_commands::meet_file;
use hyd_written_witnesses::write_witness;
use std::alloc::Global;

/// Runs the command of the words after the program's name.
///
/// - `run NET CERT [--sweeps N] [--width W] [--tight] [--flows IDS] [--slack N]` reads the network of NET, writes its
///   certificate to CERT and prints its report. With `--flows` CERT has behind each record two vectors for each link of
///   these names, and the report a FLOW line for each, behind the lines of a period that begins at a report time. With
///   `--slack` above 0 ends of periods may be open by at most so many seconds, and what is said holds of each history
///   that keeps what it reaches.
/// - `check NET CERT` reads both, and prints the report of the certificate as far as it is right. Where CERT begins
///   with a header line of version 4, ends of periods may be open by as many seconds as it says, and what is said holds
///   of each history that keeps what it reaches.
/// - `run` and `check` with `--spread FILE` read FILE too: demands, emitters, heads of reservoirs and levels of tanks
///   are known within limits only, which its rows give. What is said holds of each history of each network within them.
///   Where FILE has no rows, they do what they do without it.
/// - `gen SEED JUNCTIONS NET CERT` makes a network, writes it to NET, runs it as `run` does, and prints a summary.
/// - `fire NET J P [--sweeps N]` reads the network of NET, and prints how much may be drawn at junction J with the
///   pressure P there.
/// - `closures NET P [--sweeps N]` reads the network of NET, and prints which junctions keep the pressure P while each
///   pipe is shut alone.
/// - `fire` and `closures` with `--spread FILE` read FILE too, and what is said holds of each network within the limits
///   that its rows give. Where FILE has no rows, they do what they do without it.
/// - `witness NET CERT OUT` reads NET and CERT, accepts its records as `check` does, looks for a period of exact heads,
///   flows and levels for each, and writes them to OUT.
/// - `meet NET FILE` reads both, and prints whether each period of the witness in FILE is met, or the first that isn't.
///
/// Each file is opened or created once at most, but for CERT and OUT of `witness`, which opens the one and creates the
/// other up to three times in turn. What is created, CERT of a check and of `witness`, and FILE of `meet`, wait until
/// all memory is taken that the command needs. `gen` replaces NET before CERT is created, and leaves CERT as it was
/// unless NET holds the whole text.
///
/// - `Usage`: the words aren't a command.
/// - `InputRefused`: the text of the network has a fault (one of more than 64 MiB among them), or that of the spread, J
///   is no junction of it, or a name of `--flows` is no link between two junctions.
/// - `Done`: the run finished, the certificate was accepted, the lines of `fire` or `closures` were printed, a witness
///   was found, or all periods of one are met.
/// - `Undecided`, `RoundsSpent`, `Demand`: how a run was stopped; `Demand` of `fire` and `closures` too; `Undecided` of
///   `witness` where no period was found for a record, and of `meet` where a period isn't met.
/// - `CertificateRefused`: the certificate's lines, a record, the part behind one or its END line aren't right, or a
///   line of a witness.
/// - `OutOfMemory`: nothing was created, written or printed.
/// - `ReadFault`, `WriteFault`, `Stalled`: a call on the desk failed or took nothing. Nothing more was called then.
pub fn tool<D: Desk>(alloc: Global, words: &[String], desk: &mut D) -> Status
    requires names { MayUse D.may_open D.may_create (order_of (map string_bytes words.now)) }
    ensures cause { HasCause result (D.counts desk.old) (D.counts desk.new) }
    ensures leaves { Leaves (order_of (map string_bytes words.now)) result
        (seen D.files D.written D.printed desk.old) (seen D.files D.written D.printed desk.new) }
    ensures does { DoesOrder (order_of (map string_bytes words.now)) result
        (seen D.files D.written D.printed desk.old) (seen D.files D.written D.printed desk.new)
        (D.openings desk.old) (D.openings desk.new) (D.ready desk.new) }
    ensures never_usage { (order : Order) → order_of (map string_bytes words.now) ≡ Some order → result ≢ Usage }
{
    match read_command(alloc, words, desk) {
        Ok(found) => carry_out(alloc, found, desk),
        Err(_) => Status::OutOfMemory,
    }
}

/// Carries a command out, or prints the usage line where there is none.
fn carry_out<D: Desk>(alloc: Global, found: Option<Command<'_>>, desk: &mut D) -> Status
    requires names { MayUse D.may_open D.may_create (option_map order_seen found) }
    requires apart { (order : GenOrder) → option_map order_seen found ≡ Some (gen order)
        → order.files.net ≢ order.files.cert }
    ensures cause { HasCause result (D.counts desk.old) (D.counts desk.new) }
    ensures leaves { Leaves (option_map order_seen found.entry) result
        (seen D.files D.written D.printed desk.old) (seen D.files D.written D.printed desk.new) }
    ensures does { DoesOrder (option_map order_seen found.entry) result
        (seen D.files D.written D.printed desk.old) (seen D.files D.written D.printed desk.new)
        (D.openings desk.old) (D.openings desk.new) (D.ready desk.new) }
    ensures never_usage { (order : Order) → option_map order_seen found.entry ≡ Some order → result ≢ Usage }
{
    match found {
        Some(Command::Run(words)) => run_words(alloc, &words, desk),
        Some(Command::Check(files)) => check_files(alloc, files.net, files.cert, desk),
        Some(Command::Gen(words)) => generate_network(alloc, &words, desk),
        Some(Command::Fire(words)) => find_bracket(alloc, &words, desk),
        Some(Command::Closures(words)) => close_pipes(alloc, &words, desk),
        Some(Command::Witness(words)) => write_witness(alloc, &words, desk),
        Some(Command::Meet(words)) => meet_file(alloc, &words, desk),
        Some(Command::RunOver(words)) => run_for_spread(alloc, &words, desk),
        Some(Command::CheckOver(words)) => check_for_spread(alloc, &words, desk),
        Some(Command::FireOver(words)) => find_bracket_for_spread(alloc, &words, desk),
        Some(Command::ClosuresOver(words)) => close_pipes_for_spread(alloc, &words, desk),
        None => refuse_words(desk),
    }
}

/// Prints the usage line.
fn refuse_words<D: Desk>(desk: &mut D) -> Status
    ensures cause { HasCause result (D.counts desk.old) (D.counts desk.new) }
    ensures answers { AnswersUsage result
        (seen D.files D.written D.printed desk.old) (seen D.files D.written D.printed desk.new) }
    ensures openings_stay { D.openings desk.new ≡ D.openings desk.old }
{
    match print_usage(desk) {
        Ok(()) => Status::Usage,
        Err(fault) => fault_status(fault),
    }
}
