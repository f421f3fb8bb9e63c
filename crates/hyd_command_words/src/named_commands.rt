//! The command of a name and what is said behind it.

ghost use Rattle.std.specs.Prelude.{◌≡◌, ◌-◌, option_map, not, ◌==◌, ◌||◌};
ghost use Rattle.hyd_command_words.specs.CommandGrammar as orders;
ghost use Rattle.hyd_command_words.specs.CommandView.{said_seen, texts_seen, order_seen, gen_seen};
ghost use Rattle.hyd_command_words.specs.CommandView.{files_seen, names_seen, run_seen, witness_seen, meet_seen};

use crate::command::{Command, Files, GenWords, LinkNames, MeetWords, RunWords, WitnessWords};
use crate::commands_on_targets::{closures_command, fire_command};
use crate::names_of_links::flows_of;
use crate::numbers::{number_within, rounds_of, slack_of, width_of};
use crate::said_words::Said;
use crate::spread_file::{check_with, run_with, spread_of};

/// The command of this name, if what is said behind it fits.
pub(crate) fn order_named<'a>(name: &str, said: Said<'_, 'a>) -> Option<Command<'a>>
    ensures { option_map order_seen result ≡ orders.order_named name.now (said_seen said.entry) }
{
    if name == "run" {
        return run_command(said);
    }
    if name == "check" {
        return check_command(said);
    }
    if name == "gen" {
        return gen_command(said);
    }
    if name == "fire" {
        return fire_command(said);
    }
    if name == "closures" {
        return closures_command(said);
    }
    if name == "witness" {
        return witness_command(said);
    }
    if name == "meet" {
        return meet_command(said);
    }
    None
}

fn run_command<'a>(said: Said<'_, 'a>) -> Option<Command<'a>>
    ensures { option_map order_seen result ≡ orders.run_command (said_seen said.entry) }
{
    let run = run_words(said)?;
    let spread = spread_of(said.spread_values)?;
    run_with(spread, run)
}

// What is asked of a run, whether or not for a spread.
fn run_words<'a>(said: Said<'_, 'a>) -> Option<RunWords<'a>>
    ensures { option_map run_seen result ≡ orders.run_order (said_seen said.entry) }
{
    if said.tight_count > 1 {
        return None;
    }
    let rounds = rounds_of(said.sweeps_values)?;
    let width = width_of(said.width_values)?;
    let slack = slack_of(said.slack_values)?;
    let flows = flows_of(said.flows_values)?;
    if !go_together(slack, &flows) {
        return None;
    }
    let files = two_files(said.names)?;
    Some(RunWords {
        files,
        rounds,
        width,
        tight: said.tight_count == 1,
        slack,
        flows,
    })
}

// Whether flows of links are asked for only where no end may be open.
fn go_together(slack: u32, flows: &LinkNames<'_>) -> bool
    ensures { result ≡ orders.go_together slack (names_seen flows.now) }
{
    slack == 0 || flows.is_empty()
}

fn check_command<'a>(said: Said<'_, 'a>) -> Option<Command<'a>>
    ensures { option_map order_seen result ≡ orders.check_command (said_seen said.entry) }
{
    if has_more_than_spread(said) {
        return None;
    }
    let files = two_files(said.names)?;
    let spread = spread_of(said.spread_values)?;
    check_with(spread, files)
}

fn gen_command<'a>(said: Said<'_, 'a>) -> Option<Command<'a>>
    ensures { option_map order_seen result ≡ orders.gen_command (said_seen said.entry) }
{
    if has_options(said) {
        return None;
    }
    let order = gen_words(said.names)?;
    Some(Command::Gen(order))
}

fn witness_command<'a>(said: Said<'_, 'a>) -> Option<Command<'a>>
    ensures { option_map order_seen result ≡ orders.witness_command (said_seen said.entry) }
{
    if has_options(said) {
        return None;
    }
    let order = witness_words(said.names)?;
    Some(Command::Witness(order))
}

fn meet_command<'a>(said: Said<'_, 'a>) -> Option<Command<'a>>
    ensures { option_map order_seen result ≡ orders.meet_command (said_seen said.entry) }
{
    if has_options(said) {
        return None;
    }
    let order = meet_words(said.names)?;
    Some(Command::Meet(order))
}

// Whether an option stands.
fn has_options(said: Said<'_, '_>) -> bool
    ensures { result ≡ not (orders.has_names_alone (said_seen said.entry)) }
{
    has_more_than_spread(said) || said.spread_values.len() > 0
}

// Whether an option besides `--spread` stands.
fn has_more_than_spread(said: Said<'_, '_>) -> bool
    ensures { result ≡ not (orders.has_spread_at_most (said_seen said.entry)) }
{
    said.tight_count > 0
        || said.sweeps_values.len() > 0
        || said.width_values.len() > 0
        || said.slack_values.len() > 0
        || said.flows_values.len() > 0
}

fn two_files<'a>(names: &[&'a str]) -> Option<Files<'a>>
    ensures { option_map files_seen result ≡ orders.two_files (texts_seen names.now) }
{
    match names {
        [net, cert] => differing(net, cert),
        _ => None,
    }
}

// The two files, if their names differ.
fn differing<'a>(net: &'a str, cert: &'a str) -> Option<Files<'a>>
    ensures { option_map files_seen result ≡ orders.differing net.now cert.now }
{
    if net == cert {
        return None;
    }
    Some(Files { net, cert })
}

fn witness_words<'a>(names: &[&'a str]) -> Option<WitnessWords<'a>>
    ensures { option_map witness_seen result ≡ orders.witness_order (texts_seen names.now) }
{
    match names {
        [net, cert, out] => witness_of(net, cert, out),
        _ => None,
    }
}

// NET, CERT and OUT, if no two of their names are the same.
fn witness_of<'a>(net: &'a str, cert: &'a str, out: &'a str) -> Option<WitnessWords<'a>>
    ensures { option_map witness_seen result ≡ orders.witness_of net.now cert.now out.now }
{
    if net == out || cert == out {
        return None;
    }
    let files = differing(net, cert)?;
    Some(WitnessWords { files, out })
}

fn meet_words<'a>(names: &[&'a str]) -> Option<MeetWords<'a>>
    ensures { option_map meet_seen result ≡ orders.meet_order (texts_seen names.now) }
{
    match names {
        [net, witness] => meet_of(net, witness),
        _ => None,
    }
}

// NET and FILE, if their names differ.
fn meet_of<'a>(net: &'a str, witness: &'a str) -> Option<MeetWords<'a>>
    ensures { option_map meet_seen result ≡ orders.meet_of net.now witness.now }
{
    if net == witness {
        return None;
    }
    Some(MeetWords { net, witness })
}

fn gen_words<'a>(names: &[&'a str]) -> Option<GenWords<'a>>
    ensures { option_map gen_seen result ≡ orders.gen_order (texts_seen names.now) }
{
    match names {
        [seed, junctions, net, cert] => gen_of(seed, junctions, net, cert),
        _ => None,
    }
}

fn gen_of<'a>(seed: &str, junctions: &str, net: &'a str, cert: &'a str) -> Option<GenWords<'a>>
    ensures { option_map gen_seen result ≡ orders.gen_of seed.now junctions.now net.now cert.now }
{
    let seed = number_within(seed.as_bytes(), 10, 0, (1 << 31) - 1)?;
    let junctions = number_within(junctions.as_bytes(), 5, 1, 10_000)?;
    let files = differing(net, cert)?;
    Some(GenWords {
        seed,
        junctions,
        files,
    })
}
