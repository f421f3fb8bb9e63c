//! FILE, the spread that `--spread` names, and the commands for one.

ghost use Rattle.std.specs.Prelude.{◌≡◌, option_map, not, ◌||◌};
ghost use Rattle.hyd_command_words.specs.CommandGrammar as orders;
ghost use Rattle.hyd_command_words.specs.CommandView.{files_seen, order_seen, run_seen, texts_seen};
ghost use Rattle.hyd_command_words.specs.CommandView.{closures_seen, fire_seen};

use crate::command::{
    ClosuresWords, Command, Files, FireWords, RunWords, SpreadCheckWords, SpreadClosuresWords,
    SpreadFireWords, SpreadRunWords,
};

/// FILE, by the values that are given for it; `Some(None)` where none is.
pub(crate) fn spread_of<'a>(values: &[&'a str]) -> Option<Option<&'a str>>
    ensures { option_map (option_map (λ file. file.now)) result ≡ orders.spread_of (texts_seen values.now) }
{
    match values {
        [] => Some(None),
        [file] => {
            let file = file_name(file)?;
            Some(Some(file))
        }
        _ => None,
    }
}

// A name that doesn't begin with `-`.
fn file_name<'a>(word: &'a str) -> Option<&'a str>
    ensures { option_map (λ file. file.now) result ≡ orders.file_name word.now }
{
    if word.as_bytes().starts_with(b"-") {
        return None;
    }
    Some(word)
}

/// `run`, and where FILE is given, `run` for its spread, if the two go together.
pub(crate) fn run_with<'a>(spread: Option<&'a str>, run: RunWords<'a>) -> Option<Command<'a>>
    ensures { option_map order_seen result
        ≡ orders.run_with (option_map (λ file. file.now) spread.entry) (run_seen run.entry) }
{
    let Some(spread) = spread else {
        return Some(Command::Run(run));
    };
    if !is_apart(spread, run.files) || !run.flows.is_empty() {
        return None;
    }
    Some(Command::RunOver(SpreadRunWords { run, spread }))
}

/// `check`, and where FILE is given, `check` for its spread, if FILE is neither of the two files.
pub(crate) fn check_with<'a>(spread: Option<&'a str>, files: Files<'a>) -> Option<Command<'a>>
    ensures { option_map order_seen result
        ≡ orders.check_with (option_map (λ file. file.now) spread.entry) (files_seen files.entry) }
{
    let Some(spread) = spread else {
        return Some(Command::Check(files));
    };
    if !is_apart(spread, files) {
        return None;
    }
    Some(Command::CheckOver(SpreadCheckWords { files, spread }))
}

/// `fire`, and where FILE is given, `fire` for its spread, if FILE isn't NET.
pub(crate) fn fire_with<'a>(spread: Option<&'a str>, fire: FireWords<'a>) -> Option<Command<'a>>
    ensures { option_map order_seen result
        ≡ orders.fire_with (option_map (λ file. file.now) spread.entry) (fire_seen fire.entry) }
{
    let Some(spread) = spread else {
        return Some(Command::Fire(fire));
    };
    if fire.net == spread {
        return None;
    }
    Some(Command::FireOver(SpreadFireWords { fire, spread }))
}

/// `closures`, and where FILE is given, `closures` for its spread, if FILE isn't NET.
pub(crate) fn closures_with<'a>(
    spread: Option<&'a str>,
    closures: ClosuresWords<'a>,
) -> Option<Command<'a>>
    ensures { option_map order_seen result
        ≡ orders.closures_with (option_map (λ file. file.now) spread.entry) (closures_seen closures.entry) }
{
    let Some(spread) = spread else {
        return Some(Command::Closures(closures));
    };
    if closures.net == spread {
        return None;
    }
    Some(Command::ClosuresOver(SpreadClosuresWords { closures, spread }))
}

// Whether a file is neither of the two.
fn is_apart(file: &str, files: Files<'_>) -> bool
    ensures { result ≡ orders.is_apart file.now (files_seen files.entry) }
{
    files.net != file && files.cert != file
}
