//! The commands on a target pressure.

ghost use Rattle.std.specs.Prelude.{◌≡◌, ◌∷◌, [], option_map, not, ◌==◌, ◌||◌};
ghost use Rattle.hyd_command_words.specs.CommandGrammar as orders;
ghost use Rattle.hyd_command_words.specs.CommandView.{said_seen, texts_seen, order_seen, fire_seen, closures_seen};

use crate::command::{ClosuresWords, Command, FireWords};
use crate::numbers::{pressure_of, rounds_of};
use crate::said_words::Said;
use crate::spread_file::{closures_with, fire_with, spread_of};

/// `fire` with what is said behind it, if that fits.
pub(crate) fn fire_command<'a>(said: Said<'_, 'a>) -> Option<Command<'a>>
    ensures { option_map order_seen result ≡ orders.fire_command (said_seen said.entry) }
{
    let fire = fire_asked(said)?;
    let spread = spread_of(said.spread_values)?;
    fire_with(spread, fire)
}

// What is asked of `fire`, whether or not for a spread.
fn fire_asked<'a>(said: Said<'_, 'a>) -> Option<FireWords<'a>>
    ensures { option_map fire_seen result ≡ orders.fire_asked (said_seen said.entry) }
{
    if has_more_than_rounds_and_spread(said) {
        return None;
    }
    let rounds = rounds_of(said.sweeps_values)?;
    fire_words(rounds, said.names)
}

/// `closures` with what is said behind it, if that fits.
pub(crate) fn closures_command<'a>(said: Said<'_, 'a>) -> Option<Command<'a>>
    ensures { option_map order_seen result ≡ orders.closures_command (said_seen said.entry) }
{
    let closures = closures_asked(said)?;
    let spread = spread_of(said.spread_values)?;
    closures_with(spread, closures)
}

// What is asked of `closures`, whether or not for a spread.
fn closures_asked<'a>(said: Said<'_, 'a>) -> Option<ClosuresWords<'a>>
    ensures { option_map closures_seen result ≡ orders.closures_asked (said_seen said.entry) }
{
    if has_more_than_rounds_and_spread(said) {
        return None;
    }
    let rounds = rounds_of(said.sweeps_values)?;
    closures_words(rounds, said.names)
}

// Whether an option besides `--sweeps` and `--spread` stands.
fn has_more_than_rounds_and_spread(said: Said<'_, '_>) -> bool
    ensures { result ≡ not (orders.has_rounds_and_spread_at_most (said_seen said.entry)) }
{
    said.tight_count > 0
        || said.width_values.len() > 0
        || said.slack_values.len() > 0
        || said.flows_values.len() > 0
}

fn fire_words<'a>(rounds: u32, names: &[&'a str]) -> Option<FireWords<'a>>
    ensures { option_map fire_seen result ≡ orders.fire_order rounds (texts_seen names.now) }
{
    match names {
        [net, junction, pressure] => fire_of(rounds, net, junction, pressure),
        _ => None,
    }
}

fn fire_of<'a>(
    rounds: u32,
    net: &'a str,
    junction: &'a str,
    pressure: &str,
) -> Option<FireWords<'a>>
    ensures { option_map fire_seen result
        ≡ orders.fire_order rounds (net.now ∷ junction.now ∷ pressure.now ∷ []) }
{
    let pressure = pressure_of(pressure.as_bytes())?;
    Some(FireWords {
        net,
        junction,
        pressure,
        rounds,
    })
}

fn closures_words<'a>(rounds: u32, names: &[&'a str]) -> Option<ClosuresWords<'a>>
    ensures { option_map closures_seen result ≡ orders.closures_order rounds (texts_seen names.now) }
{
    match names {
        [net, pressure] => closures_of(rounds, net, pressure),
        _ => None,
    }
}

fn closures_of<'a>(rounds: u32, net: &'a str, pressure: &str) -> Option<ClosuresWords<'a>>
    ensures { option_map closures_seen result ≡ orders.closures_order rounds (net.now ∷ pressure.now ∷ []) }
{
    let pressure = pressure_of(pressure.as_bytes())?;
    Some(ClosuresWords {
        net,
        pressure,
        rounds,
    })
}
