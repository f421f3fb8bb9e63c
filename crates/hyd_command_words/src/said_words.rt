//! What the words behind a command's name say, as the matches hold it.

ghost use Rattle.std.specs.Prelude.{◌≡◌};
ghost use Rattle.clap.specs.Words.{found_of, rows_of};
ghost use Rattle.hyd_command_words.specs.ClapParser.{all_values, said_of};
ghost use Rattle.hyd_command_words.specs.CommandView.{said_seen, texts_seen};

use clap::ArgMatches;

/// What the words say: the values of each option, how often `--tight` stands, and the words by their
/// positions.
#[derive(Clone, Copy)]
pub(crate) struct Said<'m, 'a> {
    pub(crate) sweeps_values: &'m [&'a str],
    pub(crate) width_values: &'m [&'a str],
    pub(crate) slack_values: &'m [&'a str],
    pub(crate) flows_values: &'m [&'a str],
    pub(crate) spread_values: &'m [&'a str],
    pub(crate) tight_count: usize,
    pub(crate) names: &'m [&'a str],
}

/// What the words of these matches say.
pub(crate) fn said_by<'m, 'a>(matches: &'m ArgMatches<'a>) -> Said<'m, 'a>
    ensures { said_seen result ≡ said_of (rows_of (found_of matches.now)) }
{
    Said {
        sweeps_values: values(matches, "sweeps"),
        width_values: values(matches, "width"),
        slack_values: values(matches, "slack"),
        flows_values: values(matches, "flows"),
        spread_values: values(matches, "spread"),
        tight_count: values(matches, "tight").len(),
        names: values(matches, "names"),
    }
}

// The values of an argument, of all its uses.
fn values<'m, 'a>(matches: &'m ArgMatches<'a>, id: &str) -> &'m [&'a str]
    ensures { texts_seen result.now ≡ all_values id.now (rows_of (found_of matches.now)) }
{
    matches.get_raw(id).unwrap_or_default()
}
