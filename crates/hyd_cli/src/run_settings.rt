//! What the words of a run ask it for.

ghost use Rattle.std.specs.Prelude.{◌≡◌};
ghost use Rattle.hyd_command_words.specs.CommandView.{run_seen};
ghost use Rattle.hyd_open_command.specs.OpenAnswers.{asked_of};
ghost use Rattle.hyd_cli.specs.RunAnswers.{asked_for, settings_of};

use hyd_command_words::RunWords;
use hyd_open_command::OpenSettings;
use hyd_sim::Settings;

/// What an order asks a run for.
pub(crate) fn settings_of(words: &RunWords<'_>) -> Settings
    ensures { result ≡ settings_of (run_seen words.now) }
{
    Settings {
        rounds: words.rounds,
        width: words.width,
        tight: words.tight,
    }
}

/// What an order asks a run for whose ends of periods may be open.
pub(crate) fn open_settings_of(words: &RunWords<'_>) -> OpenSettings
    ensures { asked_of result ≡ asked_for (run_seen words.now) }
{
    OpenSettings {
        search: settings_of(words),
        slack: words.slack,
    }
}
