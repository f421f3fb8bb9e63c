//! The words of a state that a link was given.

ghost use Rattle.std.specs.Prelude.{◌≡◌, ◌≤◌, ◌++◌, length, codes};
ghost use Rattle.hyd_num.specs.PrintedDecimals.{setting_text};
ghost use Rattle.hyd_spec_certificates.specs.CertificateText.{words};
ghost use Rattle.hyd_spec_reports.specs.ReportLine.{state_words};

use crate::numbers_times_and_settings::push_setting;
use crate::short_text::Text;
use hyd_net::LinkState;
use hyd_units::BUFFER_SIZE;

/// SETTING and a number of billionths.
fn setting(billionths: u64) -> Text
    ensures { result ≡ codes "SETTING " ++ setting_text billionths }
{
    let mut text = Text::new();
    text.push(b"SETTING ");
    push_setting(&mut text, billionths);
    text
}

/// A word that stands alone.
fn word(bytes: &[u8]) -> Text
    requires { length bytes.now ≤ BUFFER_SIZE }
    ensures { result ≡ bytes.now }
{
    let mut text = Text::new();
    text.push(bytes);
    text
}

/// What a control or a rule gave a link: every state with a number by its setting.
pub(crate) fn state_text(state: &LinkState) -> Text
    ensures { result ≡ words (state_words state.now) }
{
    match state {
        LinkState::Open => word(b"OPEN"),
        LinkState::Closed => word(b"CLOSED"),
        LinkState::Speed(nano) => setting(nano.unsigned_abs()),
        LinkState::Throttle { nano, .. } => setting(nano.unsigned_abs()),
        LinkState::Limit { nano, .. } => setting(nano.unsigned_abs()),
    }
}
