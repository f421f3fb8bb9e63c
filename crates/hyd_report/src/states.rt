//! The words of states and sides.

ghost use Rattle.std.specs.Prelude.{◌≡◌, ◌≤◌, ◌++◌, length, codes};
ghost use Rattle.hyd_num.specs.PrintedDecimals.{setting_text};
ghost use Rattle.hyd_spec_certificates.specs.CertificateText.{words};
ghost use Rattle.hyd_spec_reports.specs.ReportLine.{state_words, tank_word, status_text, side_word};

use crate::numbers_times_and_settings::push_setting;
use crate::short_text::Text;
use hyd_net::LinkState;
use hyd_spec::TankState;
use hyd_spec_certificates::{Side, StatusWord};
use hyd_units::BUFFER_SIZE;

/// SETTING and a number of billionths.
fn setting(billionths: u64) -> Text
    ensures { result ≡ codes "SETTING " ++ setting_text billionths }
{
    let mut text = Text::new();
    text.push(b"SETTING ");
    push_setting(&mut text, billionths);
    text
}

/// A word that stands alone.
fn word(bytes: &[u8]) -> Text
    requires { length bytes.now ≤ BUFFER_SIZE }
    ensures { result ≡ bytes.now }
{
    let mut text = Text::new();
    text.push(bytes);
    text
}

/// What a control or a rule gave a link: every state with a number by its setting.
pub(crate) fn state_text(state: &LinkState) -> Text
    ensures { result ≡ words (state_words state.now) }
{
    match state {
        LinkState::Open => word(b"OPEN"),
        LinkState::Closed => word(b"CLOSED"),
        LinkState::Speed(nano) => setting(nano.unsigned_abs()),
        LinkState::Throttle { nano, .. } => setting(nano.unsigned_abs()),
        LinkState::Limit { nano, .. } => setting(nano.unsigned_abs()),
    }
}

/// The word of a tank's state.
pub(crate) fn tank_word(state: &TankState) -> &'static [u8]
    ensures { result.now ≡ tank_word state.now }
{
    match state {
        TankState::Empty => b"EMPTY",
        TankState::Between => b"BETWEEN",
        TankState::Full => b"FULL",
    }
}

/// The word of a link's status.
pub(crate) fn status_word(status: StatusWord) -> Text
    ensures { result ≡ status_text status }
{
    match status {
        StatusWord::Open => word(b"OPEN"),
        StatusWord::Closed => word(b"CLOSED"),
        StatusWord::Active => word(b"ACTIVE"),
        StatusWord::Unsure => word(b"UNSURE"),
    }
}

/// The word of a side.
pub(crate) fn side_word(side: Side) -> Text
    ensures { result ≡ side_word side }
{
    match side {
        Side::Upper => word(b"UPPER"),
        Side::Lower => word(b"LOWER"),
    }
}
