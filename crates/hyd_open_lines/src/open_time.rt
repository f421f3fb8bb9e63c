//! A time that may be known to lie between two seconds, and its words.

ghost use Rattle.std.specs.Prelude.{◌≡◌, ◌≤◌, ◌^◌};
ghost use Rattle.hyd_open_lines.specs.Texts.{last_text};

use crate::numbers_times_and_settings::clock;
use crate::short_text::Text;

/// A time in seconds from the start of the run that may be open: what is told of it happens in one of the seconds from
/// the first to `late` seconds later.
#[derive(Clone, Copy, Drop)]
pub struct OpenTime {
    /// The first second.
    pub first: u64,
    /// How many later seconds there are: none where the time is known.
    pub late: u32,
}

/// What stands behind the first second: the last one with a space before it, and nothing where the time is known.
pub(crate) fn last_of(at: OpenTime) -> Text
    requires { at.first ≤ 2 ^ 33 }
    ensures { result ≡ last_text at.first at.late }
{
    let mut text = Text::new();
    if at.late == 0 {
        return text;
    }
    let last = clock(at.first + u64::from(at.late));
    text.push(b" ");
    text.push(last.bytes());
    text
}
