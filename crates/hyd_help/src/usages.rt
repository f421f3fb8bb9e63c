//! The commands, and what may stand for each of their words.

use hyd_num::{all_digits, read_decimal};

// A number of a word in billionths.
const BILLION: i128 = 1_000_000_000;

// How many links may be named, and how long an ID may be.
const MOST_NAMES: usize = 16;

const LONGEST_ID: usize = 31;

/// A command: its name, the words that stand behind it in turn, and its options.
#[derive(Clone, Copy)]
pub(crate) struct Usage {
    /// Its name.
    pub name: &'static str,
    /// What its words stand for.
    pub words: &'static [&'static str],
    /// Its options.
    pub options: &'static [&'static str],
}

const RUN: Usage = Usage {
    name: "run",
    words: &["NET", "CERT"],
    options: &[
        "--sweeps", "--width", "--tight", "--flows", "--slack", "--spread",
    ],
};

const CHECK: Usage = Usage {
    name: "check",
    words: &["NET", "CERT"],
    options: &["--spread"],
};

const GEN: Usage = Usage {
    name: "gen",
    words: &["SEED", "JUNCTIONS", "NET", "CERT"],
    options: &[],
};

const FIRE: Usage = Usage {
    name: "fire",
    words: &["NET", "J", "P"],
    options: &["--sweeps", "--spread"],
};

const CLOSURES: Usage = Usage {
    name: "closures",
    words: &["NET", "P"],
    options: &["--sweeps", "--spread"],
};

const WITNESS: Usage = Usage {
    name: "witness",
    words: &["NET", "CERT", "OUT"],
    options: &[],
};

const MEET: Usage = Usage {
    name: "meet",
    words: &["NET", "FILE"],
    options: &[],
};

/// The command of a name.
pub(crate) fn usage_of(name: &str) -> Option<Usage> {
    match name {
        "run" => Some(RUN),
        "check" => Some(CHECK),
        "gen" => Some(GEN),
        "fire" => Some(FIRE),
        "closures" => Some(CLOSURES),
        "witness" => Some(WITNESS),
        "meet" => Some(MEET),
        _ => None,
    }
}

/// Whether a word stands for a file.
pub(crate) fn is_file(asked: &str) -> bool {
    match asked {
        "NET" | "CERT" | "OUT" | "FILE" => true,
        _ => false,
    }
}

/// Whether a word asks for some slack: 0 asks for none.
pub(crate) fn is_some_slack(word: &str) -> bool {
    is_whole(word, 1, 86_400)
}

/// Whether an option takes a value.
pub(crate) fn takes_value(option: &str) -> bool {
    match option {
        "--sweeps" | "--width" | "--flows" | "--slack" | "--spread" => true,
        _ => false,
    }
}

/// Whether a word is a number below 0, as it may stand for a pressure.
pub(crate) fn is_below_0(word: &str) -> bool {
    match word.as_bytes() {
        [b'-', next, ..] => next.is_ascii_digit() || *next == b'.',
        _ => false,
    }
}

/// Whether a word is the value of an option behind which it stands: one that begins with `-` is another option, but for
/// a number below 0 where a number is asked for.
pub(crate) fn is_value(option: &str, word: &str) -> bool {
    !word.starts_with('-') || (option != "--flows" && option != "--spread" && is_below_0(word))
}

// The number that a word writes, in billionths.
fn nano_of(word: &str) -> Option<i128> {
    match read_decimal(word.as_bytes()) {
        Ok(number) => Some(number.nano),
        Err(_) => None,
    }
}

// Whether a word is a whole number within bounds.
fn is_whole(word: &str, least: u32, greatest: u32) -> bool {
    let Some(nano) = nano_of(word) else {
        return false;
    };
    all_digits(word.as_bytes())
        && i128::from(least) * BILLION <= nano
        && nano <= i128::from(greatest) * BILLION
}

// Whether a word is a number of metres for `--width`.
fn is_width(word: &str) -> bool {
    match nano_of(word) {
        Some(nano) => 0 < nano && nano <= 1_000 * BILLION,
        None => false,
    }
}

// Whether a word is a pressure.
fn is_pressure(word: &str) -> bool {
    match nano_of(word) {
        Some(nano) => -(10_000 * BILLION) <= nano && nano <= 10_000 * BILLION,
        None => false,
    }
}

// Whether a word is a list of IDs; whether one stands twice isn't looked at.
fn are_ids(word: &str) -> bool {
    let mut count = 0_usize;
    for id in word.split(',') {
        count = count.saturating_add(1);
        if id.is_empty() || id.len() > LONGEST_ID {
            return false;
        }
    }
    count <= MOST_NAMES
}

/// Whether a word may stand for what is asked for.
pub(crate) fn fits(asked: &str, word: &str) -> bool {
    match asked {
        "--sweeps" => is_whole(word, 0, 100_000),
        "--width" => is_width(word),
        "--slack" => is_whole(word, 0, 86_400),
        "--flows" => are_ids(word),
        "--spread" => !word.starts_with('-'),
        "SEED" => is_whole(word, 0, 2_147_483_647),
        "JUNCTIONS" => is_whole(word, 1, 10_000),
        "P" => is_pressure(word),
        _ => true,
    }
}
