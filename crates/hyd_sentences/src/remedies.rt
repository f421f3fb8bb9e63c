//! What is said besides of a row that is refused: the script that writes it as it has to be, or how many words it has.

use crate::forms::{Form, PIPE};
use crate::forms_of_rows::form_of;
use crate::formulas::Formula;
use crate::parts_and_limits::begins_at_flow_0;
use crate::rows::{Row, body_of, is_one_of, rows_of, words_of};
use crate::sentences::{
    Remedy, Said, Wrong, WrongLine, WrongName, WrongNumber, WrongPart, WrongRange, WrongSize,
};
use hyd_lex::is_keyword;
use hyd_num::read_decimal;
use hyd_spec_lines::Section;

// The most bytes of a line.
const LONGEST_LINE: usize = 1_024;

// The greatest roughness, in billionths.
const GREATEST_ROUGHNESS: i128 = 10_000_000_000;

// The first byte of a byte order mark.
const BYTE_ORDER_MARK: u8 = 0xEF;

// The beginnings by which EPANET knows keywords.
const BEGINNINGS: &str =
    "UNIT HEADL QUAL VISC SPEC TRIAL ACCU TOLER EMIT DIFF HYDR UNBA DEMA PATT MINI REQ PRES GRAV EXP MULT METER DURA REPO STAR STAT CLOCK TIME PRIO JUNC RESERV SYST POWE SPEE HOU";

// Options by which EPANET comes nearer to a solution at most.
const IDLE_OPTIONS: &str = "SEGM VERI HTOL QTOL RQTOL";

// Words that EPANET takes for others, or also for objects of another kind.
const OTHER_WORDS: &str = "GRADE SI LEVEL SETTING";

// Whether a word begins with one of some keywords, in any letter case.
fn begins_with_one_of(word: &[u8], keywords: &'static str) -> bool {
    words_of(keywords.as_bytes()).any(|keyword| match word.get(..keyword.len()) {
        Some(front) => front.eq_ignore_ascii_case(keyword),
        None => false,
    })
}

// Whether the script writes a word of a rule as one of some keywords; it leaves relations as they are.
fn is_rule_word_mended(word: &[u8], keywords: &'static str) -> bool {
    if is_one_of(b"<=", keywords) || is_one_of(b"IS", keywords) {
        return false;
    }
    begins_with_one_of(word, keywords)
        || is_one_of(word, OTHER_WORDS)
        || (is_one_of(b"OPEN", keywords) && read_decimal(word).is_ok())
}

// Whether the script writes a word of TIMES as one of some keywords: it puts TIMESTEP or CLOCKTIME before a number or in
// the place of another word, where no START is possible.
fn is_time_word_mended(word: &[u8], keywords: &'static str) -> bool {
    word.first()
        .is_some_and(|byte| byte.is_ascii_alphanumeric())
        && (is_one_of(b"TIMESTEP", keywords) || is_one_of(b"CLOCKTIME", keywords))
        && !is_one_of(b"START", keywords)
}

// Whether the script writes a word as one of some keywords.
fn is_word_mended(row: &Row<'_>, word: &[u8], keywords: &'static str) -> bool {
    match row.section() {
        Some(Section::Times) => is_time_word_mended(word, keywords),
        Some(Section::Rules) => is_rule_word_mended(word, keywords),
        _ => begins_with_one_of(word, keywords) || is_one_of(word, OTHER_WORDS),
    }
}

// Whether the script puts what lacks, an elevation, or leaves the row out, an option without a value.
fn is_default_mended(row: &Row<'_>) -> bool {
    matches!(row.section(), Some(Section::Options | Section::Junctions))
}

// Whether a byte begins a byte order mark, or is a carriage return alone.
fn is_byte_mended(row: &Row<'_>, byte: u8, column: usize) -> bool {
    byte == b'\r' || (byte == BYTE_ORDER_MARK && column == 1 && row.number == 1)
}

// Whether a word is digits and colons.
fn is_clock(word: &[u8]) -> bool {
    word.iter()
        .all(|byte| byte.is_ascii_digit() || *byte == b':')
}

// Whether the script writes a line as its form asks.
fn is_form_mended(row: &Row<'_>, wrong: Wrong<'_>) -> bool {
    match wrong {
        Wrong::ShortHeading(..) | Wrong::BehindHeading(_) | Wrong::UnitBehindMoment(..) => true,
        Wrong::Heading(word) => is_keyword(word, b"[ROUGHNESS]"),
        Wrong::NotAscii(byte, column) => is_byte_mended(row, byte, column),
        Wrong::TwoBytes => true,
        Wrong::TooFew(..) => is_default_mended(row),
        Wrong::Word(word, keywords) => is_word_mended(row, word, keywords),
        Wrong::ShortWord(word, _) => begins_with_one_of(word, BEGINNINGS),
        Wrong::Moment(word) => is_clock(word),
        Wrong::Unit(word) => begins_with_one_of(word, "SEC MIN HOU HR DAY"),
        Wrong::NearHeading(..)
        | Wrong::NoSection
        | Wrong::Certificate
        | Wrong::Report
        | Wrong::CommentWithin(..)
        | Wrong::TooMany(..) => false,
    }
}

// Whether the script writes a line of one section as its form asks.
fn is_line_mended(row: &Row<'_>, wrong: WrongLine<'_>) -> bool {
    match wrong {
        WrongLine::ReservoirAmongTanks(_) | WrongLine::PipeHasNoSetting(_) => true,
        WrongLine::OldPump => matches!(row.count(), 5 | 8),
        WrongLine::Option(word) => begins_with_one_of(word, IDLE_OPTIONS),
        WrongLine::Time(word) => begins_with_one_of(word, "TOTAL MINI"),
        WrongLine::PumpWord(word) => begins_with_one_of(word, "HEAD SPEE PATT POWE"),
        _ => false,
    }
}

// Whether the script writes a word for a number as a state: in a rule any, elsewhere one that isn't written as it has
// to be.
fn is_state_mended(row: &Row<'_>, word: &[u8]) -> bool {
    if !begins_with_one_of(word, "OPEN CLOSED") {
        return false;
    }
    matches!(row.section(), Some(Section::Rules)) || !is_one_of(word, "OPEN CLOSED")
}

// Whether the script writes the right word before a name, or leaves the row out.
fn is_name_mended(row: &Row<'_>, wrong: WrongName<'_>) -> bool {
    match wrong {
        WrongName::OtherKind(..) => !row.has(3, "LEVEL"),
        WrongName::NoJunction(..) => matches!(row.section(), Some(Section::Demands)),
        WrongName::NoNode(_) => {
            matches!(row.section(), Some(Section::Demands)) && row.has(0, "MULTIPLY")
        }
        _ => false,
    }
}

// Whether the script adds points to a pump's curve.
fn is_curve_mended(text: &[u8], curve: &[u8], points: usize) -> bool {
    points == 2 || (points == 3 && !begins_at_flow_0(text, curve))
}

// Whether the script writes a row as it has to be.
fn is_mended(text: &[u8], row: &Row<'_>, said: Said<'_>) -> bool {
    match said {
        Said::Wrong(wrong) => is_form_mended(row, wrong),
        Said::WrongLine(wrong) => is_line_mended(row, wrong),
        Said::WrongNumber(WrongNumber::State(word)) => is_state_mended(row, word),
        Said::WrongNumber(WrongNumber::NoNumber(word)) => is_state_mended(row, word),
        Said::WrongRange(WrongRange::HourZero(..)) => true,
        Said::WrongName(wrong) => is_name_mended(row, wrong),
        Said::WrongPart(WrongPart::Curve(_, curve, points)) => {
            is_curve_mended(text, curve, points)
        }
        Said::WrongSize(WrongSize::Line(_)) => body_of(row.line).len() <= LONGEST_LINE,
        _ => false,
    }
}

// How many words a row of a section may have, where one that lacks moves the others to wrong places.
fn most_words(section: Section, form: &Form) -> usize {
    match section {
        Section::Pipes => PIPE.slots.len(),
        Section::Junctions | Section::Tanks | Section::Valves => form.slots.len(),
        _ => 0,
    }
}

// How many words a row has, where it could have more.
fn counted(text: &[u8], row: &Row<'_>) -> Remedy {
    let Some(section) = row.section() else {
        return Remedy::None;
    };
    let form = form_of(text, row, section);
    let count = row.count();
    if count < most_words(section, &form) {
        return Remedy::Count(count, form.text);
    }
    Remedy::None
}

// Whether a word is above the range of a roughness, as a C of Hazen-Williams is.
fn is_large_roughness(word: &[u8]) -> bool {
    matches!(read_decimal(word), Ok(number) if GREATEST_ROUGHNESS < number.nano)
}

// Whether a row says the units.
fn says_units(row: &Row<'_>) -> bool {
    matches!(row.section(), Some(Section::Options)) && row.has(0, "UNITS")
}

// What helps where numbers of a section are out of a range that is given in other units than the file's.
fn remedy_of_section(text: &[u8], section: Section) -> Remedy {
    let has_units = matches!(
        section,
        Section::Junctions
            | Section::Demands
            | Section::Reservoirs
            | Section::Tanks
            | Section::Pumps
            | Section::Valves
    );
    if has_units && !rows_of(text).any(|row| says_units(&row)) {
        return Remedy::NoUnits;
    }
    Remedy::None
}

// What helps with a value out of its range.
fn remedy_of_range(text: &[u8], row: &Row<'_>, wrong: WrongRange<'_>) -> Remedy {
    match wrong {
        WrongRange::Roughness(word, _, Formula::Manning) if is_large_roughness(word) => {
            Remedy::HazenWilliams
        }
        WrongRange::Section(section) => remedy_of_section(text, section),
        WrongRange::Roughness(_, _, Formula::DarcyWeisbach(_) | Formula::Untold) => Remedy::None,
        WrongRange::Number(..)
        | WrongRange::Roughness(..)
        | WrongRange::Levels(..)
        | WrongRange::TankDiameter(_) => counted(text, row),
        _ => Remedy::None,
    }
}

/// What helps with a row of which this is said.
pub(crate) fn remedy_of(text: &[u8], row: &Row<'_>, said: Said<'_>) -> Remedy {
    if is_mended(text, row, said) {
        return Remedy::Prepare;
    }
    match said {
        Said::WrongNumber(WrongNumber::NoNumber(_)) => counted(text, row),
        Said::WrongRange(wrong) => remedy_of_range(text, row, wrong),
        Said::WrongPart(WrongPart::Curve(_, _, 3)) => Remedy::FourthPoint,
        _ => Remedy::None,
    }
}
