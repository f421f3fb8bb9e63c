//! The texts of all sentences: what is wrong with a row of a text, by its cause, what mends it, what a stop means, what
//! of a certificate isn't so, and how far work has come. Names, words, lines and numbers are filled in.

use crate::forms::Bound;
use crate::formulas::Formula;
use crate::progress::{PipesDone, Progress};
use crate::quantities::{Billionths, Clock, Hours, Quantity};
use crate::refused_certificates::LineFault;
use crate::shown::{Name, OneOf};
use crate::undecided_end::Aim;
use hyd_net::Cause;
use hyd_num::FlowUnit;
use hyd_spec_certificates::Side;
use hyd_spec_lines::Section;
use std::fmt::{self, Display, Formatter};

// Writes a name between two texts.
fn write_around<W: fmt::Write>(
    before: &'static str,
    name: &[u8],
    behind: &'static str,
    f: &mut Formatter<W>,
) -> fmt::Result {
    write!(f, "{before}{}{behind}", Name(name))
}

// ---- rows in words

pub(crate) const JUNCTION_ROW: &str =
    "[JUNCTIONS]: ID, elevation, demand (optional), pattern (optional)";

pub(crate) const RESERVOIR_ROW: &str = "[RESERVOIRS]: ID, head, pattern (optional)";

pub(crate) const TANK_ROW: &str =
    "[TANKS]: ID, bottom, initial level, minimum level, maximum level, diameter, minimum volume (optional), volume curve or * (optional), overflow YES or NO (optional)";

pub(crate) const PIPE_ROW: &str =
    "[PIPES]: ID, first node, second node, length, diameter, roughness, minor loss (optional), status OPEN, CLOSED or CV (optional)";

pub(crate) const PUMP_ROW: &str =
    "[PUMPS]: ID, first node, second node, HEAD curve, SPEED number (optional), PATTERN pattern (optional)";

pub(crate) const VALVE_ROW: &str =
    "[VALVES]: ID, first node, second node, diameter, type TCV, FCV or GPV, setting (of a GPV its curve), minor loss (optional)";

pub(crate) const DEMAND_ROW: &str =
    "[DEMANDS]: junction, demand, pattern (optional), category (optional)";

pub(crate) const EMITTER_ROW: &str = "[EMITTERS]: junction, coefficient";

pub(crate) const CURVE_ROW: &str = "[CURVES]: ID, x, y";

pub(crate) const PATTERN_ROW: &str = "[PATTERNS]: ID, one or more multipliers";

pub(crate) const STATUS_ROW: &str = "[STATUS]: link, OPEN, CLOSED or a number";

pub(crate) const CONTROL_ROW: &str =
    "[CONTROLS]: LINK id state IF TANK id ABOVE or BELOW level, LINK id state AT TIME time, or LINK id state AT CLOCKTIME time AM or PM";

pub(crate) const RULE_NAME_ROW: &str = "[RULES]: RULE id";

pub(crate) const PRIORITY_ROW: &str = "[RULES]: PRIORITY number";

pub(crate) const CLAUSE_ROW: &str =
    "[RULES]: IF, AND or OR, then TANK id LEVEL relation number (or another object and attribute), PUMP id STATUS IS state, or SYSTEM TIME relation time";

pub(crate) const ACTION_ROW: &str =
    "[RULES]: THEN, ELSE or AND, then LINK id STATUS IS OPEN or CLOSED, or PUMP or VALVE id SETTING IS number";

pub(crate) const UNITS_ROW: &str = "[OPTIONS]: UNITS unit";

pub(crate) const HEADLOSS_ROW: &str = "[OPTIONS]: HEADLOSS C-M";

pub(crate) const DEFAULT_PATTERN_ROW: &str = "[OPTIONS]: PATTERN id";

pub(crate) const DEMAND_OPTION_ROW: &str =
    "[OPTIONS]: DEMAND MULTIPLIER number, or DEMAND MODEL DDA or PDA";

pub(crate) const PRESSURE_BOUND_ROW: &str =
    "[OPTIONS]: MINIMUM PRESSURE or REQUIRED PRESSURE, then a number";

pub(crate) const PRESSURE_ROW: &str = "[OPTIONS]: PRESSURE PSI or METERS, or PRESSURE EXPONENT 0.5";

pub(crate) const EMITTER_EXPONENT_ROW: &str = "[OPTIONS]: EMITTER EXPONENT 0.5";

pub(crate) const SPECIFIC_GRAVITY_ROW: &str = "[OPTIONS]: SPECIFIC GRAVITY 1";

pub(crate) const DURATION_ROW: &str = "[TIMES]: DURATION time";

pub(crate) const STEP_ROW: &str = "[TIMES]: HYDRAULIC, RULE or QUALITY, then TIMESTEP time";

pub(crate) const STEP_OR_START_ROW: &str =
    "[TIMES]: PATTERN or REPORT, then TIMESTEP or START, then a time";

pub(crate) const START_CLOCK_ROW: &str = "[TIMES]: START CLOCKTIME time, AM or PM (optional)";

// ---- numbers of rows in words

pub(crate) const ELEVATION: &str = "elevation";

pub(crate) const DEMAND: &str = "demand";

pub(crate) const HEAD: &str = "head";

pub(crate) const BOTTOM: &str = "bottom";

pub(crate) const INITIAL_LEVEL: &str = "initial level";

pub(crate) const MINIMUM_LEVEL: &str = "minimum level";

pub(crate) const MAXIMUM_LEVEL: &str = "maximum level";

pub(crate) const MINIMUM_VOLUME: &str = "minimum volume";

pub(crate) const LENGTH: &str = "length";

pub(crate) const DIAMETER: &str = "diameter";

pub(crate) const ROUGHNESS: &str = "roughness (Manning's n, no Hazen-Williams C)";

pub(crate) const MINOR_LOSS: &str = "minor loss coefficient";

pub(crate) const SETTING: &str = "setting";

pub(crate) const SPEED: &str = "speed";

pub(crate) const COEFFICIENT: &str = "coefficient";

pub(crate) const MULTIPLIER: &str = "multiplier";

pub(crate) const X: &str = "x";

pub(crate) const Y: &str = "y";

pub(crate) const LEVEL: &str = "level";

pub(crate) const VALUE: &str = "value";

pub(crate) const PRIORITY: &str = "priority";

pub(crate) const PRESSURE: &str = "pressure";

pub(crate) const EXPONENT: &str = "exponent";

pub(crate) const GRAVITY: &str = "specific gravity";

/// What the rows of a section are.
pub(crate) fn kind_of(section: Section) -> &'static str {
    match section {
        Section::Junctions => "a junction",
        Section::Reservoirs => "a reservoir",
        Section::Tanks => "a tank",
        Section::Pipes => "a pipe",
        Section::Pumps => "a pump",
        Section::Valves => "a valve",
        Section::Rules => "a rule",
        _ => "a row",
    }
}

// ---- the general sentences

/// What a cause means of a row, where nothing more is known.
pub(crate) fn general(cause: Cause) -> &'static str {
    match cause {
        Cause::Syntax => "a wrong keyword, heading or order of lines, or too few or too many words",
        Cause::Number =>
            "a word that should be a number isn't one, or a number is above 10^12 in magnitude",
        Cause::Range => "a value is out of its range (docs/REFUSALS.md, \"Ranges of numbers\")",
        Cause::DuplicateId => "an earlier row has this ID",
        Cause::UnknownName => "nothing of the kind that is asked for has this name",
        Cause::Unsupported(part) => general_part(part),
        Cause::Limit(limit) => general_limit(limit),
        Cause::Missing =>
            "there is no reservoir and no tank, so no water: give a row to [RESERVOIRS] or [TANKS]",
    }
}

/// A part of EPANET's input that isn't supported, by its number.
pub(crate) fn general_part(part: u8) -> &'static str {
    match part {
        1 =>
            "only Chezy-Manning (HEADLOSS C-M) and Hazen-Williams head losses (HEADLOSS H-W) are supported",
        2 =>
            "PRV, PSV and PBV aren't supported: where the valve's state is known, put a pipe, a closed pipe, a TCV or an FCV in its place",
        3 =>
            "pumps of constant power (POWER) aren't supported: give the pump a curve (HEAD) of heads and flows near where it runs",
        4 =>
            "this pump's curve isn't supported: one point above 0 in both numbers, three points on a parabola with its top at flow 0, or four points and more",
        5 => "the emitter exponent has to be 0.5",
        6 => "the pressure exponent has to be 0.5",
        7 => "the specific gravity has to be 1",
        8 =>
            "a simple control may watch the level of a tank alone: a rule in [RULES] can watch a pressure or a head",
        10 =>
            "DEMAND, FILLTIME and DRAINTIME, and = and <> of quantities, aren't supported in rules: take FLOW, LEVEL, <= or >=",
        11 => "nothing may set a pipe with a check valve (CV), as in EPANET",
        13 =>
            "pressures in kPa aren't supported: they are in metres or in pounds a square inch, as the flow unit decides",
        _ => "a part of EPANET's input that isn't supported (docs/REFUSALS.md)",
    }
}

/// A limit that is passed, by its number.
pub(crate) fn general_limit(limit: u8) -> &'static str {
    match limit {
        1 => "the text has more than 64 MiB, the most that is read",
        2 => "the line has more than 1,024 bytes",
        3 => "an ID has more than 31 bytes",
        4 => "this is the 10,001st junction, and 10,000 are the most",
        5 => "this is the 1,001st reservoir, and 1,000 are the most",
        6 => "this is the 33rd tank, and 32 are the most",
        7 => "this is the 20,001st link, and pipes, pumps and valves are 20,000 at most together",
        8 => "there are more than 1,000 patterns, or more than 1,000,000 multipliers in all",
        9 => "there are more than 1,000 curves, or more than 100,000 points in all",
        10 => "this is the 100,001st row of demands, and 100,000 are the most",
        11 => "this is the 10,001st control, and 10,000 are the most",
        12 => "there are more than 10,000 rules, or more than 100,000 clauses and actions in all",
        13 =>
            "its capacity, the square of its flow for a unit of head, is out of what the program's numbers hold: it is far too wide or too narrow for its length or its losses",
        _ => "a limit of the program is passed (docs/REFUSALS.md)",
    }
}

/// What is said of a file without a byte.
pub(crate) const NO_BYTES: &str =
    "the file is empty: the network is an EPANET input file, with a reservoir or a tank at least";

/// What a cause means of a file as a whole.
pub(crate) fn whole(cause: Cause) -> &'static str {
    match cause {
        Cause::Unsupported(1) =>
            "there is no HEADLOSS line in [OPTIONS]: write HEADLOSS H-W there where each roughness is a C of Hazen-Williams, as EPANET takes it then, HEADLOSS C-M where it is Manning's n",
        _ => general(cause),
    }
}

// ---- Syntax

/// What is wrong with the form of a row.
#[derive(Clone, Copy)]
pub(crate) enum Wrong<'a> {
    /// A heading of no section.
    Heading(&'a [u8]),
    /// The beginning of a heading.
    ShortHeading(&'a [u8], &'static str),
    /// A heading but for a letter.
    NearHeading(&'a [u8], &'static str),
    /// Words behind a heading.
    BehindHeading(&'a [u8]),
    /// A byte that isn't printing ASCII, and its column.
    NotAscii(u8, usize),
    /// A text of two bytes for each letter.
    TwoBytes,
    /// A row before the first heading.
    NoSection,
    /// A certificate in the place of the network.
    Certificate,
    /// A report in the place of the network.
    Report,
    /// Words are missing: how many there are, how many are needed, what the row should be.
    TooFew(usize, usize, &'static str),
    /// The same where a semicolon stands within a word.
    CommentWithin(usize, usize, &'static str),
    /// A word too many; what the row should be.
    TooMany(&'a [u8], &'static str),
    /// A word that isn't one of some keywords.
    Word(&'a [u8], &'static str),
    /// A word that isn't one of some keywords, whose beginning it is.
    ShortWord(&'a [u8], &'static [u8]),
    /// No form of a time.
    Moment(&'a [u8]),
    /// No unit of a time.
    Unit(&'a [u8]),
    /// A unit behind h:mm.
    UnitBehindMoment(&'a [u8], &'a [u8]),
}

// One word, or several.
fn words_word(count: usize) -> &'static str {
    if count == 1 {
        return "word";
    }
    "words"
}

impl Display for Wrong<'_> {
    fn fmt<W: fmt::Write>(&self, f: &mut Formatter<W>) -> fmt::Result {
        match *self {
            Wrong::Heading(word) => write_around("", word, " is no section's heading", f),
            Wrong::ShortHeading(word, heading) => {
                write!(f, "{} is no section's heading: write {heading}", Name(word))
            }
            Wrong::NearHeading(word, heading) => {
                write!(
                    f,
                    "{} is no section's heading: did you mean {heading}?",
                    Name(word)
                )
            }
            Wrong::BehindHeading(word) => {
                write_around(
                    "",
                    word,
                    " stands behind a heading, which stands alone in its line",
                    f,
                )
            }
            Wrong::NotAscii(byte, column) => {
                write!(
                    f,
                    "byte {byte} in column {column} isn't printing ASCII: it may stand in comments and in sections that are skipped, as [TITLE] and [TAGS], but in no name and no keyword"
                )
            }
            Wrong::TwoBytes => f.write_str(
                "the file seems to be in UTF-16, with two bytes for each letter: save it as plain text in ASCII or UTF-8",
            ),
            Wrong::NoSection => f.write_str("a row before the first heading, as [JUNCTIONS]"),
            Wrong::Certificate => f.write_str(
                "this is a certificate and no network: in the command NET stands before CERT",
            ),
            Wrong::Report => f.write_str(
                "this is a report and no network: NET is the EPANET input file that was run",
            ),
            Wrong::TooFew(count, needed, form) => {
                let words = words_word(count);
                write!(
                    f,
                    "the row has {count} {words}, and needs {needed} at least: {form}"
                )
            }
            Wrong::CommentWithin(count, needed, form) => {
                let words = words_word(count);
                write!(
                    f,
                    "; begins a comment, and before it the row has {count} {words}, and needs {needed} at least, parted by spaces: {form}"
                )
            }
            Wrong::TooMany(word, form) => write!(f, "{} is a word too many for {form}", Name(word)),
            Wrong::Word(word, words) => write!(
                f,
                "{} stands where {} should",
                Name(word),
                OneOf(words)
            ),
            Wrong::ShortWord(word, whole) => {
                write!(f, "{} isn't written in full: {}", Name(word), Name(whole))
            }
            Wrong::Moment(word) => {
                write_around(
                    "",
                    word,
                    " is no time: h:mm or h:mm:ss, with minutes and seconds below 60",
                    f,
                )
            }
            Wrong::Unit(word) => {
                write_around(
                    "",
                    word,
                    " is no unit of a time: SEC, SECONDS, MIN, MINUTES, HOUR, HOURS, DAY or DAYS",
                    f,
                )
            }
            Wrong::UnitBehindMoment(unit, moment) => {
                write!(
                    f,
                    "{} may not stand behind {}, which says hours and minutes",
                    Name(unit),
                    Name(moment)
                )
            }
        }
    }
}

/// What is wrong with the form of a line of one section.
#[derive(Clone, Copy)]
pub(crate) enum WrongLine<'a> {
    /// No option.
    Option(&'a [u8]),
    /// The option UNITS with a word before it; the unit.
    FlowUnits(&'a [u8]),
    /// No time.
    Time(&'a [u8]),
    /// A first word of no line of a rule.
    RuleWord(&'a [u8]),
    /// A line of a rule in a wrong place; what may stand there.
    RuleOrder(&'a [u8], &'static str),
    /// A rule without THEN.
    NoThen(&'a [u8]),
    /// No keyword of a pump.
    PumpWord(&'a [u8]),
    /// A keyword of a pump for the second time.
    PumpWordAgain(&'a [u8]),
    /// A keyword of a pump without a value.
    PumpWordAlone(&'a [u8]),
    /// A pump without HEAD.
    NoHead(&'a [u8]),
    /// A pump as in EPANET 1.
    OldPump,
    /// A tank's row with the words of a reservoir.
    ReservoirAmongTanks(&'a [u8]),
    /// A number as the state of a pipe.
    PipeHasNoSetting(&'a [u8]),
    /// A number as the state of a general purpose valve.
    GeneralValveHasNoSetting(&'a [u8]),
}

impl Display for WrongLine<'_> {
    fn fmt<W: fmt::Write>(&self, f: &mut Formatter<W>) -> fmt::Result {
        match *self {
            WrongLine::Option(word) => write_around(
                "",
                word,
                " is no option that this program knows",
                f,
            ),
            WrongLine::FlowUnits(unit) => write_around(
                "the option is the one word UNITS: write UNITS ",
                unit,
                "",
                f,
            ),
            WrongLine::Time(word) => {
                write_around(
                    "",
                    word,
                    " begins no line of [TIMES]: DURATION, HYDRAULIC, PATTERN, REPORT, RULE, START, QUALITY or STATISTIC",
                    f,
                )
            }
            WrongLine::RuleWord(word) => {
                write_around(
                    "",
                    word,
                    " begins no line of a rule: RULE, IF, AND, OR, THEN, ELSE or PRIORITY",
                    f,
                )
            }
            WrongLine::RuleOrder(word, words) => {
                write!(
                    f,
                    "{} can't stand here in a rule: {} can",
                    Name(word),
                    OneOf(words)
                )
            }
            WrongLine::NoThen(rule) => write_around("the rule ", rule, " has no THEN line", f),
            WrongLine::PumpWord(word) => {
                write_around(
                    "",
                    word,
                    " stands where HEAD, SPEED or PATTERN of a pump should",
                    f,
                )
            }
            WrongLine::PumpWordAgain(word) => write_around("", word, " stands twice", f),
            WrongLine::PumpWordAlone(word) => write_around("", word, " has nothing behind it", f),
            WrongLine::NoHead(pump) => write_around(
                "the pump ",
                pump,
                " has no HEAD with a curve",
                f,
            ),
            WrongLine::OldPump => {
                f.write_str(
                    "numbers for a pump, as in EPANET 1, where HEAD and a curve should stand",
                )
            }
            WrongLine::ReservoirAmongTanks(id) => {
                write_around(
                    "a tank has six words at least; if ",
                    id,
                    " is a reservoir, its row goes to [RESERVOIRS]",
                    f,
                )
            }
            WrongLine::PipeHasNoSetting(pipe) => {
                write_around(
                    "",
                    pipe,
                    " is a pipe, whose state is OPEN or CLOSED and no number",
                    f,
                )
            }
            WrongLine::GeneralValveHasNoSetting(valve) => {
                write_around(
                    "",
                    valve,
                    " is a general purpose valve, whose state is OPEN or CLOSED and no number",
                    f,
                )
            }
        }
    }
}

// ---- Number

/// What is wrong with a word that should be a number.
#[derive(Clone, Copy)]
pub(crate) enum WrongNumber<'a> {
    /// No number.
    NoNumber(&'a [u8]),
    /// A comma for a point: what stands before it and behind it.
    Comma(&'a [u8], &'a [u8], &'a [u8]),
    /// Too large.
    TooLarge(&'a [u8]),
    /// Neither OPEN nor CLOSED nor a number.
    State(&'a [u8]),
    /// No number of hours.
    Time(&'a [u8]),
}

impl Display for WrongNumber<'_> {
    fn fmt<W: fmt::Write>(&self, f: &mut Formatter<W>) -> fmt::Result {
        match *self {
            WrongNumber::NoNumber(word) => write_around("", word, " is no number", f),
            WrongNumber::Comma(word, whole, decimals) => {
                write!(
                    f,
                    "{} is no number: write {}.{}",
                    Name(word),
                    Name(whole),
                    Name(decimals)
                )
            }
            WrongNumber::TooLarge(word) => write_around(
                "",
                word,
                " is above 10^12 in magnitude, the most that a number may be",
                f,
            ),
            WrongNumber::State(word) => write_around(
                "",
                word,
                " is neither OPEN nor CLOSED nor a number",
                f,
            ),
            WrongNumber::Time(word) => write_around(
                "",
                word,
                " is no time: a number, h:mm or h:mm:ss",
                f,
            ),
        }
    }
}

// ---- Range

impl Display for Bound {
    fn fmt<W: fmt::Write>(&self, f: &mut Formatter<W>) -> fmt::Result {
        match *self {
            Bound::Free => f.write_str("within its range"),
            Bound::NotNegative => f.write_str("at least 0"),
            Bound::UpTo(most) => write!(f, "from 0 to {most}"),
            Bound::Above0To(most) => write!(f, "above 0 and at most {most}"),
            Bound::Within(most) => write!(f, "at most {most} in magnitude"),
        }
    }
}

/// What is out of range in a row.
#[derive(Clone, Copy)]
pub(crate) enum WrongRange<'a> {
    /// A number: what it is, its word, its range.
    Number(&'static str, &'a [u8], Bound),
    /// Both ends of a link are one node.
    OneNode(&'a [u8]),
    /// One level above another one: which, their words.
    Levels(&'static str, &'a [u8], &'static str, &'a [u8]),
    /// A diameter of a tank without a volume curve.
    TankDiameter(&'a [u8]),
    /// A roughness: its word, its range, the formula of the file.
    Roughness(&'a [u8], Bound, Formula),
    /// A time of day in hour 0, and AM or PM behind it.
    HourZero(&'a [u8], &'a [u8]),
    /// A time of day behind hour 12, and AM or PM behind it.
    LateHour(&'a [u8], &'a [u8]),
    /// Something of a row of a section.
    Section(Section),
}

impl Display for WrongRange<'_> {
    fn fmt<W: fmt::Write>(&self, f: &mut Formatter<W>) -> fmt::Result {
        match *self {
            WrongRange::Number(what, word, bound) => {
                write!(f, "the {what} is {}, and has to be {bound}", Name(word))
            }
            WrongRange::OneNode(node) => {
                write_around(
                    "both ends are the node ",
                    node,
                    ": a link joins two nodes",
                    f,
                )
            }
            WrongRange::Levels(low, lower, high, higher) => {
                write!(
                    f,
                    "the {low} {} is above the {high} {}",
                    Name(lower),
                    Name(higher)
                )
            }
            WrongRange::TankDiameter(word) => {
                write_around(
                    "the diameter is ",
                    word,
                    ", and has to be from 0.1 to 1000 (from 0 with a volume curve)",
                    f,
                )
            }
            WrongRange::Roughness(word, bound, Formula::HazenWilliams) => write!(
                f,
                "the C of Hazen-Williams is {}, and has to be {bound}",
                Name(word)
            ),
            WrongRange::Roughness(word, bound, formula) => write!(
                f,
                "the {ROUGHNESS} is {}, and has to be {bound}{formula}",
                Name(word)
            ),
            WrongRange::HourZero(moment, half) => write!(
                f,
                "{} {} is in hour 0: with AM or PM hours are 1 to 12, and midnight is 12:00 AM",
                Name(moment),
                Name(half)
            ),
            WrongRange::LateHour(moment, half) => write!(
                f,
                "{} {} is behind hour 12: with AM or PM hours are 1 to 12, and without they go on to 23",
                Name(moment),
                Name(half)
            ),
            WrongRange::Section(section) => write!(
                f,
                "a value is out of its range: {}",
                ranges_of(section)
            ),
        }
    }
}

// What is said of a roughness by the formula of the file.
impl Display for Formula {
    fn fmt<W: fmt::Write>(&self, f: &mut Formatter<W>) -> fmt::Result {
        match *self {
            Formula::Manning | Formula::HazenWilliams => Ok(()),
            Formula::DarcyWeisbach(line) => write!(
                f,
                ". Line {line} says HEADLOSS D-W, and a roughness of Darcy-Weisbach is no Manning n: {OTHER_FORMULA}"
            ),
            Formula::Untold => f.write_str(
                ". There is no HEADLOSS line, so EPANET takes Hazen-Williams: if these are its C, write HEADLOSS H-W",
            ),
        }
    }
}

/// The ranges of the numbers of a section.
pub(crate) fn ranges_of(section: Section) -> &'static str {
    match section {
        Section::Junctions | Section::Demands =>
            "elevations are at most 10,000 m in magnitude, demands at most 10^8 m3 a day",
        Section::Reservoirs =>
            "a head is at most 10,000 m in magnitude, also times each multiplier of its pattern",
        Section::Tanks =>
            "bottom, and bottom and maximum level together, are at most 10,000 m in magnitude; the maximum level is at least 0.01 foot (3.048 mm) above the minimum; a volume curve rises from at least 0 and reaches from the minimum to the maximum level",
        Section::Pipes =>
            "length above 0 to 10^6, diameter above 0 to 10^4, roughness above 0 to 10 (a C of Hazen-Williams to 10,000), minor loss 0 to 10^6",
        Section::Pumps =>
            "the speed, and each multiplier of its pattern, is 0 to 10; the head at flow 0 is at most 1,000 m; flows of its curve are at most 10^8 m3 a day; in a curve of four points and more flows rise from at least 0 and heads fall to at least 0",
        Section::Valves =>
            "the setting of an FCV is a flow of at most 10^8 m3 a day; the curve of a GPV begins at 0 and 0, and both its numbers rise",
        Section::Emitters => "a coefficient is 0 to 10^6",
        Section::Curves => "numbers are at most 10^12 in magnitude",
        Section::Patterns => "multipliers are at most 10^6 in magnitude",
        Section::Status =>
            "the speed of a pump is 0 to 10, the setting of a TCV 0 to 10^6, of an FCV a flow from 0 to 10^8 m3 a day",
        Section::Controls =>
            "a time is 0 to 10^8 seconds, a time of day below 24 hours (with AM or PM from 1:00 to 12:59), a level at most 10,000 m, a speed 0 to 10, the setting of a TCV 0 to 10^6, of an FCV a flow from 0 to 10^8 m3 a day",
        Section::Rules =>
            "a time is 0 to 10^8 seconds, a time of day below 24 hours (with AM or PM from 1:00 to 12:59), a speed 0 to 10, the setting of a TCV 0 to 10^6, of an FCV a flow from 0 to 10^8 m3 a day",
        Section::Options =>
            "a pressure is at least 0 and at most 10,000 m; with DEMAND MODEL PDA the required pressure is at least 0.1 above the minimum one",
        Section::Times =>
            "a time is 0 to 10^8 seconds, a step at least 1 second, a time of day below 24 hours (with AM or PM from 1:00 to 12:59)",
    }
}

// ---- DuplicateId and UnknownName

/// An ID that an earlier row has: the ID, what the row is, its line.
#[derive(Clone, Copy)]
pub(crate) struct Duplicate<'a> {
    /// The ID.
    pub id: &'a [u8],
    /// The section of the row that has it.
    pub section: Section,
    /// The line of that row.
    pub line: u32,
}

impl Display for Duplicate<'_> {
    fn fmt<W: fmt::Write>(&self, f: &mut Formatter<W>) -> fmt::Result {
        let line = self.line;
        write!(
            f,
            "{} is called {} already, in line {line}",
            kind_of(self.section),
            Name(self.id)
        )
    }
}

/// A name that names nothing, or nothing of the right kind.
#[derive(Clone, Copy)]
pub(crate) enum WrongName<'a> {
    /// No node.
    NoNode(&'a [u8]),
    /// No link.
    NoLink(&'a [u8]),
    /// No pattern.
    NoPattern(&'a [u8]),
    /// No curve.
    NoCurve(&'a [u8]),
    /// A node that is no junction, and what it is.
    NoJunction(&'a [u8], Section),
    /// Another kind than the word before it says: that word, the name, what it is.
    OtherKind(&'a [u8], &'a [u8], Section),
    /// The pressure of a reservoir.
    ReservoirPressure(&'a [u8]),
    /// A name in quotes, and the same without, which is one.
    Quoted(&'a [u8], &'a [u8]),
}

impl Display for WrongName<'_> {
    fn fmt<W: fmt::Write>(&self, f: &mut Formatter<W>) -> fmt::Result {
        match *self {
            WrongName::NoNode(name) => write_around("no node is called ", name, "", f),
            WrongName::NoLink(name) => write_around("no link is called ", name, "", f),
            WrongName::NoPattern(name) => write_around("no pattern is called ", name, "", f),
            WrongName::NoCurve(name) => write_around("no curve is called ", name, "", f),
            WrongName::NoJunction(name, section) => {
                write!(
                    f,
                    "{} is {}, and this row is for a junction alone",
                    Name(name),
                    kind_of(section)
                )
            }
            WrongName::OtherKind(said, name, section) => {
                write!(
                    f,
                    "{} stands before {}, which is {}",
                    Name(said),
                    Name(name),
                    kind_of(section)
                )
            }
            WrongName::ReservoirPressure(name) => {
                write_around(
                    "",
                    name,
                    " is a reservoir, which has a HEAD and no PRESSURE",
                    f,
                )
            }
            WrongName::Quoted(name, bare) => write!(
                f,
                "{} is read with its quotes, and nothing is called so: write {}",
                Name(name),
                Name(bare)
            ),
        }
    }
}

/// A name among the words that no junction of the file has.
pub(crate) fn no_junction<W: fmt::Write>(
    f: &mut Formatter<W>,
    file: &str,
    name: Name<'_>,
) -> fmt::Result {
    write!(
        f,
        "{file}: no junction is called {name} (reservoirs and tanks are none)"
    )
}

// ---- Unsupported

// What helps where the formula is Darcy-Weisbach.
const OTHER_FORMULA: &str =
    "give each pipe the Manning roughness that loses as much at its flow, as scripts/manning.py does for Hazen-Williams (docs/HAZEN_WILLIAMS.md)";

/// A part that isn't supported, with its names.
#[derive(Clone, Copy)]
pub(crate) enum WrongPart<'a> {
    /// Darcy-Weisbach.
    DarcyWeisbach,
    /// A valve's ID and type.
    Valve(&'a [u8], &'a [u8]),
    /// A pump of constant power.
    Power(&'a [u8]),
    /// A pump, its curve, and how many points that has.
    Curve(&'a [u8], &'a [u8], usize),
    /// A control on a node that is no tank, and what it is.
    ControlOn(&'a [u8], Section),
    /// An attribute in a rule.
    Attribute(&'a [u8]),
    /// A relation of quantities.
    Relation(&'a [u8]),
    /// A pipe with a check valve.
    CheckValve(&'a [u8]),
    /// A number that has to be another one.
    Only(u8, &'a [u8]),
}

impl Display for WrongPart<'_> {
    fn fmt<W: fmt::Write>(&self, f: &mut Formatter<W>) -> fmt::Result {
        match *self {
            WrongPart::DarcyWeisbach => write!(
                f,
                "Darcy-Weisbach head losses (D-W) aren't supported, only Chezy-Manning (HEADLOSS C-M) and Hazen-Williams (HEADLOSS H-W): {OTHER_FORMULA}"
            ),
            WrongPart::Valve(valve, kind) => write!(
                f,
                "the valve {} is a {}: {}",
                Name(valve),
                Name(kind),
                general_part(2)
            ),
            WrongPart::Power(pump) => write!(
                f,
                "the pump {} has POWER: {}",
                Name(pump),
                general_part(3)
            ),
            WrongPart::Curve(pump, curve, points) => {
                write!(
                    f,
                    "the pump {} has the curve {} of {points} {}: {}",
                    Name(pump),
                    Name(curve),
                    points_word(points),
                    curve_advice(points)
                )
            }
            WrongPart::ControlOn(node, section) => write!(
                f,
                "{} is {}: {}",
                Name(node),
                kind_of(section),
                general_part(8)
            ),
            WrongPart::Attribute(word) => write_around(
                "",
                word,
                " isn't supported in rules: take FLOW, PRESSURE or LEVEL",
                f,
            ),
            WrongPart::Relation(word) => write_around(
                "",
                word,
                " isn't supported between quantities: take <= or >=",
                f,
            ),
            WrongPart::CheckValve(pipe) => write!(
                f,
                "{} is a pipe with a check valve: {}",
                Name(pipe),
                general_part(11)
            ),
            WrongPart::Only(part, word) => write!(
                f,
                "{}, and is {}",
                general_part(part),
                Name(word)
            ),
        }
    }
}

// One point, or several.
fn points_word(points: usize) -> &'static str {
    if points == 1 {
        return "point";
    }
    "points"
}

// What a pump's curve of so many points should be.
fn curve_advice(points: usize) -> &'static str {
    match points {
        1 => "both numbers of the one point have to be above 0",
        2 => "give it one point, three on a parabola with its top at flow 0, or four and more",
        3 =>
            "its three points have to lie on a parabola with its top at flow 0, with flows that rise from 0 and heads that fall; a fourth point makes straight lines of it",
        _ => general_part(4),
    }
}

// ---- Limit

/// A limit that is passed, with its names.
#[derive(Clone, Copy)]
pub(crate) enum WrongSize<'a> {
    /// How many bytes the line has.
    Line(usize),
    /// An ID, and how many bytes it has.
    Id(&'a [u8], usize),
    /// What the row is, and its ID.
    Capacity(&'static str, &'a [u8]),
}

impl Display for WrongSize<'_> {
    fn fmt<W: fmt::Write>(&self, f: &mut Formatter<W>) -> fmt::Result {
        match *self {
            WrongSize::Line(bytes) => {
                write!(
                    f,
                    "the line has {bytes} bytes: 1,024 are the most, its comment counted and its end not"
                )
            }
            WrongSize::Id(id, bytes) => write!(
                f,
                "the ID {} has {bytes} bytes: 31 are the most",
                Name(id)
            ),
            WrongSize::Capacity(kind, id) => write!(
                f,
                "{kind} {}: {}",
                Name(id),
                general_limit(13)
            ),
        }
    }
}

// ---- what mends a row

/// What is said of a row besides.
#[derive(Clone, Copy)]
pub(crate) enum Remedy {
    /// Nothing.
    None,
    /// How many words it has, and what it should be: a word before the wrong one may be missing.
    Count(usize, &'static str),
    /// `scripts/prepare.py` writes it as it has to be.
    Prepare,
    /// `scripts/prepare.py` says which fourth point a pump's curve may have.
    FourthPoint,
    /// A roughness too large for Manning's may be a coefficient of Hazen-Williams.
    HazenWilliams,
    /// The units that are taken where no line says them.
    NoUnits,
}

/// The same, for a file.
#[derive(Clone, Copy)]
pub(crate) struct RemedyFor<'a> {
    /// What is said.
    pub remedy: Remedy,
    /// The file's name.
    pub file: &'a str,
}

impl Display for RemedyFor<'_> {
    fn fmt<W: fmt::Write>(&self, f: &mut Formatter<W>) -> fmt::Result {
        let file = self.file;
        match self.remedy {
            Remedy::None => Ok(()),
            Remedy::Count(count, form) => {
                let words = words_word(count);
                write!(
                    f,
                    "; the row has {count} {words}, and one before it may be missing: {form}"
                )
            }
            Remedy::Prepare => write!(
                f,
                ". scripts/prepare.py {file} -o NEW.inp rewrites it as EPANET reads it"
            ),
            Remedy::FourthPoint => write!(
                f,
                ". scripts/prepare.py {file} -o NEW.inp says which point on EPANET's own curve could be the fourth"
            ),
            Remedy::HazenWilliams => f.write_str(
                ". If these are C of Hazen-Williams, write HEADLOSS H-W",
            ),
            Remedy::NoUnits => f.write_str(
                ". There is no UNITS line in [OPTIONS], so GPM, feet and psi are taken",
            ),
        }
    }
}

/// What is said of a row.
#[derive(Clone, Copy)]
pub(crate) enum Said<'a> {
    /// The form of a line.
    Wrong(Wrong<'a>),
    /// The form of a line of one section.
    WrongLine(WrongLine<'a>),
    /// No number, or a large one.
    WrongNumber(WrongNumber<'a>),
    /// A value out of its range.
    WrongRange(WrongRange<'a>),
    /// An ID that stands twice.
    Duplicate(Duplicate<'a>),
    /// A name of nothing.
    WrongName(WrongName<'a>),
    /// A part that isn't supported.
    WrongPart(WrongPart<'a>),
    /// A limit that is passed.
    WrongSize(WrongSize<'a>),
    /// What a cause means, no more.
    General(Cause),
}

impl Display for Said<'_> {
    fn fmt<W: fmt::Write>(&self, f: &mut Formatter<W>) -> fmt::Result {
        match *self {
            Said::Wrong(wrong) => write!(f, "{wrong}"),
            Said::WrongLine(wrong) => write!(f, "{wrong}"),
            Said::WrongNumber(wrong) => write!(f, "{wrong}"),
            Said::WrongRange(wrong) => write!(f, "{wrong}"),
            Said::Duplicate(wrong) => write!(f, "{wrong}"),
            Said::WrongName(wrong) => write!(f, "{wrong}"),
            Said::WrongPart(wrong) => write!(f, "{wrong}"),
            Said::WrongSize(wrong) => write!(f, "{wrong}"),
            Said::General(cause) => f.write_str(general(cause)),
        }
    }
}

// ---- stops

/// Which tank is pinned.
#[derive(Clone, Copy)]
pub(crate) enum Pinned<'a> {
    /// None.
    None,
    /// This one.
    Tank(&'a [u8]),
}

/// On which side of the solutions heads lie, and which tank is pinned.
#[derive(Clone, Copy)]
pub(crate) struct Bounded<'a> {
    /// The tank.
    pub pinned: Pinned<'a>,
    /// The side.
    pub side: Side,
}

/// An interval of a quantity.
#[derive(Clone, Copy)]
pub(crate) struct Compared {
    /// The lower end.
    pub lo: Quantity,
    /// The upper end.
    pub hi: Quantity,
}

/// The level of a tank where it isn't decided whether it has come to where a period ends.
#[derive(Clone, Copy)]
pub(crate) struct Reached<'a> {
    /// The tank.
    pub tank: &'a [u8],
    /// Its level.
    pub level: Compared,
    /// What the period ends by.
    pub aim: Aim,
    /// The level at which it does.
    pub target: Quantity,
}

/// What a clause of a rule speaks of.
#[derive(Clone, Copy)]
pub(crate) enum Watched<'a> {
    /// The head of a node.
    Head(&'a [u8]),
    /// The pressure at a node.
    Pressure(&'a [u8]),
    /// The level of a tank.
    Level(&'a [u8]),
    /// The flow of a link.
    Flow(&'a [u8]),
    /// Anything else.
    Other,
}

/// What a stop means.
#[derive(Clone, Copy)]
pub(crate) enum Meaning<'a> {
    /// No heads bound the solutions; the junction that is a hint.
    NoCertificate {
        bounded: Bounded<'a>,
        junction: &'a [u8],
    },
    /// A tank that may be full, or empty.
    Tank {
        id: &'a [u8],
        level: Compared,
        full: bool,
        bound: Quantity,
    },
    /// A rule that may hold.
    Rule {
        id: &'a [u8],
        clause: u64,
        watched: Watched<'a>,
        level: Compared,
        value: i128,
    },
    /// A level control that may act.
    Control {
        number: u64,
        tank: &'a [u8],
        level: Compared,
        bound: Quantity,
    },
    /// The end of the period, and which level may bring it, where that is known.
    Event {
        earliest: Clock,
        latest: Clock,
        reached: Option<Reached<'a>>,
        unit: FlowUnit,
    },
    /// Rounds that are spent.
    Rounds {
        bounded: Bounded<'a>,
        rounds: u32,
    },
    /// A demand out of range.
    Demand {
        junction: &'a [u8],
        demand: Quantity,
    },
    /// Something isn't decided.
    General,
}

impl Display for Pinned<'_> {
    fn fmt<W: fmt::Write>(&self, f: &mut Formatter<W>) -> fmt::Result {
        match *self {
            Pinned::None => Ok(()),
            Pinned::Tank(tank) => write_around(", with the tank ", tank, " pinned", f),
        }
    }
}

impl Display for Bounded<'_> {
    fn fmt<W: fmt::Write>(&self, f: &mut Formatter<W>) -> fmt::Result {
        let pinned = self.pinned;
        match self.side {
            Side::Upper => write!(f, "from above (upper side{pinned})"),
            Side::Lower => write!(f, "from below (lower side{pinned})"),
        }
    }
}

impl Display for Compared {
    fn fmt<W: fmt::Write>(&self, f: &mut Formatter<W>) -> fmt::Result {
        write!(f, "between {} and {}", self.lo, self.hi)
    }
}

impl Display for Watched<'_> {
    fn fmt<W: fmt::Write>(&self, f: &mut Formatter<W>) -> fmt::Result {
        match *self {
            Watched::Head(node) => write_around("the head of ", node, "", f),
            Watched::Pressure(node) => write_around("the pressure of ", node, "", f),
            Watched::Level(tank) => write_around("the level of ", tank, "", f),
            Watched::Flow(link) => write_around("the flow of ", link, "", f),
            Watched::Other => f.write_str("what it measures"),
        }
    }
}

impl Display for Aim {
    fn fmt<W: fmt::Write>(&self, f: &mut Formatter<W>) -> fmt::Result {
        match *self {
            Aim::Maximum => f.write_str("its maximum"),
            Aim::Minimum => f.write_str("its minimum"),
            Aim::Control(number) => write!(f, "the level of control {number}"),
        }
    }
}

impl Display for Reached<'_> {
    fn fmt<W: fmt::Write>(&self, f: &mut Formatter<W>) -> fmt::Result {
        let Reached {
            tank,
            level,
            aim,
            target,
        } = *self;
        write!(
            f,
            "the level of the tank {} is {level}, and {aim} {target}",
            Name(tank)
        )
    }
}

// The level that may bring the end of a period at a time, where it is known.
fn write_reached<W: fmt::Write>(
    time: Clock,
    reached: Option<Reached<'_>>,
    f: &mut Formatter<W>,
) -> fmt::Result {
    match reached {
        Some(reached) => write!(f, ". At {time} {reached}"),
        None => Ok(()),
    }
}

// What is said of units that may have been meant otherwise.
fn units_word(unit: FlowUnit) -> &'static str {
    match unit {
        FlowUnit::Gpm =>
            ". The unit is GPM and levels are in feet, as they are too where the file has no UNITS line",
        _ => "",
    }
}

// Which bound of a tank, and which state.
fn tank_state(full: bool) -> &'static str {
    if full { "full" } else { "empty" }
}

fn tank_bound(full: bool) -> &'static str {
    if full { "maximum" } else { "minimum" }
}

impl Display for Meaning<'_> {
    fn fmt<W: fmt::Write>(&self, f: &mut Formatter<W>) -> fmt::Result {
        match *self {
            Meaning::NoCertificate { bounded, junction } => {
                write!(
                    f,
                    "no heads between -100,000 m and 100,000 m bound the solutions {bounded}. Look at junction {} and around it: closed or one-way links, or a tank that is empty or full, may cut it off from every source or outlet, or the links can't carry the demands. It is so too where the demand there is 0",
                    Name(junction)
                )
            }
            Meaning::Tank {
                id,
                level,
                full,
                bound,
            } => {
                let state = tank_state(full);
                write!(
                    f,
                    "it isn't decided whether the tank {} is {state} at the period's end. Its level is {level}, and its {} {bound}: --tight, a smaller --width or another hydraulic time step may decide it",
                    Name(id),
                    tank_bound(full)
                )
            }
            Meaning::Rule {
                id,
                clause,
                watched,
                level,
                value,
            } => {
                write!(
                    f,
                    "it isn't decided whether the rule {} holds. By its clause {clause} {watched} is compared with {}, and it is {level}: move the value away from where the quantity rests, or try --tight",
                    Name(id),
                    Billionths(value)
                )
            }
            Meaning::Control {
                number,
                tank,
                level,
                bound,
            } => {
                write!(
                    f,
                    "it isn't decided whether control {number} acts. The level of the tank {} is {level}, and the control's {bound}: another level, --tight or a shorter hydraulic time step may decide it",
                    Name(tank)
                )
            }
            Meaning::Event {
                earliest,
                latest,
                reached,
                unit,
            } => {
                write!(
                    f,
                    "it isn't decided in which second the period ends, between {earliest} and {latest}"
                )?;
                write_reached(earliest, reached, f)?;
                write!(f, "{END_ADVICE}{}", units_word(unit))
            }
            Meaning::Rounds { bounded, rounds } => {
                write!(
                    f,
                    "{rounds} rounds didn't find heads that bound the solutions {bounded}: give a greater --sweeps, or without --tight a greater --width; with --tight, try it without. So it looks too where two junctions or more are cut off together, where a demand is more than the links carry, or where a tank has just become empty"
                )
            }
            Meaning::Demand { junction, demand } => {
                write!(
                    f,
                    "the demand of junction {} is {demand} by the network, and this, or with --spread an end of its interval, is above 10^8 m3 a day in magnitude: look at its demands, their patterns and DEMAND MULTIPLIER, or at the row of FILE for it",
                    Name(junction)
                )
            }
            Meaning::General => f.write_str(
                "something isn't decided (docs/ANSWERS.md, \"The last line\")",
            ),
        }
    }
}

// What helps where it isn't decided when a period ends.
const END_ADVICE: &str =
    ": --slack 3600 goes on where an end is open by up to an hour; start from another level, or at another clock time; another level of a control does it too, by a millimetre. Where a pump stands before junctions without a demand, a small demand there (0.001) makes intervals narrower; --tight or a smaller --width may do so, and may not. With --spread the limits leave it open: take the instant you ask about alone, with the levels of tanks as LEVEL rows (docs/SPREADS.md), or narrower limits";

/// What is said of a tank that lets no water out, or takes none.
pub(crate) fn tank_at_bound(full: bool) -> &'static str {
    if full {
        " is full from then on, and takes no water"
    } else {
        " is empty from then on, and gives no water"
    }
}

/// Writes that two junctions are cut off together.
pub(crate) fn write_pair<W: fmt::Write>(
    first: Name<'_>,
    second: Name<'_>,
    f: &mut Formatter<W>,
) -> fmt::Result {
    write!(
        f,
        ". The junctions {first} and {second} are joined to each other alone: join one of them to a source, or leave them out"
    )
}

/// Writes that no water is drawn behind a check valve.
pub(crate) fn write_dead_end<W: fmt::Write>(pipe: Name<'_>, f: &mut Formatter<W>) -> fmt::Result {
    write!(
        f,
        ". No water is drawn behind the check valve of pipe {pipe}: a demand of 0.001 there, or an open pipe in its place, mends it"
    )
}

/// Where links are that may let no water pass.
#[derive(Clone, Copy)]
pub(crate) enum Place {
    /// They end at the junction.
    At,
    /// They end at a node beside it.
    Near,
    /// They are found in neither place.
    Beyond,
    /// No link ends at the junction.
    Nowhere,
}

/// Why a link may let no water pass, or pass it one way alone.
#[derive(Clone, Copy)]
pub(crate) enum Barrier<'a> {
    /// It is closed in the file.
    Closed,
    /// It is a pump or has a check valve.
    OneWay,
    /// The pattern of its speeds is 0 at times.
    Pattern,
    /// A control closes it, by its number counted from 1.
    Control(u64),
    /// A rule closes it.
    Rule(&'a [u8]),
}

/// What stands before the links that are named, and behind them.
pub(crate) fn place_of_links(place: Place) -> &'static str {
    match place {
        Place::At => ". Links there:",
        Place::Near => ". No link there is closed or one-way; links beside them:",
        Place::Nowhere => ". No link ends there",
        Place::Beyond =>
            ". No link there or beside those is closed in the file, by a control or a rule, or one-way: look further along",
    }
}

impl Display for Barrier<'_> {
    fn fmt<W: fmt::Write>(&self, f: &mut Formatter<W>) -> fmt::Result {
        match *self {
            Barrier::Closed => f.write_str("closed in the file"),
            Barrier::OneWay => f.write_str("one-way"),
            Barrier::Pattern => f.write_str("off by its pattern at times"),
            Barrier::Control(number) => write!(f, "closed by control {number}"),
            Barrier::Rule(rule) => write_around("closed by rule ", rule, "", f),
        }
    }
}

// ---- certificates

/// What of a record of a certificate isn't so.
#[derive(Clone, Copy)]
pub(crate) enum Untrue<'a> {
    /// Its number or its time.
    Place,
    /// A demand of the period.
    Demand,
    /// A vector, at a junction.
    Fails {
        bounded: Bounded<'a>,
        junction: &'a [u8],
    },
    /// A matter that is open.
    Open,
    /// Its length.
    Length,
    /// It stands behind the end.
    After,
}

// What too little water does at a junction where a vector of a side fails.
fn passes(side: Side) -> &'static str {
    match side {
        Side::Upper => "leaves",
        Side::Lower => "enters",
    }
}

impl Display for Untrue<'_> {
    fn fmt<W: fmt::Write>(&self, f: &mut Formatter<W>) -> fmt::Result {
        match *self {
            Untrue::Place => f.write_str(
                "the record there has another number, or doesn't begin where the last one ended",
            ),
            Untrue::Demand => f.write_str(
                "a demand is above 10^8 m3 a day in magnitude there, so no record can stand there",
            ),
            Untrue::Fails { bounded, junction } => write!(
                f,
                "its heads don't bound the solutions {bounded}: too little water {} junction {}, or the network isn't the one that was run",
                passes(bounded.side),
                Name(junction)
            ),
            Untrue::Open => f.write_str(
                "its heads are right, and so wide apart that they leave open when the period ends or what follows it",
            ),
            Untrue::Length => f.write_str("the period ends at another second than the record says"),
            Untrue::After => f.write_str("a record stands behind the one at the duration"),
        }
    }
}

/// Why the flow of a named link can't be bounded.
#[derive(Clone, Copy)]
pub(crate) enum Unbounded<'a> {
    /// There is no link of this number, counted from 0.
    NoLink { number: u32 },
    /// The link ends at a reservoir or a tank, or was named before.
    Name { link: &'a [u8] },
    /// The heads for it fail at a junction.
    Heads { link: &'a [u8], junction: &'a [u8] },
}

impl Display for Unbounded<'_> {
    fn fmt<W: fmt::Write>(&self, f: &mut Formatter<W>) -> fmt::Result {
        match *self {
            Unbounded::NoLink { number } => write!(
                f,
                "it names link number {number}, counted from 0, and there is no such link whose flow could be bounded"
            ),
            Unbounded::Name { link } => write_around(
                "it names link ",
                link,
                ", whose flow can't be bounded there: the link ends at a reservoir or a tank, or was named before",
                f,
            ),
            Unbounded::Heads { link, junction } => write!(
                f,
                "its heads for link {} don't bound the flow of that link: they fail at junction {}",
                Name(link),
                Name(junction)
            ),
        }
    }
}

/// A line of a certificate, and what is wrong with it.
#[derive(Clone, Copy)]
pub(crate) struct FaultyLine {
    /// The line, counted from 1.
    pub line: u64,
    /// What is wrong with it.
    pub fault: LineFault,
}

// What is said of a line that can't stand where it does.
fn write_grammar<W: fmt::Write>(line: u64, f: &mut Formatter<W>) -> fmt::Result {
    if line <= 1 {
        return f.write_str(NO_CERTIFICATE);
    }
    let last = line.saturating_sub(1);
    write!(
        f,
        "if the file ends at line {last} or within line {line}, it seems to be cut off, since it has no whole END line: the run that wrote it didn't finish, or the file was truncated. Else the line can't stand there: it has another word, a number that is too large or has a zero in front, a head too few or too many, or more than 64 bytes, or it stands behind the END line (docs/CERTIFICATES.md, \"Its lines\")"
    )
}

// What is said of a file that doesn't begin as a certificate.
const NO_CERTIFICATE: &str =
    "a certificate begins with a line HYDCERT, a version that goes here and its counts, and this file doesn't. A check with --spread takes version 4 alone, which runs with --spread or --slack write, and a search for a witness takes versions 1 to 3. Or the file is empty; or it is a report, which begins with HYD 1, or a network, where CERT should stand; or its lines end by a carriage return and a line feed, where a certificate has line feeds alone; or it is cut off there";

impl Display for FaultyLine {
    fn fmt<W: fmt::Write>(&self, f: &mut Formatter<W>) -> fmt::Result {
        match self.fault {
            LineFault::Grammar => write_grammar(self.line, f),
            LineFault::Counts => f.write_str(
                "it is of another network: another version, or other numbers of junctions or tanks",
            ),
            LineFault::End => f.write_str(
                "the END line isn't true: it counts other records than stand above it, or says FINISHED before the duration or STOPPED at it",
            ),
        }
    }
}

// ---- progress

impl Display for Progress {
    fn fmt<W: fmt::Write>(&self, f: &mut Formatter<W>) -> fmt::Result {
        let time = Hours(self.time);
        let duration = Hours(self.duration);
        let periods = self.periods;
        write!(f, "{time} of {duration}, {periods} periods")
    }
}

impl Display for PipesDone {
    fn fmt<W: fmt::Write>(&self, f: &mut Formatter<W>) -> fmt::Result {
        let done = self.done;
        let pipes = self.pipes;
        write!(f, "{done} of {pipes} pipes")
    }
}

// ---- names of links

/// Why a link can't be named.
#[derive(Clone, Copy)]
pub(crate) enum UnfitName<'a> {
    /// No link has the name.
    NoLink(&'a [u8]),
    /// The link doesn't join two junctions.
    NotBetweenJunctions(&'a [u8]),
}

impl Display for UnfitName<'_> {
    fn fmt<W: fmt::Write>(&self, f: &mut Formatter<W>) -> fmt::Result {
        match *self {
            UnfitName::NoLink(name) => {
                write_around(
                    "no link is called ",
                    name,
                    ", which --flows names: it takes IDs of pipes, pumps and valves, in the letter case of the file and parted by commas",
                    f,
                )
            }
            UnfitName::NotBetweenJunctions(name) => {
                write_around(
                    "the link ",
                    name,
                    ", which --flows names, ends at a reservoir or a tank: only links between two junctions can be named",
                    f,
                )
            }
        }
    }
}
