//! What is wrong with the form of a line.

use crate::filled_slots::{Filled, filled_slots};
use crate::forms::{Form, HEADINGS, Slot};
use crate::forms_of_options_and_times::{OPTIONS, TIMES};
use crate::forms_of_rows::form_of;
use crate::names::{Table, owner};
use crate::pump_pairs::pairs_of;
use crate::rows::{Row, body_of, is_one_of, words_of};
use crate::rule_lines::{has_then, is_acting, may_follow};
use crate::sentences::{Said, Wrong, WrongLine};
use hyd_lex::is_keyword;
use hyd_num::{all_digits, read_decimal};
use hyd_spec_lines::{Region, Section};

// The fewest letters of a beginning that is taken for a whole word.
const FEWEST: usize = 3;

// How a text of two bytes for each letter begins.
const LOW_BYTE_FIRST: &[u8] = &[0xFF, 0xFE];

const HIGH_BYTE_FIRST: &[u8] = &[0xFE, 0xFF];

const UNITS: &str = "SEC SECONDS MIN MINUTES HOUR HOURS DAY DAYS";

const RULE_WORDS: &str = "RULE IF AND OR THEN ELSE PRIORITY";

// ---- beginnings of words

// Whether a word is the beginning of a longer one, in any letter case.
fn is_beginning(word: &[u8], whole: &[u8]) -> bool {
    match whole.get(..word.len()) {
        Some(front) => word.len() < whole.len() && front.eq_ignore_ascii_case(word),
        None => false,
    }
}

// The first of some keywords whose beginning a word is.
fn whole_word(word: &[u8], keywords: &'static str) -> Option<&'static [u8]> {
    if word.len() < FEWEST {
        return None;
    }
    words_of(keywords.as_bytes()).find(|keyword| is_beginning(word, keyword))
}

// A word that isn't one of some keywords.
fn no_keyword<'a>(word: &'a [u8], keywords: &'static str) -> Wrong<'a> {
    match whole_word(word, keywords) {
        Some(whole) => Wrong::ShortWord(word, whole),
        None => Wrong::Word(word, keywords),
    }
}

// ---- lines

// A byte that may not stand outside comments.
fn is_plain(byte: u8) -> bool {
    byte == b'\t' || (b' ' <= byte && byte <= b'~')
}

// The first byte before a comment that isn't printing ASCII.
fn odd_byte<'a>(line: &[u8]) -> Option<Wrong<'a>> {
    let body = body_of(line);
    let place = body.iter().position(|byte| !is_plain(*byte))?;
    let byte = *body.get(place)?;
    if byte == 0 || line.starts_with(LOW_BYTE_FIRST) || line.starts_with(HIGH_BYTE_FIRST) {
        return Some(Wrong::TwoBytes);
    }
    Some(Wrong::NotAscii(byte, place.saturating_add(1)))
}

// The heading whose beginning a word is, in front of its bracket.
fn whole_heading(word: &[u8]) -> Option<&'static str> {
    let front = match word {
        [front @ .., b']'] => front,
        _ => word,
    };
    if front.len() < FEWEST + 2 {
        return None;
    }
    let heading = HEADINGS
        .iter()
        .find(|heading| is_beginning(front, heading.text.as_bytes()))?;
    Some(heading.text)
}

// How many bytes two texts have alike at their fronts, in any letter case.
fn alike_in_front(first: &[u8], second: &[u8]) -> usize {
    let mut count = 0_usize;
    for (one, other) in first.iter().zip(second) {
        if !one.eq_ignore_ascii_case(other) {
            return count;
        }
        count = count.saturating_add(1);
    }
    count
}

// What stands behind so many bytes.
fn bytes_behind(bytes: &[u8], count: usize) -> &[u8] {
    match bytes.get(count..) {
        Some(rest) => rest,
        None => b"",
    }
}

// Whether a word is another one but for a letter that is missing, too many or wrong.
fn is_near(word: &[u8], other: &[u8]) -> bool {
    let alike = alike_in_front(word, other);
    let behind = alike.saturating_add(1);
    let left = bytes_behind(word, alike);
    let rest = bytes_behind(word, behind);
    let wanted = bytes_behind(other, alike);
    let wanted_rest = bytes_behind(other, behind);
    left.eq_ignore_ascii_case(wanted_rest)
        || rest.eq_ignore_ascii_case(wanted)
        || rest.eq_ignore_ascii_case(wanted_rest)
}

// The heading that a word is but for a letter.
fn near_heading(word: &[u8]) -> Option<&'static str> {
    let heading = HEADINGS
        .iter()
        .find(|heading| is_near(word, heading.text.as_bytes()))?;
    Some(heading.text)
}

// A heading of no section.
fn no_heading(word: &[u8]) -> Wrong<'_> {
    match near_heading(word) {
        Some(heading) => Wrong::NearHeading(word, heading),
        None => Wrong::Heading(word),
    }
}

// What is wrong with a heading.
fn heading_fault<'a>(row: &Row<'a>) -> Option<Wrong<'a>> {
    if let Some(odd) = odd_byte(row.line) {
        return Some(odd);
    }
    let second = row.word(1);
    if !second.is_empty() {
        return Some(Wrong::BehindHeading(second));
    }
    let word = row.word(0);
    if HEADINGS
        .iter()
        .any(|heading| is_keyword(word, heading.text.as_bytes()))
    {
        return None;
    }
    match whole_heading(word) {
        Some(heading) => Some(Wrong::ShortHeading(word, heading)),
        None => Some(no_heading(word)),
    }
}

// ---- words by the form of the row

fn has_colon(word: &[u8]) -> bool {
    word.contains(&b':')
}

// One or two digits below 60.
fn is_sixtieth(part: &[u8]) -> bool {
    match part {
        [digit] => digit.is_ascii_digit(),
        [ten, digit] => b'0' <= *ten && *ten < b'6' && digit.is_ascii_digit(),
        _ => false,
    }
}

// Hours of one to six digits.
fn are_hours(part: &[u8]) -> bool {
    !part.is_empty() && part.len() <= 6 && all_digits(part)
}

// Whether a word with a colon is h:mm or h:mm:ss.
fn is_moment(word: &[u8]) -> bool {
    let mut parts = word.split(|byte| *byte == b':');
    let hours = parts.next().unwrap_or(b"");
    let minutes = parts.next().unwrap_or(b"");
    let seconds = parts.next().unwrap_or(b"0");
    are_hours(hours) && is_sixtieth(minutes) && is_sixtieth(seconds) && parts.next().is_none()
}

// What is wrong with the unit of a time.
fn unit_fault<'a>(filled: &Filled<'a>) -> Option<Wrong<'a>> {
    if !is_one_of(filled.word, UNITS) {
        return match whole_word(filled.word, UNITS) {
            Some(whole) => Some(Wrong::ShortWord(filled.word, whole)),
            None => Some(Wrong::Unit(filled.word)),
        };
    }
    if has_colon(filled.before) {
        return Some(Wrong::UnitBehindMoment(filled.word, filled.before));
    }
    None
}

// What is wrong with the form of a word.
fn slot_fault<'a>(filled: &Filled<'a>) -> Option<Wrong<'a>> {
    let word = filled.word;
    match filled.slot {
        Slot::Words(words, also) if !is_one_of(word, words) && !is_one_of(word, also) => {
            Some(no_keyword(word, words))
        }
        Slot::Moment if has_colon(word) && !is_moment(word) => Some(Wrong::Moment(word)),
        Slot::Unit => unit_fault(filled),
        Slot::HalfDay if !is_one_of(word, "AM PM") => Some(Wrong::Word(word, "AM PM")),
        _ => None,
    }
}

// Whether a byte can't be seen.
fn is_space(byte: u8) -> bool {
    byte == b' ' || byte == b'\t'
}

// Whether the comment of a line begins within a word.
fn has_comment_within(line: &[u8]) -> bool {
    let body = body_of(line);
    match (body.last(), line.get(body.len().saturating_add(1))) {
        (Some(last), Some(next)) => !is_space(*last) && !is_space(*next),
        _ => false,
    }
}

// Too few words, or too many.
fn count_fault<'a>(row: &Row<'a>, form: &Form) -> Option<Wrong<'a>> {
    let count = row.count();
    if count < form.needed {
        if has_comment_within(row.line) {
            return Some(Wrong::CommentWithin(count, form.needed, form.text));
        }
        return Some(Wrong::TooFew(count, form.needed, form.text));
    }
    if form.slots.len() < count && !form.more {
        return Some(Wrong::TooMany(row.word(form.slots.len()), form.text));
    }
    None
}

// What is wrong with a row by its form.
fn form_fault<'a>(row: &Row<'a>, form: &Form) -> Option<Wrong<'a>> {
    match filled_slots(body_of(row.line), form).find_map(|filled| slot_fault(&filled)) {
        Some(wrong) => Some(wrong),
        None => count_fault(row, form),
    }
}

// ---- rows of one section

// A word that should be a keyword of a pump and isn't, by the number of its pair.
fn pump_word_fault<'a>(number: usize, key: &'a [u8]) -> Said<'a> {
    if number == 0 && read_decimal(key).is_ok() {
        return Said::WrongLine(WrongLine::OldPump);
    }
    match whole_word(key, "HEAD SPEED PATTERN") {
        Some(whole) => Said::Wrong(Wrong::ShortWord(key, whole)),
        None => Said::WrongLine(WrongLine::PumpWord(key)),
    }
}

// Whether an earlier pair than the one of a number has a keyword.
fn is_repeated(row: &Row<'_>, number: usize, key: &[u8]) -> bool {
    pairs_of(row)
        .take(number)
        .any(|pair| is_keyword(pair.key, key))
}

// What is wrong with the pairs of a pump.
fn pump_fault<'a>(row: &Row<'a>) -> Option<Said<'a>> {
    for (number, pair) in pairs_of(row).enumerate() {
        if !is_one_of(pair.key, "HEAD SPEED PATTERN POWER") {
            return Some(pump_word_fault(number, pair.key));
        }
        if is_repeated(row, number, pair.key) {
            return Some(Said::WrongLine(WrongLine::PumpWordAgain(pair.key)));
        }
        if pair.value.is_empty() {
            return Some(Said::WrongLine(WrongLine::PumpWordAlone(pair.key)));
        }
    }
    if row.count() >= 3 && !pairs_of(row).any(|pair| is_keyword(pair.key, b"HEAD")) {
        return Some(Said::WrongLine(WrongLine::NoHead(row.word(0))));
    }
    None
}

// A first word that begins no line of a section.
fn first_word_fault<'a>(
    row: &Row<'a>,
    words: &'static str,
    wrong: WrongLine<'a>,
) -> Option<Said<'a>> {
    let first = row.word(0);
    if is_one_of(first, words) {
        return None;
    }
    match whole_word(first, words) {
        Some(whole) => Some(Said::Wrong(Wrong::ShortWord(first, whole))),
        None => Some(Said::WrongLine(wrong)),
    }
}

// A first word that is no option.
fn option_fault<'a>(row: &Row<'a>) -> Option<Said<'a>> {
    if row.has(0, "FLOW") && row.has(1, "UNITS") {
        return Some(Said::WrongLine(WrongLine::FlowUnits(row.word(2))));
    }
    first_word_fault(row, OPTIONS, WrongLine::Option(row.word(0)))
}

// A line of a rule in a wrong place.
fn rule_order_fault<'a>(text: &[u8], row: &Row<'a>) -> Option<Said<'a>> {
    let first = row.word(0);
    if let Some(said) = first_word_fault(row, RULE_WORDS, WrongLine::RuleWord(first)) {
        return Some(said);
    }
    let words = may_follow(text, row.number);
    if is_one_of(first, words) || is_one_of(first, "RULE") {
        return None;
    }
    Some(Said::WrongLine(WrongLine::RuleOrder(first, words)))
}

// What is wrong with a row before its words are looked at one by one.
fn early_fault<'a>(text: &[u8], row: &Row<'a>, section: Section) -> Option<Said<'a>> {
    let first = row.word(0);
    match section {
        Section::Options => option_fault(row),
        Section::Times => first_word_fault(row, TIMES, WrongLine::Time(first)),
        Section::Rules => rule_order_fault(text, row),
        Section::Tanks if row.count() == 2 || row.count() == 3 => {
            Some(Said::WrongLine(WrongLine::ReservoirAmongTanks(first)))
        }
        Section::Pumps => pump_fault(row),
        _ => None,
    }
}

// ---- a number as the state of a link that has none

// The link that a row sets, and the state.
fn set_link<'a>(text: &[u8], row: &Row<'a>, section: Section) -> Option<(&'a [u8], &'a [u8])> {
    match section {
        Section::Status => Some((row.word(0), row.word(1))),
        Section::Controls => Some((row.word(1), row.word(2))),
        Section::Rules if row.has(3, "SETTING") && is_acting(text, row.number) => {
            Some((row.word(2), row.word(5)))
        }
        Section::Rules if row.has(3, "SETTING") && is_one_of(row.word(0), "THEN ELSE") => {
            Some((row.word(2), row.word(5)))
        }
        _ => None,
    }
}

// A number as the state of a pipe or of a general purpose valve.
fn state_fault<'a>(text: &[u8], row: &Row<'a>, section: Section) -> Option<WrongLine<'a>> {
    let (name, state) = set_link(text, row, section)?;
    if is_one_of(state, "OPEN CLOSED") {
        return None;
    }
    let link = owner(text, Table::Links, name)?;
    match link.section()? {
        Section::Pipes => Some(WrongLine::PipeHasNoSetting(name)),
        Section::Valves if link.has(4, "GPV") => Some(WrongLine::GeneralValveHasNoSetting(name)),
        _ => None,
    }
}

// What is wrong with a row behind all that its words say by themselves.
fn late_fault<'a>(text: &[u8], row: &Row<'a>, section: Section) -> Option<Said<'a>> {
    if let Section::Rules = section {
        if row.has(0, "RULE") && !has_then(text, row.number) {
            return Some(Said::WrongLine(WrongLine::NoThen(row.word(1))));
        }
    }
    Some(Said::WrongLine(state_fault(text, row, section)?))
}

// What is wrong with the form of a row of a section.
fn row_fault<'a>(text: &[u8], row: &Row<'a>, section: Section) -> Option<Said<'a>> {
    if let Some(odd) = odd_byte(row.line) {
        return Some(Said::Wrong(odd));
    }
    if let Some(said) = early_fault(text, row, section) {
        return Some(said);
    }
    let form = form_of(text, row, section);
    match form_fault(row, &form) {
        Some(wrong) => Some(Said::Wrong(wrong)),
        None => late_fault(text, row, section),
    }
}

// What is wrong with a row before the first heading.
fn front_fault<'a>(row: &Row<'a>) -> Wrong<'a> {
    if let Some(odd) = odd_byte(row.line) {
        return odd;
    }
    let first = row.word(0);
    if first == b"HYDCERT".as_slice() {
        return Wrong::Certificate;
    }
    if first == b"HYD".as_slice() {
        return Wrong::Report;
    }
    Wrong::NoSection
}

/// What is wrong with the form of a line, where that is found.
pub(crate) fn syntax_fault<'a>(text: &[u8], row: &Row<'a>) -> Option<Said<'a>> {
    if row.is_heading() {
        return Some(Said::Wrong(heading_fault(row)?));
    }
    if row.count() == 0 {
        return None;
    }
    match row.region {
        Region::BeforeHeadings => Some(Said::Wrong(front_fault(row))),
        Region::Read(section) => row_fault(text, row, section),
        Region::PassedOver | Region::Ended => None,
    }
}
