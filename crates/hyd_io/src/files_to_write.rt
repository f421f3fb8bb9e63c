//! Files that are opened to be written: which of those that are there are kept, and which are emptied.

ghost use Rattle.std.specs.Prelude.{◌≡◌, nat_eq, length, position};
ghost use Rattle.std.specs.List.{starts_with, list_any, list_all, slice_split};
ghost use Rattle.std.specs.Char.{is_ascii_digit};
ghost use Rattle.hyd_io.specs.FilesEmptied as replacing;

use crate::same_files::{goes_there, is_open, is_standard_output};
use std::fs::{self, Files, OpenFile, OpenOptions};
use std::io::{self, ErrorKind, Read, Seek, SeekFrom};

/// The bytes at the front of a file that are looked at: more than the longest header has, and the longest heading.
/// Zeros stand behind a shorter file.
type Front = [u8; 64];

const HEADINGS: [&[u8]; 27] = [
    b"[TITLE]",
    b"[JUNCTIONS]",
    b"[RESERVOIRS]",
    b"[TANKS]",
    b"[PIPES]",
    b"[PUMPS]",
    b"[VALVES]",
    b"[TAGS]",
    b"[DEMANDS]",
    b"[STATUS]",
    b"[PATTERNS]",
    b"[CURVES]",
    b"[CONTROLS]",
    b"[RULES]",
    b"[ENERGY]",
    b"[EMITTERS]",
    b"[QUALITY]",
    b"[SOURCES]",
    b"[REACTIONS]",
    b"[MIXING]",
    b"[TIMES]",
    b"[REPORT]",
    b"[OPTIONS]",
    b"[COORDINATES]",
    b"[VERTICES]",
    b"[LABELS]",
    b"[BACKDROP]",
];

/// What is to be written.
#[derive(Clone, Copy)]
pub(crate) enum Content {
    Network,
    Certificate,
}

// Whether all bytes are digits.
fn are_digits(word: &[u8]) -> bool
    ensures { result ≡ list_all is_ascii_digit word.now }
{
    word.iter().all(|byte| byte.is_ascii_digit())
}

// Whether no zero stands in front of other digits.
fn has_no_zero_in_front(word: &[u8]) -> bool
    ensures { result ≡ replacing.has_no_zero_in_front word.now }
{
    word.len() == 1 || !word.starts_with(b"0")
}

// Whether a word is a number as a header has it.
fn is_number(word: &[u8]) -> bool
    ensures { result ≡ replacing.is_number word.now }
{
    !word.is_empty() && are_digits(word) && has_no_zero_in_front(word)
}

// How many words a text has, parted by single spaces.
fn count_words(text: &[u8]) -> usize
    ensures { result ≡ length (slice_split replacing.is_space text.now) }
{
    text.split(|byte| *byte == b' ').count()
}

// Whether the words of a text are all numbers.
fn holds_numbers(text: &[u8]) -> bool
    ensures { result ≡ list_all replacing.is_number (slice_split replacing.is_space text.now) }
{
    text.split(|byte| *byte == b' ').all(|word| is_number(word))
}

// Whether a text is so many numbers, parted by single spaces.
fn are_numbers(text: &[u8], count: usize) -> bool
    ensures { result ≡ replacing.are_numbers count text.now }
{
    count_words(text) == count && holds_numbers(text)
}

// Whether a line is these bytes, and so many numbers behind them.
fn is_header(line: &[u8], name: &[u8], count: usize) -> bool
    ensures { result ≡ replacing.is_header name.now count line.now }
{
    line.starts_with(name) && are_numbers(&line[name.len()..], count)
}

// Whether a line is the header of a certificate or of a witness.
fn is_header_of_ours(line: &[u8]) -> bool
    ensures { result ≡ replacing.is_header_of_ours line.now }
{
    is_header(line, b"HYDCERT ", 3) || is_header(line, b"HYDWIT ", 5)
}

// The place of the first line feed.
fn line_feed(text: &[u8]) -> Option<usize>
    ensures { result ≡ position replacing.is_line_feed text.now }
{
    text.iter().position(|byte| *byte == b'\n')
}

// Whether a front is that of a certificate or of a witness: a whole header.
fn begins_as_certificate(front: &Front) -> bool
    ensures { result ≡ replacing.begins_as_certificate front.now }
{
    match line_feed(front) {
        Some(place) if place <= front.len() => is_header_of_ours(&front[..place]),
        _ => false,
    }
}

// Whether one of the texts stands at the front.
fn has_one_of(front: &[u8], texts: &[&[u8]]) -> bool
    ensures { result ≡ list_any (λ text. starts_with nat_eq front.now text.now) texts.now }
{
    texts.iter().any(|text| front.starts_with(text))
}

// Whether a front is that of a network: a heading in any letter case.
fn begins_as_network(front: &Front) -> bool
    ensures { result ≡ replacing.begins_as_network front.now }
{
    let mut upper = *front;
    upper.make_ascii_uppercase();
    has_one_of(&upper, &HEADINGS)
}

// Whether a file with this front is emptied for such a content.
fn may_be_emptied(content: Content, front: &Front) -> bool
    ensures { result ≡ replacing.may_be_emptied content front.now }
{
    match content {
        Content::Certificate => begins_as_certificate(front),
        Content::Network => begins_as_certificate(front) || begins_as_network(front),
    }
}

// The front of a file that was just opened, by one read: of a file on a disk it gives all that is asked for, and where
// it gave less the file would rather stay as it is.
fn front_of<F: Read>(file: &mut F) -> io::Result<Front> {
    let mut front = [0; 64];
    file.read(&mut front)?;
    Ok(front)
}

// Opens a file to be written, as it is. One that isn't there is made; a file is opened to be read besides, but not a
// pipe or a device, since one who waits for a pipe's bytes would then be taken for one who reads them.
fn open_to_write<R: Files>(rt: &R, name: &str) -> io::Result<R::File> {
    let mut options = OpenOptions::new();
    options.write(true);
    let keeps_bytes = match fs::metadata(rt, name) {
        Ok(found) => found.is_file(),
        Err(_) => true,
    };
    if keeps_bytes {
        options.read(true).create(true);
    }
    options.open(rt, name)
}

// Empties a file that was just opened, if its front is one of those that may go; else fails with the refusal. That is the
// last step, so that a file that can't be written is left as it was.
fn empty<F: Read + Seek + OpenFile>(
    file: &mut F,
    content: Content,
    refusal: io::Error,
) -> io::Result<()> {
    let front = front_of(file)?;
    if !may_be_emptied(content, &front) {
        return Err(refusal);
    }
    file.seek(SeekFrom::Start(0))?;
    file.set_len(0)
}

// Why a file that is open by another name stays as it is.
fn open_already() -> io::Error {
    io::Error::new(ErrorKind::ResourceBusy, "it is open by another name")
}

// Why a file with this front stays as it is: of the one that was created last its being open is said.
fn holds_something_else(is_created_last: bool) -> io::Error {
    if is_created_last {
        open_already()
    } else {
        io::Error::new(
            ErrorKind::AlreadyExists,
            "it holds something else, which isn't overwritten",
        )
    }
}

/// Opens an empty file of this name to be written. One that is there is emptied, if it is neither the one that is read
/// nor the one that standard output goes into, nor begins otherwise than what may go; else it stays as it is. So does a
/// pipe or a device that was created last: what went there can't be taken back.
pub(crate) fn create_file<R: Files>(
    rt: &R,
    name: &str,
    content: Content,
    input: &Option<R::File>,
    output: &Option<R::File>,
) -> io::Result<R::File> {
    let mut file = open_to_write(rt, name)?;
    let found = file.metadata()?;
    let is_created_last = is_open(output, &found)?;
    if is_open(input, &found)? || is_created_last && !found.is_file() {
        return Err(open_already());
    }
    if is_standard_output(rt, &found) {
        return Err(goes_there());
    }
    if found.is_file() && found.len() > 0 {
        empty(&mut file, content, holds_something_else(is_created_last))?;
    }
    Ok(file)
}
