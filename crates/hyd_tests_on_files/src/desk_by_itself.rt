//! The desk by itself on real files: which file a name opens, that a file keeps what was written, that what is printed
//! goes out, and which files are never overwritten.

use crate::wrong::Wrong;
use hyd_io::{Call, Channel, Desk, FileDesk, Pen, read_all};
use std::alloc::{AllocError, Global};
use std::fs;
use std::rt::{Clock, Files};

/// A file that lies there: a name of more than 31 bytes, in a folder.
const GIVEN: &str = "folder/a_text_whose_name_is_longer_than_31_bytes.txt";

/// Files that are made.
const MADE: [&str; 3] = [
    "made.tmp",
    "folder/made.tmp",
    "another_file_whose_name_is_longer_than_31_bytes.tmp",
];

/// How many bytes each of them gets by one call: more than any buffer holds.
const LENGTH: usize = 120_000;

/// What each of them gets when it is made anew: of the longer bytes nothing is left.
const SHORT: &[u8] = b"HYDCERT 1 20 3\nand no more\n";

/// Files that lie there, and what they hold: one that is empty, and three that aren't.
const EMPTY: &str = "empty.txt";

const NETWORK: &str = "folder/network.inp";

const LETTER: &str = "folder/letter.txt";

const CERTIFICATE: &str = "folder/old.cert";

const NETWORK_TEXT: &[u8] = b"[Title]\nA network that somebody drew\n";

const LETTER_TEXT: &[u8] = b"HYDCER is no certificate\n";

/// Texts whose first line isn't the header of a certificate or of a witness, and which are therefore kept: words that
/// only begin so, a number too few or too many, one that no header has, a line that doesn't end.
const KEPT: [&[u8]; 12] = [
    b"HYDCERTainly my thesis\n",
    b"HYDCERT\n",
    b"HYDCERT 1 20\n",
    b"HYDCERT 1 20 3 4\n",
    b"HYDCERT 1 020 3\n",
    b"HYDCERT 1 20  3\n",
    b"HYDCERT 1 20 -3\n",
    b"HYDCERT 1 20 3 \n",
    b"HYDCERT 1 20 3",
    b" HYDCERT 1 20 3\n",
    b"HYDWIT 1 2 20 30\n",
    b"HYDWITness 1 2 20 30 3\n",
];

/// Texts that may go: certificates and a witness, also ones that go on as none should.
const REPLACED: [&[u8]; 4] = [
    b"HYDCERT 1 0 0\n",
    b"HYDCERT 2 4294967295 4294967295\n",
    b"HYDCERT 1 20 3\nPERIOD 0 0 0\n",
    b"HYDWIT 1 1024 20 30 3\nPERIOD 0 0 0\n",
];

/// A file that gets such a text before each trial.
const TRIED: &str = "tried.tmp";

/// How often `./` stands before a name of some 3,000 bytes, near the longest that a system takes, and before one that is
/// longer.
const LONG: usize = 1_500;

const TOO_LONG: usize = 2_500;

/// Tries all, each kind of trial at a desk of its own.
pub(crate) fn try_desk<R: Files + Print + Eprint + Clock + Drop>(
    alloc: Global,
    rt: &R,
) -> Result<(), Wrong> {
    try_bytes(alloc, &mut FileDesk::new(alloc, rt))?;
    try_itself(alloc, &mut FileDesk::new(alloc, rt))?;
    try_others(alloc, &mut FileDesk::new(alloc, rt))?;
    try_networks(alloc, rt)?;
    try_first_lines(alloc, rt)?;
    try_long_names(alloc, rt)
}

/// Prints the file that lies there, makes the others, and reads them back.
fn try_bytes<R: Files + Print + Eprint + Clock + Drop>(
    alloc: Global,
    desk: &mut FileDesk<R>,
) -> Result<(), Wrong> {
    print_given(alloc, desk)?;
    for (place, name) in MADE.iter().enumerate() {
        make(desk, name, varied(alloc, place)?.as_slice())?;
    }
    for (place, name) in MADE.iter().enumerate() {
        expect(alloc, desk, name, varied(alloc, place)?.as_slice())?;
    }
    // The file that was read last is open still.
    desk.open(GIVEN)?;
    for name in MADE {
        make(desk, name, SHORT)?;
    }
    for name in MADE {
        expect(alloc, desk, name, SHORT)?;
    }
    match desk.open("no_such_file.tmp") {
        Ok(()) => Err(Wrong::Content),
        Err(_) => Ok(()),
    }
}

/// The file that is read isn't created over, by whatever name. The one that was created last is made anew.
fn try_itself<R: Files + Print + Eprint + Clock + Drop>(
    alloc: Global,
    desk: &mut FileDesk<R>,
) -> Result<(), Wrong> {
    desk.open("made.tmp")?;
    refuse(desk, "./made.tmp")?;
    refuse(desk, "folder/../made.tmp")?;
    make(desk, "folder/made.tmp", varied(alloc, 1)?.as_slice())?;
    make(desk, "folder/./made.tmp", SHORT)?;
    expect(alloc, desk, "made.tmp", SHORT)?;
    expect(alloc, desk, "folder/made.tmp", SHORT)
}

/// A file that holds something else isn't created over; a certificate is, and an empty file.
fn try_others<R: Files + Print + Eprint + Clock + Drop>(
    alloc: Global,
    desk: &mut FileDesk<R>,
) -> Result<(), Wrong> {
    desk.open(GIVEN)?;
    refuse(desk, LETTER)?;
    refuse(desk, NETWORK)?;
    refuse(desk, "folder")?;
    refuse(desk, "no_such_folder/file.tmp")?;
    make(desk, CERTIFICATE, SHORT)?;
    make(desk, EMPTY, SHORT)?;
    expect(alloc, desk, LETTER, LETTER_TEXT)?;
    expect(alloc, desk, NETWORK, NETWORK_TEXT)?;
    expect(alloc, desk, CERTIFICATE, SHORT)?;
    expect(alloc, desk, EMPTY, SHORT)
}

/// What a desk creates before all else may take the place of a network, and of nothing else; what it creates then may
/// not.
fn try_networks<R: Files + Print + Eprint + Clock + Drop>(
    alloc: Global,
    rt: &R,
) -> Result<(), Wrong> {
    refuse(&mut FileDesk::new(alloc, rt), LETTER)?;
    let mut desk = FileDesk::new(alloc, rt);
    make(&mut desk, NETWORK, NETWORK_TEXT)?;
    make(&mut desk, CERTIFICATE, SHORT)?;
    refuse(&mut desk, NETWORK)?;
    expect(alloc, &mut desk, LETTER, LETTER_TEXT)?;
    expect(alloc, &mut desk, NETWORK, NETWORK_TEXT)?;
    expect(alloc, &mut desk, CERTIFICATE, SHORT)
}

/// A file whose first line is a header is created over, and is empty before anything is written; another one stays.
fn try_first_lines<R: Files + Print + Eprint + Clock + Drop>(
    alloc: Global,
    rt: &R,
) -> Result<(), Wrong> {
    for text in KEPT {
        fs::write(rt, TRIED, text)?;
        let mut desk = FileDesk::new(alloc, rt);
        desk.open(GIVEN)?;
        refuse(&mut desk, TRIED)?;
        expect(alloc, &mut desk, TRIED, text)?;
    }
    for text in REPLACED {
        fs::write(rt, TRIED, text)?;
        let mut desk = FileDesk::new(alloc, rt);
        desk.open(GIVEN)?;
        desk.create(TRIED)?;
        expect(alloc, &mut desk, TRIED, b"")?;
    }
    Ok(())
}

/// A name of any length opens and creates the file of that name, and is told whole where it is too long for the system.
fn try_long_names<R: Files + Print + Eprint + Clock + Drop>(
    alloc: Global,
    rt: &R,
) -> Result<(), Wrong> {
    fs::write(rt, TRIED, SHORT)?;
    let name = long_name(alloc, LONG)?;
    let mut desk = FileDesk::new(alloc, rt);
    expect(alloc, &mut desk, name.as_str(), SHORT)?;
    desk.open(GIVEN)?;
    make(&mut desk, name.as_str(), varied(alloc, 0)?.as_slice())?;
    expect(alloc, &mut desk, TRIED, varied(alloc, 0)?.as_slice())?;
    refuse(&mut desk, long_name(alloc, TOO_LONG)?.as_str())
}

/// A longer name of the file that is tried.
fn long_name(alloc: Global, steps: usize) -> Result<String, AllocError> {
    let mut name = String::new(alloc);
    for _ in 0..steps {
        name.push_str("./")?;
    }
    name.push_str(TRIED)?;
    Ok(name)
}

/// A file that can't be created.
fn refuse<R: Files + Print + Eprint + Clock + Drop>(
    desk: &mut FileDesk<R>,
    name: &str,
) -> Result<(), Wrong> {
    if desk.create(name).is_ok() {
        return Err(Wrong::Content);
    }
    match desk.failure() {
        Some(failure) if failure.call == Call::Create && failure.file == Some(name) => Ok(()),
        _ => Err(Wrong::Content),
    }
}

/// Prints the whole file that lies there, by one call if it takes it all.
fn print_given<R: Files + Print + Eprint + Clock + Drop>(
    alloc: Global,
    desk: &mut FileDesk<R>,
) -> Result<(), Wrong> {
    desk.open(GIVEN)?;
    let text = read_all(alloc, desk, LENGTH)?;
    let printed = desk.print(text.as_slice())?;
    let mut pen = Pen::new(Channel::Report);
    pen.put(desk, &text[printed..])?;
    pen.flush(desk)?;
    Ok(())
}

/// Makes a file of these bytes, by one call if it takes them all.
fn make<R: Files + Print + Eprint + Clock + Drop>(
    desk: &mut FileDesk<R>,
    name: &str,
    bytes: &[u8],
) -> Result<(), Wrong> {
    desk.create(name)?;
    let written = desk.write(bytes)?;
    let mut pen = Pen::new(Channel::Cert);
    pen.put(desk, &bytes[written..])?;
    pen.flush(desk)?;
    Ok(())
}

/// Reads a file, a first part of it by one call, and compares it with the bytes.
fn expect<R: Files + Print + Eprint + Clock + Drop>(
    alloc: Global,
    desk: &mut FileDesk<R>,
    name: &str,
    bytes: &[u8],
) -> Result<(), Wrong> {
    desk.open(name)?;
    let mut front = vec![in alloc; 0u8; LENGTH + 1]?;
    let n = desk.read(front.as_mut_slice())?;
    front.truncate(n);
    let rest = read_all(alloc, desk, LENGTH)?;
    front.extend_from_slice(rest.as_slice())?;
    if front.as_slice() == bytes {
        Ok(())
    } else {
        Err(Wrong::Content)
    }
}

/// Bytes of all values in no order behind the header of a certificate, others for each place.
fn varied(alloc: Global, place: usize) -> Result<Vec<u8>, AllocError> {
    let mut bytes = Vec::new(alloc);
    bytes.extend_from_slice(b"HYDCERT 2 0 1000000\n")?;
    let mut state = (place as u64).wrapping_add(1);
    for _ in bytes.len()..LENGTH {
        state = state.wrapping_mul(1_103_515_245).wrapping_add(12_345);
        bytes.push(((state >> 16) % 256) as u8)?;
    }
    Ok(bytes)
}
