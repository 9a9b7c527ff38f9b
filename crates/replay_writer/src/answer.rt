// The answers to the lines: one line for a tape alone, three where a line says what is lent; of a tape and a path what find.rt says.
ghost use Rattle.std.specs.Prelude.{◌≤◌};

use crate::find::found_under;
use grammar::answer::{EventKind, Refusal, number_of};
use hexlines::hex::{decode, encode};
use hexlines::line::{after, next, number};
use hexlines::stream::{fill, keep};
use std::io;
use std::io::{Read, Write};
use writer::answer::WriteError;
use writer::write_file;

// More reads than there will be: the loop over the input needs an end.
const READS: u64 = 0x4000_0000_0000_0000;

pub fn all<R: Read, W: Write>(from: &mut R, to: &mut W, buffer: &mut [u8]) -> io::Result<()> {
    let mut held: usize = 0;
    for _ in 0..READS {
        let end = fill(from, buffer, held)?;
        if end <= held {
            return last(to, &buffer[..end]);
        }
        let used = whole_lines(to, &buffer[..end])?;
        held = keep(buffer, used, end);
    }
    Ok(())
}

// What is left when the input has ended: a line without its newline, if anything.
fn last<W: Write>(to: &mut W, s: &[u8]) -> io::Result<()> {
    if s.is_empty() {
        return Ok(());
    }
    line_of(to, s)
}

// Every line that ends here, and where the next begins.
fn whole_lines<W: Write>(to: &mut W, s: &[u8]) -> io::Result<usize> {
    let Some(end) = s.iter().rposition(|b| *b == b'\n') else {
        return Ok(0);
    };
    for line in s[..end].split(|b| *b == b'\n') {
        line_of(to, line)?;
    }
    Ok(end + 1)
}

// A slash stands between a tape and a path.
fn line_of<W: Write>(to: &mut W, line: &[u8]) -> io::Result<()> {
    let slash = next(line, 0, b'/');
    if slash == line.len() {
        return one(to, line);
    }
    let path_at = after(line, slash);
    found_under(to, &line[..slash], &line[path_at..])
}

// A tape in hex, and where a space follows: how many words and bytes are lent, and from which word on words are looked at afterwards. The
// memory is enough for any tape of 16,384 bytes: eight words for a byte of it, and eight bytes of the file.
fn one<W: Write>(to: &mut W, line: &[u8]) -> io::Result<()> {
    let mut tape = [0u8; 16384];
    let mut words = [0xaaaa_aaaau32; 131072];
    let mut out = [0xaau8; 131072];
    let space = next(line, 0, b' ');
    if 32768 < space {
        return to.write_all(b"long\n");
    }
    let n = decode(&line[..space], &mut tape);
    if space == line.len() {
        let written = write_file(&tape[..n], &mut words, &mut out);
        return say_file(to, written, &out);
    }
    let words_at = after(line, space);
    let room_at = after(line, next(line, words_at, b' '));
    let first_at = after(line, next(line, room_at, b' '));
    let lent = least(number(line, words_at) as usize, words.len());
    let room = least(number(line, room_at) as usize, out.len());
    let first = number(line, first_at) as usize;
    lend(to, &tape[..n], &mut words[..lent], &mut out[..room], first)
}

fn lend<W: Write>(
    to: &mut W,
    tape: &[u8],
    words: &mut [u32],
    out: &mut [u8],
    first: usize,
) -> io::Result<()> {
    let written = write_file(tape, words, out);
    say_answer(to, written)?;
    to.write_all(b"out")?;
    say_bytes(to, out)?;
    let n = kept(words, first);
    write!(to, "\nwords {n}\n")
}

// How many of the last words are as they were. Those before the first one are not looked at.
fn kept(words: &[u32], first: usize) -> u64 {
    let looked_at = &words[first.min(words.len())..];
    looked_at
        .iter()
        .rev()
        .take_while(|word| **word == 0xaaaa_aaaa)
        .count() as u64
}

// The file that was written, or the refusal.
fn say_file<W: Write>(
    to: &mut W,
    written: Result<usize, WriteError>,
    out: &[u8],
) -> io::Result<()> {
    let Ok(n) = written else {
        return say_answer(to, written);
    };
    to.write_all(b"file")?;
    say_bytes(to, &out[..n.min(out.len())])?;
    to.write_all(b"\n")
}

fn say_answer<W: Write>(to: &mut W, written: Result<usize, WriteError>) -> io::Result<()> {
    match written {
        Ok(n) => write!(to, "length {n}")?,
        Err(WriteError::Refused(refusal, place)) => {
            say_refusal(to, number_of(refusal) as u64, place)?;
            say_kinds(to, refusal)?;
        }
        Err(WriteError::NoRoomForWork) => say_refusal(to, 24, 0)?,
        Err(WriteError::NoRoomForOutput) => say_refusal(to, 25, 0)?,
        Err(WriteError::FileTooLong) => say_refusal(to, 26, 0)?,
    }
    to.write_all(b"\n")
}

pub(crate) fn say_refusal<W: Write>(to: &mut W, number: u64, place: u64) -> io::Result<()> {
    write!(to, "refused {number} at {place}")
}

// What an unexpected event names: what was expected, and what was found.
pub(crate) fn say_kinds<W: Write>(to: &mut W, refusal: Refusal) -> io::Result<()> {
    let Refusal::UnexpectedEventType(expected, found) = refusal else {
        return Ok(());
    };
    write!(to, " {} {}", name_of(expected), name_of(found))
}

fn name_of(kind: EventKind) -> &'static str {
    match kind {
        EventKind::ValueOrStartCollection => "ValueOrStartCollection",
        EventKind::DictionaryKeyOrEndCollection => "DictionaryKeyOrEndCollection",
        EventKind::StartArray => "StartArray",
        EventKind::StartDictionary => "StartDictionary",
        EventKind::EndCollection => "EndCollection",
        EventKind::Boolean => "Boolean",
        EventKind::Data => "Data",
        EventKind::Date => "Date",
        EventKind::Integer => "Integer",
        EventKind::Real => "Real",
        EventKind::String => "String",
        EventKind::Uid => "Uid",
    }
}

// A space and the bytes in hex, where there are any.
pub(crate) fn say_bytes<W: Write>(to: &mut W, bytes: &[u8]) -> io::Result<()> {
    if bytes.is_empty() {
        return Ok(());
    }
    to.write_all(b" ")?;
    for part in bytes.chunks(4096) {
        say_digits(to, part)?;
    }
    Ok(())
}

// At most 4,096 bytes.
fn say_digits<W: Write>(to: &mut W, bytes: &[u8]) -> io::Result<()> {
    let mut digits = [0u8; 8192];
    let n = encode(bytes, &mut digits);
    to.write_all(&digits[..n])
}

// Kept: by std's `min` the bound of a slice of so large an array was not proved.
fn least(a: usize, b: usize) -> usize
    ensures { result ≤ b }
{
    if a <= b { a } else { b }
}
