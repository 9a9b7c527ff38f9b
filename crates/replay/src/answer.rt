// The answers to the lines of a reader: a block for a file, what by_tape.rt says of one that is read plainly, and what forged.rt says of a forged
// state or record.
use crate::by_tape::say_plainly;
use crate::forged::forged;
use hexlines::hex::decode;
use hexlines::stream::{fill, keep};
use line::put::Fixed;
use reader::answer::Answer;
use reader::state::Reader;
use say::{say_answer, say_event, say_fixed};
use std::io;
use std::io::{Read, Write};

// More reads than there will be: the loop over the input needs an end.
const READS: u64 = 0x4000_0000_0000_0000;

// After so many events a block ends `stopped`.
const EVENTS: u64 = 2000;

pub fn all<R: Read, W: Write>(from: &mut R, to: &mut W, buffer: &mut [u8]) -> io::Result<()> {
    let mut held: usize = 0;
    for _ in 0..READS {
        let end = fill(from, buffer, held)?;
        if end <= held {
            return last(to, &buffer[..end]);
        }
        let used = whole_lines(to, &buffer[..end])?;
        held = keep(buffer, used, end);
    }
    Ok(())
}

// What is left when the input has ended: a line without its newline, if anything.
fn last<W: Write>(to: &mut W, s: &[u8]) -> io::Result<()> {
    if s.is_empty() {
        return Ok(());
    }
    one(to, s)
}

// Every line that ends here, and where the next begins.
fn whole_lines<W: Write>(to: &mut W, s: &[u8]) -> io::Result<usize> {
    let Some(end) = s.iter().rposition(|b| *b == b'\n') else {
        return Ok(0);
    };
    for line in s[..end].split(|b| *b == b'\n') {
        one(to, line)?;
    }
    Ok(end + 1)
}

// A file in hex; or behind a P, to be read plainly; or a forged line, which begins with another capital. UTF-16 text of a file of 65,536 bytes has at
// most 98,304 bytes in UTF-8, and its line twice as many and some.
fn one<W: Write>(to: &mut W, digits: &[u8]) -> io::Result<()> {
    let mut file = [0u8; 65536];
    let mut scratch = [0u8; 98304];
    let mut out = [0u8; 196864];
    if 131072 < digits.len() {
        return to.write_all(b"long\n");
    }
    match digits {
        [b'P', ..] => say_plainly(to, digits, &mut file, &mut scratch, &mut out),
        // what stands between the digits and the small letters: capitals, and the signs around them
        [b':'..=b'`', ..] => forged(to, digits, &mut file, &mut scratch, &mut out),
        _ => {
            let n = decode(digits, &mut file);
            block(to, &file[..n], &mut scratch, &mut out)
        }
    }
}

fn block<W: Write>(to: &mut W, file: &[u8], scratch: &mut [u8], out: &mut [u8]) -> io::Result<()> {
    say_fixed(to, out, Fixed::Events)?;
    let mut reader = Reader::FRESH;
    for _ in 0..EVENTS {
        let stepped = reader.next(file);
        reader = stepped.reader;
        let Answer::Handed(handed) = stepped.answer else {
            say_answer(to, file, scratch, out, stepped.answer)?;
            return then(to, file, scratch, out, reader);
        };
        say_event(to, file, scratch, out, handed)?;
    }
    say_fixed(to, out, Fixed::Stopped)
}

// Two calls more.
fn then<W: Write>(
    to: &mut W,
    file: &[u8],
    scratch: &mut [u8],
    out: &mut [u8],
    reader: Reader,
) -> io::Result<()> {
    let stepped = reader.next(file);
    to.write_all(b"then ")?;
    say_answer(to, file, scratch, out, stepped.answer)?;
    let again = stepped.reader.next(file);
    to.write_all(b"then ")?;
    say_answer(to, file, scratch, out, again.answer)
}
