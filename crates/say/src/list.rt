// The listing, and the trace, whose lines say where each event comes from: one line for each event, until the end, a refusal, or the last event
// that is listed.
use crate::{put_filled, say_answer, say_fixed, say_put, say_refusal};
use input::{has_more, read_full};
use line::put::Fixed;
use reader::answer::{Answer, Record};
use reader::refusal::number_of;
use reader::request::{TextLength, text_length};
use reader::state::Reader;
use std::io;
use std::io::{Read, Write};

// After so many events the listing stops.
const EVENTS: u32 = 65536;

// The listing or the trace of what a reader hands out, put to a writer. Input that is longer than the memory for it is refused with 1.
pub fn list_input<R: Read, W: Write>(
    from: &mut R,
    to: &mut W,
    input: &mut [u8],
    scratch: &mut [u8],
    line: &mut [u8],
    traced: bool,
) -> io::Result<()> {
    let n = read_full(from, input)?;
    if has_more(from)? {
        return too_long(to, line);
    }
    list(to, &input[..n], scratch, line, traced)
}

fn too_long<W: Write>(to: &mut W, line: &mut [u8]) -> io::Result<()> {
    say_fixed(to, line, Fixed::Events)?;
    say_refusal(to, line, 1, 0)
}

fn list<W: Write>(
    to: &mut W,
    file: &[u8],
    scratch: &mut [u8],
    line: &mut [u8],
    traced: bool,
) -> io::Result<()> {
    say_fixed(to, line, Fixed::Events)?;
    let mut reader = Reader::FRESH;
    for _ in 0..EVENTS {
        let stepped = reader.next(file);
        let answer = stepped.answer;
        let after = stepped.reader;
        reader = after;
        let Answer::Handed(handed) = answer else {
            return say_answer(to, file, scratch, line, answer);
        };
        if lacks_room(to, file, scratch, line, handed)? {
            return Ok(());
        }
        let put = put_filled(file, scratch, line, handed, traced);
        say_put(to, line, put)?;
    }
    say_fixed(to, line, Fixed::Stopped)
}

// A record's bytes are asked for. A text that the scratch has no room for ends the listing with refusal 16.
fn lacks_room<W: Write>(
    to: &mut W,
    file: &[u8],
    scratch: &mut [u8],
    line: &mut [u8],
    handed: Record,
) -> io::Result<bool> {
    let TextLength::Refused(refusal, place) = text_length(file, scratch, handed) else {
        return Ok(false);
    };
    if number_of(refusal) == 16 {
        say_refusal(to, line, 16, place)?;
        return Ok(true);
    }
    Ok(false)
}
