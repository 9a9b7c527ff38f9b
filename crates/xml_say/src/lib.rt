// The XML of a property list that a reader hands out, put to a writer.
#![tactic(auto)]

use input::{has_more, read_full};
use reader::refusal::number_of;
use say::{say_put, say_refusal};
use std::io;
use std::io::{Read, Write};
use transcribe::{Ending, transcribe};
use xml::answer::{Answer, bar_number};
use xml::write_xml;

// More events than a tape of 65,536 bytes has.
const BUDGET: u64 = 0x10001;

// Input that is longer than the memory for it is refused with 1, events for which the tape has no room with 27. A refusal is one line, and
// nothing else is written then.
pub fn say_input<R: Read, W: Write>(
    from: &mut R,
    to: &mut W,
    input: &mut [u8],
    scratch: &mut [u8],
    tape: &mut [u8],
    out: &mut [u8],
) -> io::Result<()> {
    let n = read_full(from, input)?;
    if has_more(from)? {
        return say_refusal(to, out, 1, 0);
    }
    let transcript = transcribe(&input[..n], scratch, tape, BUDGET);
    match transcript.ending {
        Ending::Ended => say_held(to, tape, transcript.held, out),
        Ending::Stopped => Ok(()),
        Ending::Refused(refusal, place) => say_refusal(to, out, number_of(refusal) as u64, place),
        Ending::NoRoomForTape(place) => say_refusal(to, out, 27, place),
    }
}

// The XML of what a tape holds.
fn say_held<W: Write>(to: &mut W, tape: &[u8], held: usize, out: &mut [u8]) -> io::Result<()> {
    match tape.get(..held) {
        Some(tape) => say_xml(to, tape, out),
        None => Ok(()),
    }
}

fn say_xml<W: Write>(to: &mut W, tape: &[u8], out: &mut [u8]) -> io::Result<()> {
    match write_xml(tape, out) {
        Answer::Length(n) => say_put(to, out, Some(n)),
        Answer::Refused(refusal, place) => {
            say_refusal(to, out, grammar::answer::number_of(refusal) as u64, place)
        }
        Answer::Barred(bar, place) => say_refusal(to, out, bar_number(bar) as u64, place),
        Answer::NoRoom => say_refusal(to, out, 25, 0),
    }
}
