// A file read plainly: the lines of the events on its tape, and how it ends.
use hexlines::hex::decode;
use line::put::{Fixed, put_event};
use plainly::{Ending, read_plainly};
use reader::refusal::number_of;
use say::{say_fixed, say_put, say_refusal};
use std::io;
use std::io::Write;
use tape::item::Item;
use tape::step::step;

// After so many events a block ends `stopped`.
const EVENTS: u64 = 2000;

// `P FILE`: the file, in hex behind two bytes.
pub(crate) fn say_plainly<W: Write>(
    to: &mut W,
    line: &[u8],
    file: &mut [u8],
    tape: &mut [u8],
    out: &mut [u8],
) -> io::Result<()> {
    if line.len() < 2 {
        return Ok(());
    }
    let n = decode(&line[2..], file);
    let reading = read_plainly(&file[..n], tape, EVENTS);
    say_fixed(to, out, Fixed::Events)?;
    say_tape(to, tape, reading.held, out)?;
    say_ending(to, out, reading.ending)
}

fn say_tape<W: Write>(to: &mut W, tape: &[u8], held: usize, out: &mut [u8]) -> io::Result<()> {
    let mut at: usize = 0;
    for _ in 0..EVENTS {
        if held <= at {
            return Ok(());
        }
        let Some(item) = step(tape, at) else {
            return Ok(());
        };
        say_item(to, tape, item, out)?;
        at = item.next;
    }
    Ok(())
}

fn say_item<W: Write>(to: &mut W, tape: &[u8], item: Item, out: &mut [u8]) -> io::Result<()> {
    let Some(behind) = tape.get(item.start..) else {
        return Ok(());
    };
    let Some(bytes) = behind.get(..item.length) else {
        return Ok(());
    };
    let put = put_event(out, 0, item.event, bytes, None);
    say_put(to, out, put)
}

fn say_ending<W: Write>(to: &mut W, out: &mut [u8], ending: Ending) -> io::Result<()> {
    match ending {
        Ending::Ended => say_fixed(to, out, Fixed::End),
        Ending::Refused(refusal, place) => say_refusal(to, out, number_of(refusal) as u64, place),
        Ending::OverBudget => say_fixed(to, out, Fixed::Stopped),
        Ending::NoRoomForTape(place) => say_refusal(to, out, 27, place),
    }
}
