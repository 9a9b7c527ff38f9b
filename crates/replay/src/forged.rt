// States and records that no reader gave: one call on each, and all that it answers and leaves. compare/README.md has the format.
ghost use Rattle.std.specs.Prelude.{◌≤◌, length};

use event::real::real_of;
use event::{Event, Integer};
use hexlines::hex::decode;
use hexlines::line::{next, number};
use layout::frame::Frame;
use line::put::put_event;
use number::signed::signed_of;
use reader::answer::{Answer, Record};
use reader::refusal::number_of;
use reader::request::{TextLength, text_length, text_part};
use reader::state::Reader;
use say::{say_answer, say_put, say_refusal};
use std::io;
use std::io::Write;

// `S FILE ..` is a state, any other capital a record.
pub fn forged<W: Write>(
    to: &mut W,
    line: &[u8],
    file: &mut [u8],
    scratch: &mut [u8],
    out: &mut [u8],
) -> io::Result<()> {
    let start = after(line, 0);
    let end = next(line, start, b' ');
    let n = decode(&line[start..end], file);
    let rest = after(line, end);
    if matches!(line, [b'S', ..]) {
        say_step(to, &file[..n], scratch, out, state_of(line, rest))
    } else {
        say_request(to, &file[..n], scratch, out, line, rest)
    }
}

// The place after the next separator: a space, a comma or a colon.
fn after(s: &[u8], from: usize) -> usize
    ensures { result ≤ length s.now }
{
    for i in from..s.len() {
        if matches!(s[i], b' ' | b',' | b':') {
            return i + 1;
        }
    }
    s.len()
}

fn word(s: &[u8], at: usize) -> u32 {
    (number(s, at) % 0x1_0000_0000) as u32
}

fn byte(s: &[u8], at: usize) -> u8 {
    (number(s, at) % 0x100) as u8
}

// The state from its first field on: FRESH LENGTH OFFSETS REFS COUNT TABLE PLACE HELD, then the frames.
fn state_of(s: &[u8], fresh: usize) -> Reader {
    let length = after(s, fresh);
    let offsets = after(s, length);
    let refs = after(s, offsets);
    let count = after(s, refs);
    let table = after(s, count);
    let place = after(s, table);
    let depth = after(s, place);
    let mut reader = Reader {
        fresh: number(s, fresh) == 1,
        length: word(s, length),
        offsets: byte(s, offsets),
        refs: byte(s, refs),
        count: word(s, count),
        table: word(s, table),
        place: number(s, place),
        depth: number(s, depth) as usize,
        frames: [Frame::NONE; Reader::MAX_OPEN],
    };
    let mut at = after(s, depth);
    for i in 0..Reader::MAX_OPEN {
        let position = after(s, at);
        let length = after(s, position);
        let offset = after(s, length);
        reader.frames[i] = Frame {
            object: word(s, at),
            position: word(s, position),
            length: word(s, length),
            offset: word(s, offset),
        };
        at = after(s, offset);
    }
    reader
}

// One call, its answer with the record's number and offset, and the state afterwards.
fn say_step<W: Write>(
    to: &mut W,
    file: &[u8],
    scratch: &mut [u8],
    out: &mut [u8],
    reader: Reader,
) -> io::Result<()> {
    let stepped = reader.next(file);
    say_origin(to, stepped.answer)?;
    say_answer(to, file, scratch, out, stepped.answer)?;
    say_state(to, stepped.reader)
}

fn say_origin<W: Write>(to: &mut W, answer: Answer) -> io::Result<()> {
    let Answer::Handed(handed) = answer else {
        return Ok(());
    };
    write!(to, "at {} {} ", handed.number, handed.offset)
}

fn say_state<W: Write>(to: &mut W, reader: Reader) -> io::Result<()> {
    write!(to, "state {} {} ", u8::from(reader.fresh), reader.length)?;
    write!(to, "{} {} {} ", reader.offsets, reader.refs, reader.count)?;
    write!(to, "{} {} {} ", reader.table, reader.place, reader.depth)?;
    say_frames(to, reader)?;
    to.write_all(b"\n")
}

// The frames that are not all zero, and those before them.
fn say_frames<W: Write>(to: &mut W, reader: Reader) -> io::Result<()> {
    let Some(last) = reader.frames.iter().rposition(|frame| !is_zero(*frame)) else {
        return Ok(());
    };
    for frame in &reader.frames[..last + 1] {
        write!(to, "{}:{}:", frame.object, frame.position)?;
        write!(to, "{}:{},", frame.length, frame.offset)?;
    }
    Ok(())
}

fn is_zero(frame: Frame) -> bool {
    frame.object == 0 && frame.position == 0 && frame.length == 0 && frame.offset == 0
}

// A record's fields are the scratch's length, the kind, its value, the number and the offset. The answer, the scratch afterwards, and the part.
fn say_request<W: Write>(
    to: &mut W,
    file: &[u8],
    scratch: &mut [u8],
    out: &mut [u8],
    s: &[u8],
    length: usize,
) -> io::Result<()> {
    let kind = after(s, length);
    let value = after(s, kind);
    let object = after(s, value);
    let offset = after(s, object);
    let handed = Record {
        event: event_of(number(s, kind), number(s, value)),
        number: word(s, object),
        offset: number(s, offset),
    };
    scratch.fill(0xaa);
    let room = scratch.len().min(number(s, length) as usize);
    ask(to, file, &mut scratch[..room], out, handed)
}

fn ask<W: Write>(
    to: &mut W,
    file: &[u8],
    scratch: &mut [u8],
    out: &mut [u8],
    handed: Record,
) -> io::Result<()> {
    let length = text_length(file, scratch, handed);
    say_length(to, out, length)?;
    say_bytes(to, out, scratch)?;
    say_bytes(to, out, text_part(file, scratch, handed))
}

fn say_length<W: Write>(to: &mut W, out: &mut [u8], length: TextLength) -> io::Result<()> {
    match length {
        TextLength::Length(n) => write!(to, "length {n}\n"),
        TextLength::Refused(refusal, place) => {
            say_refusal(to, out, number_of(refusal) as u64, place)
        }
    }
}

fn say_bytes<W: Write>(to: &mut W, out: &mut [u8], bytes: &[u8]) -> io::Result<()> {
    let put = put_event(out, 0, Event::Data, bytes, None);
    say_put(to, out, put)
}

// The tape's kinds, but that 4 is an integer by its 64 bits; any other number is a NaN by its bits.
fn event_of(kind: u64, value: u64) -> Event {
    match kind {
        1 => Event::Boolean(false),
        2 => Event::Boolean(true),
        3 => Event::Integer(Integer::Unsigned(value)),
        4 => Event::Integer(Integer::Signed(signed_of(value))),
        5 => real_of(value),
        6 => Event::Date(value),
        7 => Event::Uid(value),
        8 => Event::Data,
        9 => Event::String,
        10 => Event::StartArray(None),
        11 => Event::StartArray(Some(value)),
        12 => Event::StartDictionary(None),
        13 => Event::StartDictionary(Some(value)),
        14 => Event::EndCollection,
        _ => Event::Nan(value),
    }
}
