// Putting a line from a place on: whole, where it fits, else nothing changes.
ghost use Rattle.std.specs.Prelude.{◌≡◌, ◌+◌, ◌≤◌, [], leb, length};
ghost use Rattle.number.specs.Be.{bytes_of};
ghost use Rattle.digits.specs.Put.{Written, put_end, put_into};
ghost use Rattle.event.specs.Meaning.{meaning_of};
ghost use Rattle.line.specs.Line.{row, ended, length_given, date_row, refusal_line};
ghost use Rattle.line.specs.Piece.{numeral_of, mark_of, space_of, line_size};
ghost use Rattle.line.specs.Put.{fixed_line, event_line};

use crate::piece::{
    Numeral, Origin, mark_length, numeral_length, write_mark, write_numeral, write_tail,
};
use calendar::calendar_of;
use digits::fits;
use event::Event;
use event::real::float_bits;
use number::be::write_be;
use number::copy::write_bytes;

// The lines of one word about the listing itself.
#[derive(Clone, Copy)]
pub enum Fixed {
    Events,
    End,
    Stopped,
}

// The line of an event, beside which the bytes of its data or text stand, with a mark behind it or without.
#[tactic(auto, unfolding(crate::proofs::EventLine::opened))]
pub fn put_event(
    out: &mut [u8],
    at: usize,
    event: Event,
    bytes: &[u8],
    mark: Option<Origin>,
) -> Option<usize>
    ensures value { result ≡ put_end out.old at (event_line mark (meaning_of event bytes.now)) }
    ensures out_after { out.new ≡ put_into out.old at (event_line mark (meaning_of event bytes.now)) }
{
    match event {
        Event::StartArray(length) => put_row(out, at, b"array", given(length), b"", mark),
        Event::StartDictionary(length) => put_row(out, at, b"dict", given(length), b"", mark),
        Event::EndCollection => put_row(out, at, b"close", None, b"", mark),
        Event::Boolean(true) => put_row(out, at, b"true", None, b"", mark),
        Event::Boolean(false) => put_row(out, at, b"false", None, b"", mark),
        Event::Data => put_row(
            out,
            at,
            b"data",
            Some(Numeral::Number(bytes.len() as u64)),
            bytes,
            mark,
        ),
        Event::Date(bits) => put_date(out, at, bits, mark),
        Event::Integer(integer) => put_row(
            out,
            at,
            b"int",
            Some(Numeral::Integer(integer)),
            b"",
            mark,
        ),
        Event::Real(x) => put_bits(out, at, b"real", float_bits(x), mark),
        Event::Nan(bits) => put_bits(out, at, b"real", bits, mark),
        Event::String => put_row(
            out,
            at,
            b"str",
            Some(Numeral::Number(bytes.len() as u64)),
            bytes,
            mark,
        ),
        Event::Uid(n) => put_row(out, at, b"uid", Some(Numeral::Number(n)), b"", mark),
    }
}

// `refused N at P`.
pub fn put_refusal(out: &mut [u8], at: usize, number: u64, place: u64) -> Option<usize>
    ensures value { result ≡ put_end out.old at (refusal_line number place) }
    ensures out_after { out.new ≡ put_into out.old at (refusal_line number place) }
{
    let numbers = numeral_length(Some(Numeral::Number(number)))
        + numeral_length(Some(Numeral::Number(place)));
    if has_room(out.len(), at, 10, numbers, 0) {
        write_bytes(out, at, b"refused");
        let at_at = write_numeral(out, at + 7, Some(Numeral::Number(number)));
        let end = write_row(out, at_at, b" at", Some(Numeral::Number(place)), b"", None);
        return Some(end);
    }
    None
}

#[tactic(auto, unfolding(crate::specs::Put::fixed_line, crate::specs::Piece::numeral_of, crate::specs::Piece::mark_of))]
pub fn put_fixed(out: &mut [u8], at: usize, fixed: Fixed) -> Option<usize>
    ensures value { result ≡ put_end out.old at (fixed_line fixed) }
    ensures out_after { out.new ≡ put_into out.old at (fixed_line fixed) }
{
    match fixed {
        Fixed::Events => put_row(out, at, b"events", None, b"", None),
        Fixed::End => put_row(out, at, b"end", None, b"", None),
        Fixed::Stopped => put_row(out, at, b"stopped", None, b"", None),
    }
}

// A date as a day and time, or where it has none as its bits.
fn put_date(out: &mut [u8], at: usize, bits: u64, mark: Option<Origin>) -> Option<usize>
    ensures value { result ≡ put_end out.old at (ended (date_row bits) (mark_of mark)) }
    ensures out_after { out.new ≡ put_into out.old at (ended (date_row bits) (mark_of mark)) }
{
    let Some(time) = calendar_of(bits) else {
        return put_bits(out, at, b"date", bits, mark);
    };
    put_row(out, at, b"date", Some(Numeral::Stamp(time)), b"", mark)
}

// A word and 16 hex digits.
#[tactic(auto, unfolding(crate::specs::Piece::numeral_of))]
fn put_bits(
    out: &mut [u8],
    at: usize,
    word: &[u8],
    bits: u64,
    mark: Option<Origin>,
) -> Option<usize>
    ensures value { result ≡ put_end out.old at (ended (row word.now [] (bytes_of 8 bits)) (mark_of mark)) }
    ensures out_after { out.new ≡ put_into out.old at (ended (row word.now [] (bytes_of 8 bits)) (mark_of mark)) }
{
    let mut bytes = [0u8; 8];
    write_be(&mut bytes, bits);
    put_row(out, at, word, None, &bytes, mark)
}

// A line is measured first, so that one that doesn't fit changes nothing.
fn put_row(
    out: &mut [u8],
    at: usize,
    word: &[u8],
    number: Option<Numeral>,
    bytes: &[u8],
    mark: Option<Origin>,
) -> Option<usize>
    ensures value { result ≡ put_end out.old at (ended (row word.now (numeral_of number) bytes.now) (mark_of mark)) }
    ensures out_after { out.new ≡ put_into out.old at (ended (row word.now (numeral_of number) bytes.now) (mark_of mark)) }
{
    let numbers = numeral_length(number) + mark_length(mark);
    if has_room(out.len(), at, word.len(), numbers, bytes.len()) {
        return Some(write_row(out, at, word, number, bytes, mark));
    }
    None
}

fn write_row(
    out: &mut [u8],
    at: usize,
    word: &[u8],
    number: Option<Numeral>,
    bytes: &[u8],
    mark: Option<Origin>,
) -> usize
    requires { at + length (ended (row word.now (numeral_of number) bytes.now) (mark_of mark)) ≤ length out.old }
    ensures { Written out.old at (ended (row word.now (numeral_of number) bytes.now) (mark_of mark)) out.new result }
{
    write_bytes(out, at, word);
    let bytes_at = write_numeral(out, at + word.len(), number);
    let mark_at = write_tail(out, bytes_at, bytes);
    let newline_at = write_mark(out, mark_at, mark);
    out[newline_at] = b'\n';
    newline_at + 1
}

// Whether a line fits from a place on: its word, its numbers with those of its mark, its bytes, its newline. No sum here can pass the top.
#[tactic(auto, using(number::specs::Tests::tests, digits::specs::PutLaws::same_test))]
fn has_room(room: usize, at: usize, word: usize, numbers: usize, bytes: usize) -> bool
    requires { numbers ≤ 65 }
    ensures { result ≡ leb (at + line_size word numbers bytes) room }
{
    bytes <= room / 2
        && word <= room - 2 * bytes
        && fits(room - 2 * bytes - word, at, numbers + space_of(bytes) + 1)
}

// The space before the bytes, where there are any.
#[tactic(auto, unfolding(crate::specs::Piece::space_of))]
fn space_of(bytes: usize) -> usize
    ensures value { result ≡ space_of bytes }
    ensures upper_bound { result ≤ 1 }
{
    if bytes == 0 { 0 } else { 1 }
}

#[tactic(auto, unfolding(crate::specs::Piece::numeral_of, crate::specs::Line::length_given))]
fn given(length: Option<u64>) -> Option<Numeral>
    ensures { numeral_of result ≡ length_given length }
{
    match length {
        Some(n) => Some(Numeral::Number(n)),
        None => None,
    }
}
