// What leaves a check to its caller: text and dates aren't looked at, and kinds are taken as they are.
ghost use Rattle.std.specs.Prelude.{[], ◌∷◌, ◌++◌, ◌≡◌, ◌+◌, ◌<◌, length, ltb};
ghost use Rattle.event.specs.Meaning.{meaning_of};
ghost use Rattle.number.specs.Be.{bytes_of};
ghost use Rattle.tape.specs.Append.{said, put_of, put_to};
ghost use Rattle.tape.specs.Code.{bytes_for};
ghost use Rattle.tape.specs.End.{end_of};
ghost use Rattle.tape.specs.Seven.{seven};
ghost use Rattle.tape.specs.Kinds.{start_bytes};

use crate::append::{Appended, put_boolean, put_integer};
use crate::end::{after_bytes, end_by_kind};
use crate::room::lacks_room;
use crate::seven::{groups_in, write_number};
use crate::value::length_at;
use event::Event;
use event::real::float_bits;
use number::be::write_be;
use number::copy::write_bytes;

// The event behind the bytes that are held, for a caller who knows that text is UTF-8 and a date finite: others would stand on the tape,
// where no step reads them.
// Kept: the tape and how much of it is held are two parameters, as of each public function here, whose promises the theorems of claims (One) name.
pub fn append(tape: &mut [u8], held: usize, event: Event, bytes: &[u8]) -> Appended
    ensures result_value { said result ≡ put_of tape.old held (bytes_for (meaning_of event bytes.now)) }
    ensures tape_after { tape.new ≡ put_to tape.old held (bytes_for (meaning_of event bytes.now)) }
{
    match event {
        Event::StartArray(length) => put_start(tape, held, 0x0a, length),
        Event::StartDictionary(length) => put_start(tape, held, 0x0c, length),
        Event::EndCollection => put_kind(tape, held, 0x0e),
        Event::Boolean(value) => put_boolean(tape, held, value),
        Event::Data => put_bytes(tape, held, 0x08, bytes),
        Event::Date(bits) => put_eight(tape, held, 0x06, bits),
        Event::Integer(value) => put_integer(tape, held, value),
        Event::Real(value) => put_eight(tape, held, 0x05, float_bits(value)),
        Event::Nan(bits) => put_eight(tape, held, 0x05, bits),
        Event::String => put_bytes(tape, held, 0x09, bytes),
        Event::Uid(n) => put_number(tape, held, 0x07, n),
    }
}

// A container with its length has the kind after that of one without.
fn put_start(tape: &mut [u8], held: usize, kind: u8, length: Option<u64>) -> Appended
    requires { kind < 0xff }
    ensures result_value { said result ≡ put_of tape.old held (start_bytes kind length) }
    ensures tape_after { tape.new ≡ put_to tape.old held (start_bytes kind length) }
{
    match length {
        None => put_kind(tape, held, kind),
        Some(n) => put_number(tape, held, kind + 1, n),
    }
}

// A kind alone.
pub fn put_kind(tape: &mut [u8], held: usize, kind: u8) -> Appended
    ensures result_value { said result ≡ put_of tape.old held (kind ∷ []) }
    ensures tape_after { tape.new ≡ put_to tape.old held (kind ∷ []) }
{
    if lacks_room(tape.len(), held, 1) {
        return Appended::NoRoom(held as u64);
    }
    tape[held] = kind;
    Appended::Held(held + 1)
}

// A kind and a number.
pub fn put_number(tape: &mut [u8], held: usize, kind: u8, n: u64) -> Appended
    ensures result_value { said result ≡ put_of tape.old held (kind ∷ seven n) }
    ensures tape_after { tape.new ≡ put_to tape.old held (kind ∷ seven n) }
{
    if lacks_number(tape.len(), held, n) {
        return Appended::NoRoom(held as u64);
    }
    tape[held] = kind;
    Appended::Held(write_number(tape, held + 1, n))
}

// Whether a kind and a number pass the end. Where the longest number fits, its groups are not counted: some 20 instructions a number less.
pub(crate) fn lacks_number(end: usize, at: usize, n: u64) -> bool
    ensures { result ≡ ltb end (at + (1 + length (seven n))) }
{
    lacks_room(end, at, 11) && lacks_room(end, at, 1 + groups_in(n))
}

// A kind and 8 bytes, the high one first.
pub fn put_eight(tape: &mut [u8], held: usize, kind: u8, bits: u64) -> Appended
    ensures result_value { said result ≡ put_of tape.old held (kind ∷ bytes_of 8 bits) }
    ensures tape_after { tape.new ≡ put_to tape.old held (kind ∷ bytes_of 8 bits) }
{
    if lacks_room(tape.len(), held, 9) {
        return Appended::NoRoom(held as u64);
    }
    tape[held] = kind;
    let start = held + 1;
    let end = held + 9;
    write_be(&mut tape[start..end], bits);
    Appended::Held(end)
}

// A kind, a length and so many bytes.
pub fn put_bytes(tape: &mut [u8], held: usize, kind: u8, bytes: &[u8]) -> Appended
    ensures result_value { said result ≡ put_of tape.old held (kind ∷ (seven (length bytes.now) ++ bytes.now)) }
    ensures tape_after { tape.new ≡ put_to tape.old held (kind ∷ (seven (length bytes.now) ++ bytes.now)) }
{
    let length = bytes.len() as u64;
    let head = 1 + groups_in(length);
    if lacks_room(tape.len(), held, head) || lacks_room(tape.len(), held + head, bytes.len()) {
        return Appended::NoRoom(held as u64);
    }
    tape[held] = kind;
    let start = write_number(tape, held + 1, length);
    write_bytes(tape, start, bytes);
    Appended::Held(start + bytes.len())
}

// The place after the event whose kind stands at a place; none where `step` is bad for another reason than text that isn't UTF-8 or
// a date that is none. A walk along a tape that has been stepped through once is quick so. Most events of a tape are text, which has its
// own test.
pub fn end_of(tape: &[u8], at: usize) -> Option<usize>
    ensures { result ≡ end_of tape.now at }
{
    if at < tape.len() && tape[at] == 0x09 {
        return after_bytes(tape.len(), length_at(tape, at + 1));
    }
    end_by_kind(tape, at)
}
