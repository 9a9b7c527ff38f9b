// Room on the tape.
ghost use Rattle.std.specs.Prelude.{◌≡◌, ◌+◌, ltb, length};
ghost use Rattle.event.specs.Meaning.{integer, meaning_of, value_of};
ghost use Rattle.tape.specs.Code.{bytes_for};
ghost use Rattle.tape.specs.Kinds.{start_bytes};
ghost use Rattle.tape.specs.Seven.{seven};

use crate::seven::groups_in;
use crate::unchecked::lacks_number;
use event::{Event, Integer};
use number::signed::magnitude;

// Whether so many bytes from a place on pass the end. Their sum may pass 2^64.
pub fn lacks_room(end: usize, at: usize, size: usize) -> bool
    ensures { result ≡ ltb end (at + size) }
{
    end < at || end - at < size
}

// Whether an event's bytes do; `bytes` are those of data or text.
pub fn lacks_event(end: usize, at: usize, event: Event, bytes: &[u8]) -> bool
    ensures { result ≡ ltb end (at + length (bytes_for (meaning_of event bytes.now))) }
{
    match event {
        Event::StartArray(length) | Event::StartDictionary(length) => lacks_start(end, at, length),
        Event::EndCollection | Event::Boolean(_) => lacks_room(end, at, 1),
        Event::Data | Event::String => lacks_bytes(end, at, bytes.len()),
        Event::Date(_) | Event::Real(_) | Event::Nan(_) => lacks_room(end, at, 9),
        Event::Integer(value) => lacks_integer(end, at, value),
        Event::Uid(n) => lacks_number(end, at, n),
    }
}

// The start of an array or of a dictionary: both have as many bytes.
fn lacks_start(end: usize, at: usize, given: Option<u64>) -> bool
    ensures { result ≡ ltb end (at + length (start_bytes 0x0A given)) }
{
    match given {
        None => lacks_room(end, at, 1),
        Some(n) => lacks_number(end, at, n),
    }
}

fn lacks_integer(end: usize, at: usize, value: Integer) -> bool
    ensures { result ≡ ltb end (at + length (bytes_for (integer (value_of value)))) }
{
    match value {
        Integer::Signed(z) => lacks_number(end, at, magnitude(z)),
        Integer::Unsigned(n) => lacks_number(end, at, n),
    }
}

// A kind, a length and so many bytes.
fn lacks_bytes(end: usize, at: usize, size: usize) -> bool
    ensures { result ≡ ltb end (at + (1 + length (seven size) + size)) }
{
    let head = 1 + groups_in(size as u64);
    lacks_room(end, at, head) || lacks_room(end, at + head, size)
}
