// An event appended to the tape.
ghost use Rattle.std.specs.Prelude.{not, ◌≡◌};
ghost use Rattle.event.specs.Meaning.{boolean, integer, meaning_of, value_of};
ghost use Rattle.tape.specs.Append.{said, put_of, put_to, append_of, append_to, ReadsBack};
ghost use Rattle.tape.specs.Code.{bytes_for, InRange, allowed};
ghost use Rattle.tape.specs.Kinds.{sign_kind};

use crate::unchecked;
use event::date::is_date;
use event::{Event, Integer};
use number::signed::magnitude;
use utf::utf8::is_utf8;

// How many bytes are held afterwards, or why nothing is appended, with the place where the event would begin.
#[derive(Clone, Copy)]
pub enum Appended {
    Held(usize),
    BadEvent(u64),
    NoRoom(u64),
}

// The event behind the bytes that are held; `bytes` are those of data or text. A refusal leaves the tape as it is.
// The last two clauses are here since only code knows that an event's numbers have 64 bits: its meaning is in range, so it is
// stepped to again.
pub fn append(tape: &mut [u8], held: usize, event: Event, bytes: &[u8]) -> Appended
    ensures result_value { said result ≡ append_of tape.old held (meaning_of event bytes.now) }
    ensures tape_after { tape.new ≡ append_to tape.old held (meaning_of event bytes.now) }
    ensures in_range { InRange (meaning_of event bytes.now) }
    ensures reads_back { ReadsBack tape.new held (meaning_of event bytes.now) (said result) }
{
    if is_bad(event, bytes) {
        return Appended::BadEvent(held as u64);
    }
    unchecked::append(tape, held, event, bytes)
}

// Whether the tape can't take the event: it is text and not UTF-8, or a date and not finite.
pub fn is_bad(event: Event, bytes: &[u8]) -> bool
    ensures { result ≡ not (allowed (meaning_of event bytes.now)) }
{
    match event {
        Event::Date(bits) => !is_date(bits),
        Event::String => !is_utf8(bytes),
        _ => false,
    }
}

// In a boolean there is nothing to check, nor in an integer.
pub fn put_boolean(tape: &mut [u8], held: usize, value: bool) -> Appended
    ensures result_value { said result ≡ put_of tape.old held (bytes_for (boolean value)) }
    ensures tape_after { tape.new ≡ put_to tape.old held (bytes_for (boolean value)) }
{
    let kind = if value { 0x02 } else { 0x01 };
    unchecked::put_kind(tape, held, kind)
}

// A negative integer n stands as -1 - n.
pub fn put_integer(tape: &mut [u8], held: usize, value: Integer) -> Appended
    ensures result_value { said result ≡ put_of tape.old held (bytes_for (integer (value_of value))) }
    ensures tape_after { tape.new ≡ put_to tape.old held (bytes_for (integer (value_of value))) }
{
    match value {
        Integer::Unsigned(n) => unchecked::put_number(tape, held, 0x03, n),
        Integer::Signed(z) => unchecked::put_number(tape, held, sign_kind(z), magnitude(z)),
    }
}

fn sign_kind(z: i64) -> u8
    ensures { result ≡ sign_kind z }
{
    if z < 0 { 0x04 } else { 0x03 }
}
