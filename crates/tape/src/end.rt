// Where an event ends. Text and dates aren't looked at.
ghost use Rattle.std.specs.Prelude.{◌≡◌};
ghost use Rattle.tape.specs.End.{after_size, after_number, after_negative, after_bytes, end_of};

use crate::room::lacks_room;
use crate::value::number_at;

// The place after the event whose kind stands at a place, no kind before the others.
pub(crate) fn end_by_kind(tape: &[u8], at: usize) -> Option<usize>
    ensures { result ≡ end_of tape.now at }
{
    if tape.len() <= at {
        return None;
    }
    let next = at + 1;
    match tape[at] {
        0x01 | 0x02 | 0x0a | 0x0c | 0x0e => Some(next),
        0x03 | 0x07 | 0x0b | 0x0d => after_number(number_at(tape, next)),
        0x04 => after_negative(number_at(tape, next)),
        0x05 | 0x06 => after_size(tape.len(), next, 8),
        0x08 | 0x09 => after_bytes(tape.len(), number_at(tape, next)),
        _ => None,
    }
}

// The place after so many bytes, which must lie within the tape.
fn after_size(end: usize, at: usize, size: usize) -> Option<usize>
    ensures { result ≡ after_size end at size }
{
    if lacks_room(end, at, size) {
        return None;
    }
    Some(at + size)
}

fn after_number(number: Option<(u64, usize)>) -> Option<usize>
    ensures { result ≡ after_number number }
{
    let (_, next) = number?;
    Some(next)
}

// Of a negative integer the number is at most 2^63 - 1.
fn after_negative(number: Option<(u64, usize)>) -> Option<usize>
    ensures { result ≡ after_negative number }
{
    let (n, next) = number?;
    if n < 0x8000_0000_0000_0000 {
        return Some(next);
    }
    None
}

// A length, and so many bytes.
pub(crate) fn after_bytes(end: usize, length: Option<(u64, usize)>) -> Option<usize>
    ensures { result ≡ after_bytes end length }
{
    let (n, next) = length?;
    after_size(end, next, n as usize)
}
