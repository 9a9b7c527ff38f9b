// How many bytes an object has in the file.
ghost use Rattle.std.specs.Prelude.{◌≡◌, ◌+◌, ◌^◌, ◌<◌, length};
ghost use Rattle.encode.specs.Size.{head_size, bytes_alone, integer_size, uid_size, data_size, part_size, text_size};
ghost use Rattle.tape.specs.Value.{number_at};

use number::size::size_for;
use tape::room::lacks_room;
use tape::value::number_at;
use utf::unchecked;
use utf::utf8::is_ascii;

// The bytes of a scalar; of a text that isn't ASCII also its units, else 0.
#[derive(Clone, Copy)]
pub struct Size {
    pub bytes: usize,
    pub units: usize,
}

// A marker, and behind it a length that the marker doesn't hold.
pub fn head_size(length: usize) -> usize
    ensures { result ≡ head_size length }
{
    if length < 15 {
        return 1;
    }
    2 + size_for(length as u64)
}

// All but text in UTF-16 has no units.
pub(crate) fn bytes_alone(bytes: usize) -> Option<Size>
    ensures { result ≡ bytes_alone bytes }
{
    Some(Size { bytes, units: 0 })
}

// An integer at or above zero: a marker and the number, as of a UID; from 2^63 on it takes 16 bytes.
pub(crate) fn integer_size(number: Option<(u64, usize)>) -> Option<Size>
    ensures { result ≡ integer_size number }
{
    match number {
        Some((n, _)) if 0x8000_0000_0000_0000 <= n => bytes_alone(17),
        _ => uid_size(number),
    }
}

pub(crate) fn uid_size(number: Option<(u64, usize)>) -> Option<Size>
    ensures { result ≡ uid_size number }
{
    let (n, _) = number?;
    bytes_alone(1 + size_for(n))
}

// Data, which must lie within the tape.
pub(crate) fn data_size(end: usize, length: Option<(u64, usize)>) -> Option<Size>
    requires { end < 2 ^ 63 }
    ensures { result ≡ data_size end length }
{
    let (n, start) = length?;
    if lacks_room(end, start, n as usize) {
        return None;
    }
    bytes_alone(run_size(n as usize))
}

// A head, and so many bytes.
fn run_size(length: usize) -> usize
    requires { length < 2 ^ 63 }
    ensures { result ≡ head_size length + length }
{
    head_size(length) + length
}

// Text, which must lie within the tape.
pub(crate) fn text_size(tape: &[u8], at: usize) -> Option<Size>
    ensures { result ≡ text_size tape.now (number_at tape.now at) }
{
    let (n, start) = number_at(tape, at)?;
    if lacks_room(tape.len(), start, n as usize) {
        return None;
    }
    let end = start + n as usize;
    part_size(&tape[start..end])
}

// A text's own bytes, where they are ASCII, else its units. UTF-8 has no more units than bytes.
fn part_size(text: &[u8]) -> Option<Size>
    requires { length text.now + 5 < 2 ^ 63 }
    ensures { result ≡ part_size text.now }
{
    if is_ascii(text) {
        return bytes_alone(run_size(text.len()));
    }
    let units = unchecked::units_in(text);
    if text.len() < units {
        return None;
    }
    Some(Size {
        bytes: head_size(units) + units * 2,
        units,
    })
}
