// The bytes of an object at the start of lent memory. Each function tests once that there is room for all of them, and writes nothing where
// there isn't.
ghost use Rattle.std.specs.Prelude.{[], ◌∷◌, ◌≡◌, ◌+◌, ◌-◌, ◌≤◌, length};
ghost use Rattle.std.proofs.lemmas.List.Edits.{sets};
ghost use Rattle.number.specs.Be.{bytes_of};
ghost use Rattle.written.specs.Encoding.{size_marker, head_bytes};
ghost use Rattle.encode.specs.Said.{put_said};
ghost use Rattle.encode.specs.Size.{head_size};
ghost use Rattle.encode.specs.Put.{put_into, put_of, scalar_of, base_of, numbered, positive, negative, uid_bytes, eight_in, run_in, headed, in_utf16, text_in};

use crate::size::head_size;
use number::be::write_be;
use number::copy::write_bytes;
use number::size::size_for;
use tape::room::lacks_room;
use utf::changed::Changed;
use utf::unchecked;

// How many bytes were put; or that there is no room for all of them, or that no scalar stands at a place of a tape.
#[derive(Clone, Copy)]
pub enum Put {
    Bytes(usize),
    NoRoom,
    NoScalar,
}

// The markers that a length stands in, as they are for the length 0.
#[derive(Clone, Copy)]
pub enum Base {
    Data = 0x40,
    Ascii = 0x50,
    Utf16 = 0x60,
    Array = 0xa0,
    Dictionary = 0xd0,
}

// A number of so many bytes.
pub fn put_number(out: &mut [u8], size: usize, n: u64) -> Put
    ensures result_value { put_said 0 result ≡ put_said 0 (put_of out.old (bytes_of size n)) }
    ensures out_after { out.new ≡ put_into out.old (bytes_of size n) }
{
    if out.len() < size {
        return Put::NoRoom;
    }
    Put::Bytes(write_number(out, 0, size, n))
}

// A marker with a length below 15, or with 15, and then the length's size and the length.
pub fn put_head(out: &mut [u8], base: Base, length: usize) -> Put
    ensures result_value { put_said 0 result ≡ put_said 0 (put_of out.old (head_bytes (base_of base) length)) }
    ensures out_after { out.new ≡ put_into out.old (head_bytes (base_of base) length) }
{
    if out.len() < head_size(length) {
        return Put::NoRoom;
    }
    Put::Bytes(write_head(out, base, length))
}

pub(crate) fn put_token(out: &mut [u8], token: u8) -> Put
    ensures value { result ≡ scalar_of out.old (token ∷ []) }
    ensures out_after { out.new ≡ put_into out.old (token ∷ []) }
{
    if out.len() < 1 {
        return Put::NoRoom;
    }
    out[0] = token;
    Put::Bytes(1)
}

// An integer at or above zero: from 2^63 on it takes 16 bytes.
pub(crate) fn put_positive(out: &mut [u8], number: Option<(u64, usize)>) -> Put
    ensures value { result ≡ scalar_of out.old (numbered positive number) }
    ensures out_after { out.new ≡ put_into out.old (numbered positive number) }
{
    let Some((n, _)) = number else {
        return Put::NoScalar;
    };
    if n < 0x8000_0000_0000_0000 {
        let size = size_for(n);
        return put_marked(out, size_marker(size), size, n);
    }
    put_wide(out, n)
}

// The integer -1 - n in two's complement.
pub(crate) fn put_negative(out: &mut [u8], number: Option<(u64, usize)>) -> Put
    ensures value { result ≡ scalar_of out.old (numbered negative number) }
    ensures out_after { out.new ≡ put_into out.old (numbered negative number) }
{
    let Some((n, _)) = number else {
        return Put::NoScalar;
    };
    put_marked(out, 0x13, 8, 0xffff_ffff_ffff_ffff - n)
}

pub(crate) fn put_uid(out: &mut [u8], number: Option<(u64, usize)>) -> Put
    ensures value { result ≡ scalar_of out.old (numbered uid_bytes number) }
    ensures out_after { out.new ≡ put_into out.old (numbered uid_bytes number) }
{
    let Some((n, _)) = number else {
        return Put::NoScalar;
    };
    let size = size_for(n);
    put_marked(out, 0x7f + size as u8, size, n)
}

// A marker and a number of so many bytes.
fn put_marked(out: &mut [u8], marker: u8, size: usize, n: u64) -> Put
    ensures value { result ≡ scalar_of out.old (marker ∷ bytes_of size n) }
    ensures out_after { out.new ≡ put_into out.old (marker ∷ bytes_of size n) }
{
    if out.len() <= size {
        return Put::NoRoom;
    }
    out[0] = marker;
    Put::Bytes(write_number(out, 1, size, n))
}

// An integer of 16 bytes, of which the high eight are zero.
fn put_wide(out: &mut [u8], n: u64) -> Put
    ensures value { result ≡ scalar_of out.old (0x14 ∷ bytes_of 16 n) }
    ensures out_after { out.new ≡ put_into out.old (0x14 ∷ bytes_of 16 n) }
{
    if out.len() < 17 {
        return Put::NoRoom;
    }
    out[0] = 0x14;
    write_between(out, 1, 9, 0);
    Put::Bytes(write_between(out, 9, 17, n))
}

// A real or a date: its eight bytes as the tape has them.
pub(crate) fn put_eight(out: &mut [u8], marker: u8, tape: &[u8], at: usize) -> Put
    ensures value { result ≡ scalar_of out.old (eight_in tape.now at marker) }
    ensures out_after { out.new ≡ put_into out.old (eight_in tape.now at marker) }
{
    if lacks_room(tape.len(), at, 8) {
        return Put::NoScalar;
    }
    if out.len() < 9 {
        return Put::NoRoom;
    }
    out[0] = marker;
    let end = at + 8;
    write_bytes(out, 1, &tape[at..end]);
    Put::Bytes(9)
}

// Data, or text that is ASCII: the number is its length.
pub(crate) fn put_run(out: &mut [u8], base: Base, tape: &[u8], number: Option<(u64, usize)>) -> Put
    ensures value { result ≡ scalar_of out.old (run_in tape.now (headed (base_of base)) number) }
    ensures out_after { out.new ≡ put_into out.old (run_in tape.now (headed (base_of base)) number) }
{
    let Some((n, start)) = number else {
        return Put::NoScalar;
    };
    if lacks_room(tape.len(), start, n as usize) {
        return Put::NoScalar;
    }
    let end = start + n as usize;
    put_headed(out, base, &tape[start..end])
}

pub(crate) fn put_text(
    out: &mut [u8],
    units: usize,
    tape: &[u8],
    number: Option<(u64, usize)>,
) -> Put
    ensures value { result ≡ scalar_of out.old (text_in tape.now units number) }
    ensures out_after { out.new ≡ put_into out.old (text_in tape.now units number) }
{
    if units == 0 {
        return put_run(out, Base::Ascii, tape, number);
    }
    let Some((n, start)) = number else {
        return Put::NoScalar;
    };
    if lacks_room(tape.len(), start, n as usize) {
        return Put::NoScalar;
    }
    let end = start + n as usize;
    put_utf16(out, units, &tape[start..end])
}

// Bytes behind their head.
fn put_headed(out: &mut [u8], base: Base, bytes: &[u8]) -> Put
    ensures value { result ≡ scalar_of out.old (headed (base_of base) bytes.now) }
    ensures out_after { out.new ≡ put_into out.old (headed (base_of base) bytes.now) }
{
    if lacks_room(out.len(), head_size(bytes.len()), bytes.len()) {
        return Put::NoRoom;
    }
    let start = write_head(out, base, bytes.len());
    write_bytes(out, start, bytes);
    Put::Bytes(start + bytes.len())
}

// The text goes first: it may lack room, and the head not. It is not looked at again: the tape's check is the one that does.
fn put_utf16(out: &mut [u8], units: usize, text: &[u8]) -> Put
    ensures value { result ≡ scalar_of out.old (in_utf16 units text.now) }
    ensures out_after { out.new ≡ put_into out.old (in_utf16 units text.now) }
{
    let head = head_size(units);
    if out.len() < head {
        return Put::NoRoom;
    }
    match unchecked::utf8_to_utf16(text, &mut out[head..]) {
        Changed::Written(length) => {
            write_head(out, Base::Utf16, units);
            Put::Bytes(head + length)
        }
        Changed::NotText => Put::NoScalar,
        Changed::NoRoom => Put::NoRoom,
    }
}

// The marker of length 0.
#[tactic(auto, unfolding(crate::specs::Put::base_of))]
fn marker_of(base: Base) -> u8
    ensures { result ≡ base_of base }
{
    base as u8
}

// The marker of an integer of so many bytes.
#[tactic(auto, unfolding(written::specs::Encoding::size_marker))]
fn size_marker(size: usize) -> u8
    ensures { result ≡ size_marker size }
{
    match size {
        1 => 0x10,
        2 => 0x11,
        4 => 0x12,
        _ => 0x13,
    }
}

// From here on there is room. Each function answers the place after what it wrote.

fn write_head(out: &mut [u8], base: Base, n: usize) -> usize
    requires { head_size n ≤ length out.old }
    ensures value { result ≡ head_size n }
    ensures out_after { out.new ≡ sets out.old 0 (head_bytes (base_of base) n) }
{
    if n < 15 {
        out[0] = marker_of(base) + n as u8;
        return 1;
    }
    let size = size_for(n as u64);
    out[0] = marker_of(base) + 15;
    out[1] = size_marker(size);
    write_number(out, 2, size, n as u64)
}

// The widths that are met often have branches of their own, so that each is one store.
fn write_number(out: &mut [u8], at: usize, size: usize, n: u64) -> usize
    requires { at + size ≤ length out.old }
    ensures value { result ≡ at + size }
    ensures out_after { out.new ≡ sets out.old at (bytes_of size n) }
{
    match size {
        1 => write_between(out, at, at + 1, n),
        2 => write_between(out, at, at + 2, n),
        4 => write_between(out, at, at + 4, n),
        _ => write_between(out, at, at + size, n),
    }
}

fn write_between(out: &mut [u8], at: usize, end: usize, n: u64) -> usize
    requires { (at ≤ end) × (end ≤ length out.old) }
    ensures value { result ≡ end }
    ensures out_after { out.new ≡ sets out.old at (bytes_of (end - at) n) }
{
    write_be(&mut out[at..end], n);
    end
}
