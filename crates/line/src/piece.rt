// The pieces of a line: each is written from a place on, where there is room, and answers the place behind it.
ghost use Rattle.std.specs.Prelude.{◌≡◌, ◌+◌, ◌≤◌, ◌<◌, length};
ghost use Rattle.digits.specs.Put.{Written};
ghost use Rattle.line.specs.Line.{hex_digit, hex, tail, labelled};
ghost use Rattle.line.specs.Piece.{numeral_of, mark_of};

use calendar::Time;
use digits::decimal::{decimal_length, put_decimal, put_signed, signed_length};
use digits::stamp::{STAMP_LENGTH, put_stamp};
use event::Integer;

// What may follow a line's word: a number, one with its sign, or a day and time.
#[derive(Clone, Copy)]
pub enum Numeral {
    Number(u64),
    Integer(Integer),
    Stamp(Time),
}

// What may stand behind a line: the number and the offset of the object that it comes from.
#[derive(Clone, Copy)]
pub struct Origin {
    pub number: u64,
    pub offset: u64,
}

// Two hex digits for each byte.
fn write_hex(out: &mut [u8], at: usize, s: &[u8]) -> usize
    requires { at + length (hex s.now) ≤ length out.old }
    ensures { Written out.old at (hex s.now) out.new result }
{
    let mut to = at;
    for &byte in s {
        out[to] = hex_digit(byte / 16);
        out[to + 1] = hex_digit(byte % 16);
        to += 2;
    }
    to
}

#[tactic(auto, unfolding(crate::specs::Line::hex_digit))]
fn hex_digit(n: u8) -> u8
    requires { n < 16 }
    ensures { result ≡ hex_digit n }
{
    if n < 10 { b'0' + n } else { b'a' - 10 + n }
}

// A space and the bytes in hex; nothing where there are no bytes.
pub(crate) fn write_tail(out: &mut [u8], at: usize, s: &[u8]) -> usize
    requires { at + length (tail s.now) ≤ length out.old }
    ensures { Written out.old at (tail s.now) out.new result }
{
    if s.len() == 0 {
        return at;
    }
    out[at] = b' ';
    write_hex(out, at + 1, s)
}

// A space and what follows the word, where there is something.
pub(crate) fn write_numeral(out: &mut [u8], at: usize, number: Option<Numeral>) -> usize
    requires { at + length (numeral_of number) ≤ length out.old }
    ensures { Written out.old at (numeral_of number) out.new result }
{
    match number {
        None => at,
        Some(Numeral::Number(n)) => {
            out[at] = b' ';
            put_decimal(out, at + 1, n);
            at + 1 + decimal_length(n)
        }
        Some(Numeral::Integer(integer)) => {
            out[at] = b' ';
            put_signed(out, at + 1, integer);
            at + 1 + signed_length(integer)
        }
        Some(Numeral::Stamp(time)) => {
            out[at] = b' ';
            put_stamp(out, at + 1, time);
            at + 1 + STAMP_LENGTH
        }
    }
}

// How many bytes a numeral takes.
#[tactic(auto, using(digits::specs::StampLaws::length_stamp), unfolding(crate::specs::Piece::numeral_of, crate::specs::Line::spaced))]
pub(crate) fn numeral_length(number: Option<Numeral>) -> usize
    ensures value { result ≡ length (numeral_of number) }
    ensures upper_bound { result ≤ 21 }
{
    match number {
        None => 0,
        Some(Numeral::Number(n)) => 1 + decimal_length(n),
        Some(Numeral::Integer(integer)) => 1 + signed_length(integer),
        Some(Numeral::Stamp(_)) => 1 + STAMP_LENGTH,
    }
}

// ` #number @offset`, where there is an origin.
pub(crate) fn write_mark(out: &mut [u8], at: usize, mark: Option<Origin>) -> usize
    requires { at + length (mark_of mark) ≤ length out.old }
    ensures { Written out.old at (mark_of mark) out.new result }
{
    match mark {
        None => at,
        Some(Origin { number, offset }) => {
            let offset_at = write_labelled(out, at, b'#', number);
            write_labelled(out, offset_at, b'@', offset)
        }
    }
}

// A space, a byte that says what the number is, and the number.
fn write_labelled(out: &mut [u8], at: usize, label: u8, n: u64) -> usize
    requires { at + length (labelled label n) ≤ length out.old }
    ensures { Written out.old at (labelled label n) out.new result }
{
    out[at] = b' ';
    out[at + 1] = label;
    put_decimal(out, at + 2, n);
    at + 2 + decimal_length(n)
}

// How many bytes a mark takes.
#[tactic(auto, using(crate::specs::LineLaws::length_origin), unfolding(crate::specs::Piece::mark_of))]
pub(crate) fn mark_length(mark: Option<Origin>) -> usize
    ensures value { result ≡ length (mark_of mark) }
    ensures upper_bound { result ≤ 44 }
{
    match mark {
        None => 0,
        Some(Origin { number, offset }) => 4 + decimal_length(number) + decimal_length(offset),
    }
}
