// UTF-8 changed to UTF-16 of big-endian byte pairs: measured, then written.
ghost use Rattle.std.specs.Prelude.{◌≡◌, [], ◌∷◌, ◌+◌, ◌-◌, ◌*◌, ◌≤◌, ◌<◌, ltb, length, MatchOption};
ghost use Rattle.std.proofs.lemmas.List.Edits.{sets};
ghost use Rattle.utf.specs.Unicode.{is_utf8, utf16_of, utf16, scalars8, unit_bytes, to_utf16};
ghost use Rattle.utf.specs.Changed.{changed_of, changed_to};
ghost use Rattle.utf.specs.ToUtf16.{utf16_units_of, units_from, units_in};
ghost use Rattle.utf.specs.ToUtf16Walk.{value_at, NextValue};
ghost use Rattle.utf.specs.Utf8Bits.{followers};

use crate::changed::Changed;
use crate::unchecked;
use crate::utf8::walk_utf8;

// The number of units of a text. What is to be changed is seldom a few ASCII bytes, so it goes straight to the check.
pub fn utf16_units(s: &[u8]) -> Option<usize>
    ensures { result ≡ utf16_units_of s.now }
{
    if walk_utf8(s) {
        return Some(unchecked::units_in(s));
    }
    None
}

// The units of at most 64 bytes, as `unchecked::units_in` counts them.
pub(crate) fn few_units(part: &[u8]) -> u8
    requires { length part.now ≤ 64 }
    ensures { result ≡ units_in part.now }
{
    let mut count: u8 = 0;
    for byte in part {
        count += units_from(*byte);
    }
    count
}

// The text in UTF-16 at the start of the lent memory, where it is a text and fits.
pub fn utf8_to_utf16(s: &[u8], out: &mut [u8]) -> Changed
    ensures value { result ≡ changed_of (is_utf8 s.now) (to_utf16 s.now) out.old }
    ensures out_after { out.new ≡ changed_to (is_utf8 s.now) (to_utf16 s.now) out.old }
{
    if walk_utf8(s) {
        return unchecked::utf8_to_utf16(s, out);
    }
    Changed::NotText
}

// Whether there are more units than there is room for. No byte gives more than one, so they are counted only where the bytes are more.
pub(crate) fn lacks_units(s: &[u8], room: usize) -> bool
    ensures { result ≡ ltb room (length (utf16 (scalars8 s.now))) }
{
    room < s.len() && room < count_units(s)
}

fn units_from(b: u8) -> u8
    ensures { result ≡ units_from b }
{
    (b < 0x80) as u8 + (0xC0 <= b) as u8 + (0xF0 <= b) as u8
}

// The units of each value in turn, where there is room for all, and the place after them. Bytes that end inside a sequence give nothing for it.
pub(crate) fn write_utf16(s: &[u8], out: &mut [u8]) -> usize
    requires { length (to_utf16 s.now) ≤ length out.old }
    ensures value { result ≡ length (to_utf16 s.now) }
    ensures out_after { out.new ≡ sets out.old 0 (to_utf16 s.now) }
{
    let mut rest = s;
    let mut at: usize = 0;
    while let Some((value, behind)) = next_value(rest) {
        at = put_units(out, at, value);
        rest = behind;
    }
    at
}

// How many units any bytes give.
fn count_units(s: &[u8]) -> usize
    ensures { result ≡ length (utf16 (scalars8 s.now)) }
{
    let mut rest = s;
    let mut count: usize = 0;
    while let Some((value, behind)) = next_value(rest) {
        count += units_of(value);
        rest = behind;
    }
    count
}

// The value of the sequence in front, and what is left behind it; nothing where the bytes end inside it.
fn next_value(s: &[u8]) -> Option<(u32, &[u8])>
    ensures { MatchOption result (scalars8 s.now ≡ []) (λ p. NextValue s.now p.0 p.1.now) }
{
    let [first, ..] = s else {
        return None;
    };
    let (sequence, behind) = s.split_at_checked(size_from(*first))?;
    Some((value_of(sequence), behind))
}

// How many bytes a sequence has that begins with this one.
fn size_from(b: u8) -> usize
    ensures { (result ≡ followers b + 1) × (result ≤ 4) }
{
    match b {
        0..=0x7F => 1,
        0x80..=0xDF => 2,
        0xE0..=0xEF => 3,
        _ => 4,
    }
}

// The value of a sequence of at most four bytes.
fn value_of(sequence: &[u8]) -> u32
    requires { length sequence.now ≤ 4 }
    ensures { (result ≡ value_at sequence.now 0 (length sequence.now)) × (result < 0x500000) }
{
    match sequence {
        [] => 0,
        [first] => *first as u32,
        [first, second] => six_more(first.saturating_sub(0xC0) as u32, *second),
        [first, second, third] => {
            let bits = six_more(first.saturating_sub(0xE0) as u32, *second);
            six_more(bits, *third)
        }
        [first, second, third, fourth, ..] => {
            let bits = six_more(first.saturating_sub(0xF0) as u32, *second);
            six_more(six_more(bits, *third), *fourth)
        }
    }
}

// A value's bits so far, and the six that a later byte adds.
fn six_more(bits: u32, later: u8) -> u32
    requires { bits < 0x20000 }
    ensures { (result ≡ bits * 0x40 + (later - 0x80)) × (result < bits * 0x40 + 0x80) }
{
    bits * 0x40 + later.saturating_sub(0x80) as u32
}

fn units_of(v: u32) -> usize
    ensures { result ≡ length (utf16_of v) }
{
    if v < 0x10000 { 1 } else { 2 }
}

// The units of a scalar value from at on, and the place after them.
fn put_units(out: &mut [u8], at: usize, v: u32) -> usize
    requires { (at + length (unit_bytes (utf16_of v)) ≤ length out.old) × (v < 0x500000) }
    ensures value { result ≡ at + length (unit_bytes (utf16_of v)) }
    ensures out_after { out.new ≡ sets out.old at (unit_bytes (utf16_of v)) }
{
    if v < 0x10000 {
        put_unit(out, at, v as u16);
        return at + 2;
    }
    let above = v - 0x10000;
    put_unit(out, at, (0xD800 + above / 0x400) as u16);
    put_unit(out, at + 2, (0xDC00 + above % 0x400) as u16);
    at + 4
}

// A unit is two bytes, the high one first.
fn put_unit(out: &mut [u8], at: usize, unit: u16)
    requires { at + 2 ≤ length out.old }
    ensures { out.new ≡ sets out.old at (unit_bytes (unit ∷ [])) }
{
    let [high, low] = unit.to_be_bytes();
    out[at] = high;
    out[at + 1] = low;
}
