// UTF-16 of big-endian byte pairs: checked, measured, and changed to UTF-8.
ghost use Rattle.std.specs.Prelude.{◌≡◌, true, [], ◌+◌, ◌≤◌, ◌<◌, length, MatchOption};
ghost use Rattle.std.proofs.lemmas.List.Edits.{sets};
ghost use Rattle.utf.specs.Unicode.{is_utf16, to_utf8, utf8_of};
ghost use Rattle.utf.specs.Changed.{changed_of, changed_to};
ghost use Rattle.utf.specs.Utf16.{utf8_length_of};
ghost use Rattle.utf.specs.Utf16At.{UnitAt, NextScalar};

use crate::changed::Changed;

// Whether bytes are well-formed UTF-16.
pub fn is_utf16(s: &[u8]) -> bool
    ensures { result ≡ is_utf16 s.now }
{
    match utf8_length(s) {
        Some(_) => true,
        None => false,
    }
}

// The walk: it counts unit by unit, and leaves at the first surrogate that stands alone, or at a byte that does.
pub fn utf8_length(s: &[u8]) -> Option<usize>
    ensures { result ≡ utf8_length_of s.now }
{
    let mut i: usize = 0;
    let mut bytes: usize = 0;
    // Kept: the walk leaves its labelled loop at the first lone surrogate, the form that the scope asks for.
    'units: loop {
        if s.len() == i {
            return Some(bytes);
        }
        if s.len() - i < 2 {
            break 'units;
        }
        let unit = unit_at(s, i);
        i += 2;
        match unit {
            0xd800..=0xdbff => {
                if s.len() - i < 2 {
                    break 'units;
                }
                let next = unit_at(s, i);
                match next {
                    0xdc00..=0xdfff => {
                        i += 2;
                        bytes += 4;
                    }
                    _ => break 'units,
                }
            }
            0xdc00..=0xdfff => break 'units,
            _ => bytes += width_of(unit),
        }
    }
    None
}

// The text in UTF-8 at the start of the lent memory, where it is a text and fits. It is measured first, so that a refusal changes nothing.
pub fn utf16_to_utf8(s: &[u8], out: &mut [u8]) -> Changed
    ensures value { result ≡ changed_of (is_utf16 s.now) (to_utf8 s.now) out.old }
    ensures out_after { out.new ≡ changed_to (is_utf16 s.now) (to_utf8 s.now) out.old }
{
    let Some(bytes) = utf8_length(s) else {
        return Changed::NotText;
    };
    if out.len() < bytes {
        return Changed::NoRoom;
    }
    write_utf8(s, out);
    Changed::Written(bytes)
}

// Each scalar value of a text in turn, where there is room for all. ASCII is one byte, which is stored here and not by a call.
fn write_utf8(s: &[u8], out: &mut [u8])
    requires { (is_utf16 s.now ≡ true) × (length (to_utf8 s.now) ≤ length out.old) }
    ensures { out.new ≡ sets out.old 0 (to_utf8 s.now) }
{
    let mut rest = s;
    let mut at: usize = 0;
    while let Some((value, behind)) = next_scalar(rest) {
        if value < 0x80 {
            out[at] = value as u8;
            at += 1;
        } else {
            at = put_scalar(out, at, value);
        }
        rest = behind;
    }
}

// The scalar value in front of a text, one unit or two, and what is left behind it.
fn next_scalar(s: &[u8]) -> Option<(u32, &[u8])>
    requires { is_utf16 s.now ≡ true }
    ensures { MatchOption result (s.now ≡ []) (λ p. NextScalar s.now p.0 p.1.now) }
{
    if s.is_empty() {
        return None;
    }
    let unit = unit_at(s, 0);
    match unit {
        0xd800..=0xdbff => {
            let next = unit_at(s, 2);
            let scalar = 0x10000 + (unit - 0xd800) * 0x400 + (next - 0xdc00);
            Some((scalar, &s[4..]))
        }
        _ => Some((unit, &s[2..])),
    }
}

// The unit that begins at i. Said by a product and a sum, its tests are of the first byte alone: the check takes half the time that it takes by
// `from_be_bytes`, which turns the two bytes round first.
fn unit_at(s: &[u8], i: usize) -> u32
    requires { i + 2 ≤ length s.now }
    ensures { UnitAt s.now i result }
{
    s[i] as u32 * 256 + s[i + 1] as u32
}

// How many bytes a scalar value has in UTF-8.
fn width_of(v: u32) -> usize
    ensures { result ≡ length (utf8_of v) }
{
    match v {
        0..=0x7f => 1,
        0x80..=0x7ff => 2,
        0x800..=0xffff => 3,
        _ => 4,
    }
}

// The bytes of a scalar value from at on, and the place after them.
fn put_scalar(out: &mut [u8], at: usize, v: u32) -> usize
    requires { (at + length (utf8_of v) ≤ length out.old) × (v < 0x110000) }
    ensures value { result ≡ at + length (utf8_of v) }
    ensures out_after { out.new ≡ sets out.old at (utf8_of v) }
{
    if v < 0x80 {
        out[at] = v as u8;
        return at + 1;
    }
    if v < 0x800 {
        out[at] = (0xc0 + v / 0x40) as u8;
        out[at + 1] = (0x80 + v % 0x40) as u8;
        return at + 2;
    }
    if v < 0x10000 {
        out[at] = (0xe0 + v / 0x1000) as u8;
        out[at + 1] = (0x80 + v / 0x40 % 0x40) as u8;
        out[at + 2] = (0x80 + v % 0x40) as u8;
        return at + 3;
    }
    out[at] = (0xf0 + v / 0x40000) as u8;
    out[at + 1] = (0x80 + v / 0x1000 % 0x40) as u8;
    out[at + 2] = (0x80 + v / 0x40 % 0x40) as u8;
    out[at + 3] = (0x80 + v % 0x40) as u8;
    at + 4
}
