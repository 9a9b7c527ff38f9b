// Whether bytes are UTF-8, and whether they are ASCII.
ghost use Rattle.std.specs.Prelude.{◌≡◌, ◌≤◌, ◌<◌, length, get_or, drop};
ghost use Rattle.utf.specs.Unicode.{◌to◌, is_utf8, is_ascii};
ghost use Rattle.utf.specs.Utf8Walk.{FrontSequence, next_in, low_after, high_after};

use crate::plain::{past_plain, past_steps};

// Whether the bytes are well-formed UTF-8. It sees a few bytes itself and is small, so that the compiler puts it into each caller; a sequence of
// four bytes is left to the walk.
pub fn is_utf8(s: &[u8]) -> bool
    ensures { result ≡ is_utf8 s.now }
{
    if 8 <= s.len() {
        return walk_utf8(s);
    }
    let mut rest = s;
    while let [first, ..] = rest {
        if *first < 0x80 {
            rest = &rest[1..];
            continue;
        }
        if 0xEF < *first {
            return walk_utf8(rest);
        }
        let Some(width) = short_width(rest) else {
            return false;
        };
        rest = &rest[width..];
    }
    true
}

// The same, a part of a run of ASCII, or a sequence of more bytes, a turn. With several callers it stays a function of its own.
pub(crate) fn walk_utf8(s: &[u8]) -> bool
    ensures { result ≡ is_utf8 s.now }
{
    let mut rest = s;
    while let [first, ..] = rest {
        if *first < 0x80 {
            rest = &rest[past_plain(rest)..];
            continue;
        }
        let Some(width) = width_of(rest) else {
            return false;
        };
        rest = &rest[width..];
    }
    true
}

// How many bytes the sequence in front has that is not ASCII, where one stands there.
fn width_of(s: &[u8]) -> Option<usize>
    requires { (0 < length s.now) × (0x80 ≤ get_or s.now 0 0) }
    ensures { FrontSequence s.now result }
{
    if s[0] < 0xF0 {
        return short_width(s);
    }
    long_width(s)
}

// The same below F0: two bytes, or three.
fn short_width(s: &[u8]) -> Option<usize>
    requires { (0 < length s.now) × (0x80 ≤ get_or s.now 0 0) × (get_or s.now 0 0 < 0xF0) }
    ensures { FrontSequence s.now result }
{
    let first = s[0];
    if first < 0xC2 {
        return None;
    }
    if first < 0xE0 {
        return follows(s, 1, LATER).then_some(2);
    }
    (follows(s, 1, second_of(first)) && follows(s, 2, LATER)).then_some(3)
}

// The same from F0 on: four bytes.
fn long_width(s: &[u8]) -> Option<usize>
    requires { (0 < length s.now) × (0xF0 ≤ get_or s.now 0 0) }
    ensures { FrontSequence s.now result }
{
    let first = s[0];
    if 0xF4 < first {
        return None;
    }
    (follows(s, 1, second_of(first)) && follows(s, 2, LATER) && follows(s, 3, LATER)).then_some(4)
}

// The range of a later byte. Only the second byte of some sequences has another.
const LATER: (u8, u8) = (0x80, 0xBF);

// Whether a byte stands at a place, and within a range.
fn follows(s: &[u8], i: usize, range: (u8, u8)) -> bool
    ensures { result ≡ next_in (range.0 to range.1) (drop i s.now) }
{
    if s.len() <= i {
        return false;
    }
    range.0 <= s[i] && s[i] <= range.1
}

// The range of the byte after a first byte of a sequence of three or four.
fn second_of(first: u8) -> (u8, u8)
    ensures { (result.0 ≡ low_after first) × (result.1 ≡ high_after first) }
{
    match first {
        0xE0 => (0xA0, 0xBF),
        0xED => (0x80, 0x9F),
        0xF0 => (0x90, 0xBF),
        0xF4 => (0x80, 0x8F),
        _ => LATER,
    }
}

// Whether every byte is below 80.
pub fn is_ascii(s: &[u8]) -> bool
    ensures { result ≡ is_ascii s.now }
{
    past_steps(past_steps(s, 128), 8)
        .iter()
        .all(|byte| *byte < 0x80)
}
