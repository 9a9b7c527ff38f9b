// Text in XML: whether XML 1.0 allows its characters, how long it is, and its bytes.
ghost use Rattle.std.specs.Prelude.{◌≡◌, ◌+◌, ◌^◌, ◌≤◌, ◌<◌, length, drop};
ghost use Rattle.digits.specs.Put.{Written};
ghost use Rattle.xml.specs.Put.{Placed};
ghost use Rattle.xml.specs.Text.{is_clear, all_clear, more_for, more_in, barred_first, barred_in};
ghost use Rattle.xml.specs.Xml.{escape_of, escape};

use crate::simple::is_simple_chunk;
use digits::fits;
use number::copy::write_bytes;

// No character of XML's text can be barred for this byte.
// Kept: every test is made, where matches! would branch, so that the compiler takes many bytes at once in a loop.
#[tactic(auto, unfolding(crate::specs::Text::is_clear))]
fn is_clear(b: u8) -> bool
    ensures { result ≡ is_clear b }
{
    ((0x20 <= b) | (b == 9) | (b == 10) | (b == 13)) & (b != 0xef)
}

// Whether a character of UTF-8 text is none of XML's: a control other than tab, newline and return; U+FFFE and U+FFFF.
pub(crate) fn is_barred(s: &[u8]) -> bool
    ensures { result ≡ barred_in s.now }
{
    if are_clear(s) {
        return false;
    }
    has_barred(s)
}

fn are_clear(s: &[u8]) -> bool
    ensures { result ≡ all_clear s.now }
{
    s.iter().fold(true, |clear, b| clear & is_clear(*b))
}

fn has_barred(s: &[u8]) -> bool
    ensures { result ≡ barred_in s.now }
{
    for i in 0..s.len() {
        if barred_at(s, i) {
            return true;
        }
    }
    false
}

fn barred_at(s: &[u8], i: usize) -> bool
    requires { i < length s.now }
    ensures { result ≡ barred_first (drop i s.now) }
{
    match s[i] {
        0xef => 3 <= s.len() - i && s[i + 1] == 0xbf && 0xbe <= s[i + 2],
        b => !is_clear(b),
    }
}

// Text escaped, where it fits; the place behind it in any case.
pub(crate) fn put_escaped(out: &mut [u8], at: usize, s: &[u8]) -> usize
    requires { (at < 0x1000_0000_0000) × (length s.now ≤ 2_147_483_648) }
    ensures { Placed out.old at (escape s.now) out.new result }
{
    let size = escaped_size(s);
    if size == s.len() {
        return write_piece(out, at, s);
    }
    if fits(out.len(), at, size) {
        return write_escaped(out, at, s);
    }
    at + size
}

// How long text is once `&`, `<` and `>` are escaped. A sum over 32 bytes fits a byte.
fn escaped_size(s: &[u8]) -> usize
    requires { length s.now ≤ 2_147_483_648 }
    ensures { result ≡ length (escape s.now) }
{
    let (blocks, rest) = s.as_chunks::<32>();
    let mut more: usize = 0;
    for block in blocks {
        more += few_more(block) as usize;
    }
    s.len() + (more + few_more(rest) as usize)
}

// How many bytes more at most 32 bytes take.
fn few_more(part: &[u8]) -> u8
    requires { length part.now ≤ 32 }
    ensures { result ≡ more_in part.now }
{
    let mut more: u8 = 0;
    for b in part {
        more += more_for(*b);
    }
    more
}

fn more_for(b: u8) -> u8
    ensures { result ≡ more_for b }
{
    u8::from(b == b'&') * 4 + (u8::from(b == b'<') * 3 + u8::from(b == b'>') * 3)
}

// Eight bytes at a time.
fn write_escaped(out: &mut [u8], at: usize, s: &[u8]) -> usize
    requires { at + length (escape s.now) ≤ length out.old }
    ensures { Written out.old at (escape s.now) out.new result }
{
    let (eights, rest) = s.as_chunks::<8>();
    let mut to = at;
    for eight in eights {
        to = write_eight(out, to, eight);
    }
    write_characters(out, to, rest)
}

// Eight bytes, as they are where they are simple.
fn write_eight(out: &mut [u8], at: usize, eight: &[u8; 8]) -> usize
    requires { at + length (escape eight.now) ≤ length out.old }
    ensures { Written out.old at (escape eight.now) out.new result }
{
    if is_simple_chunk(eight) {
        return write_piece(out, at, eight);
    }
    write_characters(out, at, eight)
}

fn write_characters(out: &mut [u8], at: usize, s: &[u8]) -> usize
    requires { at + length (escape s.now) ≤ length out.old }
    ensures { Written out.old at (escape s.now) out.new result }
{
    let mut to = at;
    for b in s {
        to = write_character(out, to, *b);
    }
    to
}

fn write_character(out: &mut [u8], at: usize, b: u8) -> usize
    requires { at + length (escape_of b) ≤ length out.old }
    ensures { Written out.old at (escape_of b) out.new result }
{
    match b {
        b'&' => write_piece(out, at, b"&amp;"),
        b'<' => write_piece(out, at, b"&lt;"),
        b'>' => write_piece(out, at, b"&gt;"),
        _ => {
            out[at] = b;
            at + 1
        }
    }
}

// Bytes as they are, and the place behind them. What would lie beyond the memory's end is left out.
pub(crate) fn write_piece(out: &mut [u8], at: usize, s: &[u8]) -> usize
    requires { at + length s.now < 2 ^ 64 }
    ensures { Written out.old at s.now out.new result }
{
    write_bytes(out, at, s);
    at + s.len()
}
