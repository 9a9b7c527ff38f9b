// The answers, a line for each line.
use hexlines::hex::{decode, encode};
use hexlines::line::{after, next};
use std::io;
use std::io::Write;
use utf::changed::Changed;
use utf::to_utf16::utf8_to_utf16;
use utf::utf8::is_ascii;
use utf::utf16::utf16_to_utf8;

pub fn all<W: Write>(to: &mut W, s: &[u8]) -> io::Result<()> {
    for line in s.split_inclusive(|b| *b == b'\n') {
        one(to, line.strip_suffix(b"\n").unwrap_or(line))?;
    }
    Ok(())
}

// The first word has one digit for UTF-8, and two for UTF-16.
fn one<W: Write>(to: &mut W, line: &[u8]) -> io::Result<()> {
    let mut bytes = [0u8; 1024];
    let space = next(line, 0, b' ');
    let from = after(line, space);
    let n = decode(&line[from..], &mut bytes);
    if space == 1 {
        utf8(to, &bytes[..n])
    } else {
        utf16(to, &bytes[..n])
    }
}

fn utf8<W: Write>(to: &mut W, s: &[u8]) -> io::Result<()> {
    let mut text = [0u8; 2048];
    let changed = utf8_to_utf16(s, &mut text);
    let Changed::Written(n) = changed else {
        return refuse(to, changed);
    };
    yes(to, &text[..n])?;
    if is_ascii(s) {
        to.write_all(b" ascii")?;
    }
    to.write_all(b"\n")
}

fn utf16<W: Write>(to: &mut W, s: &[u8]) -> io::Result<()> {
    if s.len() % 2 == 1 {
        return to.write_all(b"odd\n");
    }
    let mut text = [0u8; 2048];
    let changed = utf16_to_utf8(s, &mut text);
    let Changed::Written(n) = changed else {
        return refuse(to, changed);
    };
    yes(to, &text[..n])?;
    to.write_all(b"\n")
}

// There is always room: 1,024 bytes become 2,048 at most, each way.
fn refuse<W: Write>(to: &mut W, changed: Changed) -> io::Result<()> {
    match changed {
        Changed::NoRoom => to.write_all(b"no room\n"),
        _ => to.write_all(b"no\n"),
    }
}

// The text in hex, where it is not empty.
fn yes<W: Write>(to: &mut W, text: &[u8]) -> io::Result<()> {
    to.write_all(b"yes")?;
    if text.is_empty() {
        return Ok(());
    }
    let mut digits = [0u8; 4096];
    let n = encode(text, &mut digits);
    to.write_all(b" ")?;
    to.write_all(&digits[..n])
}
