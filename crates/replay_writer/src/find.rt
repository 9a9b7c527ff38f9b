// The answer to a tape and a path, both in hex: what is found, and the part itself.
use crate::answer::{say_bytes, say_kinds, say_refusal};
use grammar::answer::number_of;
use hexlines::hex::decode;
use lookup::answer::{FindError, Part};
use lookup::find::{find, find_part};
use std::io;
use std::io::Write;

// The memory is enough for any tape of 16,384 bytes and any path of 4,096.
pub(crate) fn found_under<W: Write>(
    to: &mut W,
    tape_digits: &[u8],
    path_digits: &[u8],
) -> io::Result<()> {
    let mut tape = [0u8; 16384];
    let mut path = [0u8; 4096];
    let n = decode(tape_digits, &mut tape);
    let m = decode(path_digits, &mut path);
    say_found(to, find(&tape[..n], &path[..m]))?;
    to.write_all(b"part")?;
    say_bytes(to, find_part(&tape[..n], &path[..m]))?;
    to.write_all(b"\n")
}

fn say_found<W: Write>(to: &mut W, found: Result<Option<Part>, FindError>) -> io::Result<()> {
    match found {
        Ok(Some(Part { start, length })) => write!(to, "found {start} {length}")?,
        Ok(None) => to.write_all(b"nowhere")?,
        Err(FindError::Refused(refusal, place)) => {
            say_refusal(to, number_of(refusal) as u64, place)?;
            say_kinds(to, refusal)?;
        }
        Err(FindError::BadPath) => say_refusal(to, 33, 0)?,
    }
    to.write_all(b"\n")
}
