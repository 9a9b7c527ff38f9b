// Writes the property list on standard input as XML. XML for which its memory is too short is refused with 25.
#![tactic(auto)]

use std::io;
use std::io::{Read, Write};
use xml_say::say_input;

fn main(rt: HostRuntime) -> io::Result<()> {
    let mut out = [0u8; 524288];
    say_with(&mut rt.stdin(), &mut rt.stdout(), &mut out)
}

// The memory for the XML is lent: a proof about an array of this size made here would count its bytes one by one.
fn say_with<R: Read, W: Write>(from: &mut R, to: &mut W, out: &mut [u8; 524288]) -> io::Result<()> {
    let mut input = [0u8; 65536];
    let mut scratch = [0u8; 65536];
    let mut tape = [0u8; 65536];
    say_input(from, to, &mut input, &mut scratch, &mut tape, out)
}
