// Writes files of data/ as XML, one behind the other: a hold record, all kinds of values, and files that are refused.
#![tactic(auto)]

use std::fs::File;
use std::io;
use std::io::{Read, Write};
use std::rt::Files;
use xml_say::say_input;

fn main(rt: HostRuntime) -> io::Result<()> {
    for name in [
        "values", "real", "uid", "control", "far", "magic", "filled", "long",
    ] {
        show(&rt, name)?;
    }
    Ok(())
}

fn show(rt: &(impl Files + Print), name: &str) -> io::Result<()> {
    let mut out = [0u8; 524288];
    say_with(&mut File::open(rt, name)?, &mut io::writer(rt), &mut out)
}

// The memory for the XML is lent: a proof about an array of this size made here would count its bytes one by one.
fn say_with<R: Read, W: Write>(from: &mut R, to: &mut W, out: &mut [u8; 524288]) -> io::Result<()> {
    let mut input = [0u8; 65536];
    let mut scratch = [0u8; 65536];
    let mut tape = [0u8; 65536];
    say_input(from, to, &mut input, &mut scratch, &mut tape, out)
}
