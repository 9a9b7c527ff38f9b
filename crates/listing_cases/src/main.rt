// Lists files of data/, one behind the other: P10 of docs/FORMAT.md, dates, files that are refused, input as long as may be and a byte longer. Long
// listings are counted and not shown: of containers as deep as may be and one too deep, and those that are as long as may be. Then traces of some.
#![tactic(auto)]

use input::read_full;
use say::list::list_input;
use std::fs::{File, OpenOptions};
use std::io::Write;
use std::rt::Files;
use std::{fs, io};

fn main(rt: HostRuntime) -> io::Result<()> {
    for name in [
        "p10",
        "dates",
        "magic",
        "short",
        "sizes",
        "recursive",
        "surrogate",
        "wide",
    ] {
        show(&rt, name)?;
    }
    fill(&rt)?;
    show(&rt, "zeros")?;
    lengthen(&rt)?;
    show(&rt, "zeros")?;
    // 512 arrays, each inside the last; 513
    for name in ["deep-512", "deep-513"] {
        count(&rt, name)?;
    }
    // 65,535 events; one more, which are as many as are listed; 65,540
    for name in ["events-65535", "events-65536", "events-65540"] {
        count(&rt, name)?;
    }
    for name in ["p10", "dates", "recursive", "wide", "zeros"] {
        trace(&rt, name)?;
    }
    Ok(())
}

fn show(rt: &(impl Files + Print), name: &str) -> io::Result<()> {
    list_file(rt, name, &mut io::writer(rt), false)
}

fn trace(rt: &(impl Files + Print), name: &str) -> io::Result<()> {
    list_file(rt, name, &mut io::writer(rt), true)
}

fn list_file<W: Write>(rt: &impl Files, name: &str, to: &mut W, traced: bool) -> io::Result<()> {
    let mut input = [0u8; 65536];
    let mut scratch = [0u8; 65536];
    let mut line = [0u8; 131200];
    let mut file = File::open(rt, name)?;
    list_input(&mut file, to, &mut input, &mut scratch, &mut line, traced)
}

// 65,536 zeros in a file.
fn fill(rt: &impl Files) -> io::Result<()> {
    let zeros = [0u8; 65536];
    let mut to = File::create(rt, "zeros")?;
    to.write_all(&zeros)
}

// One more.
fn lengthen(rt: &impl Files) -> io::Result<()> {
    let mut to = OpenOptions::new().append(true).open(rt, "zeros")?;
    to.write_all(b"\0")
}

// A listing goes to a file. How many lines that has, and the last of them.
fn count(rt: &(impl Files + Print), name: &str) -> io::Result<()> {
    list_file(rt, name, &mut File::create(rt, "lines")?, false)?;
    let mut lines = [0u8; 524288];
    say_listing(rt, &mut lines)
}

// What that file says of itself, which is read into the lent memory.
fn say_listing(rt: &(impl Files + Print), lines: &mut [u8; 524288]) -> io::Result<()> {
    let n = read_full(&mut File::open(rt, "lines")?, lines)?;
    say_count(rt, &lines[..n])
}

fn say_count(rt: &impl Print, lines: &[u8]) -> io::Result<()> {
    let n = newlines(lines);
    print!(rt; "{n} lines, the last: ")?;
    say_last(rt, lines)
}

fn newlines(lines: &[u8]) -> u64 {
    lines.iter().filter(|byte| **byte == b'\n').count() as u64
}

// What stands behind the last newline but one.
fn say_last(rt: &impl Print, lines: &[u8]) -> io::Result<()> {
    let [front @ .., _] = lines else {
        return Ok(());
    };
    match front.iter().rposition(|byte| *byte == b'\n') {
        Some(end) => rt.write_all(&lines[end + 1..]),
        None => Ok(()),
    }
}
