// Answers files in hex behind a P, one a line, read plainly: the events, and how they end.
#![tactic(auto)]

use std::io;

fn main(rt: HostRuntime) -> io::Result<()> {
    let mut buffer = [0u8; 262144];
    replay::answer::all(&mut rt.stdin(), &mut rt.stdout(), &mut buffer)
}
