// Answers forged states and records, one a line, as compare/README.md says.
#![tactic(auto)]

use std::io;

fn main(rt: HostRuntime) -> io::Result<()> {
    let mut buffer = [0u8; 262144];
    replay::answer::all(&mut rt.stdin(), &mut rt.stdout(), &mut buffer)
}
