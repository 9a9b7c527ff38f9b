// Answers files in hex, one a line, as compare/README.md says of `oracle read`: the events, how they end, and two calls more.
#![tactic(auto)]

use std::io;

fn main(rt: HostRuntime) -> io::Result<()> {
    let mut buffer = [0u8; 262144];
    replay::answer::all(&mut rt.stdin(), &mut rt.stdout(), &mut buffer)
}
