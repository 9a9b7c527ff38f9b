// Answers tapes in hex, one a line, as compare/README.md says of `oracle write`, and what docs/FORMAT.md fixes where the Rust is not asked. A
// line that says what is lent is answered with all that the writer leaves. A tape and a path are answered with the value under it.
#![tactic(auto)]

mod answer;
mod find;

use std::io;

fn main(rt: HostRuntime) -> io::Result<()> {
    let mut buffer = [0u8; 262144];
    answer::all(&mut rt.stdin(), &mut rt.stdout(), &mut buffer)
}
