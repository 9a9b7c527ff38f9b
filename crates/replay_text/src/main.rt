// Answers a recorded sample of text: a line of input is `8` or `16`, a space and bytes in hex; the answer is what compare/README.md says of
// `oracle utf8` and `oracle utf16`.
#![tactic(auto)]

mod answer;

use input::read_full;
use std::io;

fn main(rt: HostRuntime) -> io::Result<()> {
    let mut input = [0u8; 65536];
    let n = read_full(&mut rt.stdin(), &mut input)?;
    answer::all(&mut rt.stdout(), &input[..n])
}
