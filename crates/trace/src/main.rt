// Lists the events of the property list on standard input, each with the number and the offset of its object.
#![tactic(auto)]

use say::list::list_input;
use std::io;

fn main(rt: HostRuntime) -> io::Result<()> {
    let mut input = [0u8; 65536];
    let mut scratch = [0u8; 65536];
    let mut line = [0u8; 131200];
    list_input(
        &mut rt.stdin(),
        &mut rt.stdout(),
        &mut input,
        &mut scratch,
        &mut line,
        true,
    )
}
