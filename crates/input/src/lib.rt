// What a reader hands out, in memory that is lent.
#![tactic(auto)]

ghost use Rattle.std.specs.Prelude.{◌≡◌, ◌<◌, ◌≤◌, ◌≢◌, ◌↔◌, [], length, take, IfOk, IfSome, IsTrue};
ghost use Rattle.std.specs.Io.KnownBytes.{Consumes, IsAtEnd};

use std::io;
use std::io::Read;

// Reads until the memory is full or the reader has no more. How many bytes stand at the memory's start then.
pub fn read_full<R: Read>(from: &mut R, memory: &mut [u8]) -> io::Result<usize>
    ensures within { IfOk result (λ n. n ≤ length memory.new) }
    ensures bytes { IfOk result (λ n. Consumes (R.remaining from.old) (R.remaining from.new) (take n memory.new)) }
    ensures end { IfOk result (λ n. n < length memory.new → IsAtEnd (R.remaining from.new)) }
{
    // Kept: each turn goes on by as many bytes as were read, so no range or iterator counts them.
    let mut done: usize = 0;
    while done < memory.len() {
        let got = from.read(&mut memory[done..])?;
        if got == 0 {
            return Ok(done);
        }
        done += got;
    }
    Ok(done)
}

// Whether the reader has a byte more, which is taken then.
pub fn has_more<R: Read>(from: &mut R) -> io::Result<bool>
    ensures { IfOk result (λ more. IfSome (R.remaining from.old) (λ left. IsTrue more ↔ (left ≢ []))) }
{
    let mut next = [0u8; 1];
    let got = from.read(&mut next)?;
    Ok(got == 1)
}
