// A reader's bytes in a stream: a buffer holds the lines that are not yet answered.
ghost use Rattle.std.specs.Prelude.{◌≡◌, ◌≤◌, length, take, slice_range, IfOk};
ghost use Rattle.std.specs.Io.KnownBytes.{Consumes};

use std::io;
use std::io::Read;

// One read behind what is held, and where the bytes end then. Nothing is read where the buffer is full.
pub fn fill<R: Read>(from: &mut R, buffer: &mut [u8], held: usize) -> io::Result<usize>
    ensures within { IfOk result (λ end. end ≤ length buffer.new) }
    ensures forth { IfOk result (λ end. held ≤ length buffer.new → held ≤ end) }
    ensures held_on { take held buffer.new ≡ take held buffer.old }
    ensures bytes { held ≤ length buffer.old → IfOk result (λ end. Consumes (R.remaining from.old) (R.remaining from.new) (slice_range buffer.new held end)) }
{
    if buffer.len() <= held {
        return Ok(buffer.len());
    }
    let got = from.read(&mut buffer[held..])?;
    Ok(held + got)
}

// What stands from one place to another goes to the start; how many bytes that is.
pub fn keep(buffer: &mut [u8], from: usize, to: usize) -> usize
    ensures within { result ≤ length buffer.new }
    ensures moved { from ≤ to → to ≤ length buffer.old → take result buffer.new ≡ slice_range buffer.old from to }
{
    if buffer.len() < to || to < from {
        return 0;
    }
    buffer.copy_within(from..to, 0);
    to - from
}
