// Numbers in decimal, and days and times, put into lent memory from a place on: whole, where they fit, else nothing changes.
#![tactic(auto)]

pub mod decimal;
pub mod stamp;

ghost use Rattle.std.specs.Prelude.{◌≡◌, ◌+◌, leb};

// Whether so many bytes fit from a place on. No sum is made that could pass the top.
pub fn fits(room: usize, at: usize, size: usize) -> bool
    ensures { result ≡ leb (at + size) room }
{
    at <= room && size <= room - at
}
