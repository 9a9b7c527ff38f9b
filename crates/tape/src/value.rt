// Numbers read from the tape.
ghost use Rattle.std.specs.Prelude.{◌≡◌, ◌<◌};
ghost use Rattle.tape.specs.Value.{number_at, eight_at};
ghost use Rattle.tape.specs.ValueLoop.{Units, above};

use number::be::read_eight;

// The number at a place, in groups of seven bits, the low group first. `unit` is what the next group counts in; in the tenth group it is 2^63.
pub fn number_at(tape: &[u8], at: usize) -> Option<(u64, usize)>
    ensures { result ≡ number_at tape.now at }
{
    let mut value = 0;
    let mut unit = 1;
    for i in at..tape.len() {
        let group = tape[i] as u64;
        if group < 0x80 {
            return last_group(value, unit, group, i + 1);
        }
        if unit == 0x8000_0000_0000_0000 {
            return None;
        }
        value += (group - 0x80) * unit;
        unit *= 0x80;
    }
    None
}

// The same, quickly where the number is one group, as most lengths are.
pub(crate) fn length_at(tape: &[u8], at: usize) -> Option<(u64, usize)>
    ensures { result ≡ number_at tape.now at }
{
    if at < tape.len() {
        let group = tape[at];
        if group < 0x80 {
            return Some((group as u64, at + 1));
        }
    }
    number_at(tape, at)
}

// The whole number, once its last group is read: a group of 0 is the shortest form of 0 alone, and the whole is at most 2^64 - 1, so that a
// tenth group is 1.
fn last_group(value: u64, unit: u64, group: u64, next: usize) -> Option<(u64, usize)>
    requires { Units value unit × (group < 0x80) }
    ensures { result ≡ above value unit (Some (group, next)) }
{
    if group == 0 {
        if unit == 1 {
            return Some((value, next));
        }
        return None;
    }
    if unit == 0x8000_0000_0000_0000 {
        if 1 < group {
            return None;
        }
    }
    Some((group * unit + value, next))
}

// The number of the 8 bytes at a place, the high one first.
pub(crate) fn eight_at(tape: &[u8], at: usize) -> Option<(u64, usize)>
    ensures { result ≡ eight_at tape.now at }
{
    if tape.len() < 8 {
        return None;
    }
    if tape.len() - 8 < at {
        return None;
    }
    let next = at + 8;
    let n = read_eight(&tape[at..next]);
    Some((n, next))
}
