// Numbers written to the tape: groups of seven bits, the low group first, the high bit set on all but the last.
ghost use Rattle.std.specs.Prelude.{◌≡◌, ◌+◌, ◌≤◌, length};
ghost use Rattle.std.proofs.lemmas.List.Edits.{sets};
ghost use Rattle.tape.specs.Seven.{seven};

// How many groups a number has. Most have one.
pub(crate) fn groups_in(n: u64) -> usize
    ensures { result ≡ length (seven n) }
{
    if n < 0x80 {
        return 1;
    }
    n.ilog2() as usize / 7 + 1
}

// Writes a number and answers the place after it.
pub(crate) fn write_number(tape: &mut [u8], at: usize, n: u64) -> usize
    requires { at + length (seven n) ≤ length tape.old }
    ensures value { result ≡ at + length (seven n) }
    ensures tape_after { tape.new ≡ sets tape.old at (seven n) }
{
    let mut i = at;
    let mut left = n;
    // Kept: how often it turns is known only once the number is used up, so no range counts i.
    while 0x80 <= left {
        tape[i] = (left % 0x80 + 0x80) as u8;
        left /= 0x80;
        i += 1;
    }
    tape[i] = left as u8;
    i + 1
}
