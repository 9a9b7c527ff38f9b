// Runs of ASCII, stepped over many bytes at once.
ghost use Rattle.std.specs.Prelude.{◌≡◌, ◌≤◌, ◌<◌};
ghost use Rattle.std.specs.Int.Bits.{bit_and};
ghost use Rattle.utf.specs.Unicode.{is_ascii};
ghost use Rattle.utf.specs.Plain.{ascii_run, BehindRun, little_of, tops_of};

// How many bytes of the run of ASCII at the start are stepped over: all of it where it is the end of an ASCII text. Most runs between other letters
// end among their first eight bytes, whose top bits say where. Behind those come steps of 128 bytes, then steps of eight; fewer than eight at the
// end are seen once more with those before them.
pub(crate) fn past_plain(s: &[u8]) -> usize
    requires { 0 < ascii_run s.now }
    ensures { (0 < result) × (result ≤ ascii_run s.now) }
{
    let Some((eight, behind)) = s.split_first_chunk() else {
        return past_bytes(s);
    };
    let tops = top_bits(*eight);
    if 0 < tops {
        return tops.trailing_zeros() as usize / 8;
    }
    let rest = past_steps(past_steps(behind, 128), 8);
    if rest.len() < 8 {
        if let Some(last) = s.last_chunk() {
            if top_bits(*last) == 0 {
                return s.len();
            }
        }
    }
    s.len() - rest.len()
}

// How long the run of ASCII at the start is, byte by byte.
fn past_bytes(s: &[u8]) -> usize
    ensures { result ≡ ascii_run s.now }
{
    s.iter().position(|byte| 0x80 <= *byte).unwrap_or(s.len())
}

// What is left behind the steps of so many bytes that are ASCII.
pub(crate) fn past_steps(s: &[u8], step: usize) -> &[u8]
    requires { 0 < step }
    ensures { BehindRun s.now result.now }
{
    let mut rest = s;
    while let Some((part, behind)) = rest.split_at_checked(step) {
        if !are_plain(part) {
            return rest;
        }
        rest = behind;
    }
    rest
}

// Whether all bytes are ASCII. Eight are one number; elsewhere no byte ends the loop early, so that the compiler takes many at once.
fn are_plain(part: &[u8]) -> bool
    ensures { result ≡ is_ascii part.now }
{
    if let Some(eight) = part.as_array() {
        return top_bits(*eight) == 0;
    }
    let mut plain = true;
    for byte in part {
        plain = plain & (*byte < 0x80);
    }
    plain
}

// The top bits of eight bytes, the first one lowest: none is set where they are ASCII, and the lowest is that of the first that isn't. The machine
// reads them in this order at once.
fn top_bits(eight: [u8; 8]) -> u64
    ensures { result ≡ bit_and (little_of eight) (tops_of 8) }
{
    u64::from_le_bytes(eight) & 0x8080_8080_8080_8080
}
