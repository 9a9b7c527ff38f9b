// Bytes in lower-case hex.
ghost use Rattle.std.specs.Prelude.{◌≡◌, ◌≤◌, ◌<◌, length, take};

// The bytes of hex digits at the start of the lent memory, as many as fit, and how many.
pub fn decode(s: &[u8], out: &mut [u8]) -> usize
    ensures within { result ≤ length out.new }
    ensures whole { result ≡ length (take result out.new) }
{
    let count = least(s.len() / 2, out.len());
    for (n, byte) in out[..count].iter_mut().enumerate() {
        *byte = value(s[n * 2]) * 16 + value(s[n * 2 + 1]);
    }
    count
}

// The digits of bytes at the start of the lent memory, of as many as fit, and how many.
pub fn encode(s: &[u8], out: &mut [u8]) -> usize
    ensures within { result ≤ length out.new }
    ensures whole { result ≡ length (take result out.new) }
{
    let count = least(s.len(), out.len() / 2);
    for n in 0..count {
        out[n * 2] = digit(s[n] / 16);
        out[n * 2 + 1] = digit(s[n]);
    }
    count * 2
}

fn value(b: u8) -> u8
    ensures { result < 16 }
{
    match b {
        b'0'..=b'9' => b - b'0',
        b'a'..=b'f' => b - b'a' + 10,
        _ => 0,
    }
}

// The digit of the low four bits.
fn digit(b: u8) -> u8 {
    let low = b % 16;
    if low < 10 {
        b'0' + low
    } else {
        b'a' - 10 + low
    }
}

pub fn least(a: usize, b: usize) -> usize
    ensures upper_bound { result ≤ a }
    ensures upper_bound_2 { result ≤ b }
{
    a.min(b)
}
