// Big-endian numbers: the bytes of a lent part, whatever its width.
ghost use Rattle.std.specs.Prelude.{◌≡◌, ◌+◌, ◌*◌, ◌^◌, ◌≤◌, length, take};
ghost use Rattle.number.specs.Be.{be, bytes_of};
ghost use Rattle.number.specs.Read.{number_of, halves_of};

// A number of 16 bytes.
#[derive(Clone, Copy)]
pub struct Halves {
    pub high: u64,
    pub low: u64,
}

// The number of a part of 1 to 8 bytes. A part of any other length is none.
pub fn read_be(part: &[u8]) -> Option<u64>
    ensures { result ≡ number_of part.now }
{
    if part.len() == 0 {
        return None;
    }
    if 8 < part.len() {
        return None;
    }
    Some(horner(part))
}

// The number of the first eight bytes of a part, or of all where there are fewer. Eight bytes are one load and a change of their order; a
// number of fewer is had from them by a shift.
pub fn read_eight(part: &[u8]) -> u64
    ensures { result ≡ be (take 8 part.now) }
{
    if part.len() < 8 {
        return horner(part);
    }
    horner(&part[..8])
}

// The number of a part of 16 bytes, as two halves. A part of any other length is none.
pub fn read_halves(part: &[u8]) -> Option<Halves>
    ensures { result ≡ halves_of part.now }
{
    if part.len() != 16 {
        return None;
    }
    let high = horner(&part[..8]);
    let low = horner(&part[8..]);
    Some(Halves { high, low })
}

// The low bytes of a number, as many as the part has; above the number's own they are zero.
pub fn write_be(part: &mut [u8], n: u64)
    ensures { part.new ≡ bytes_of (length part.old) n }
{
    let mut left = n;
    for k in (0..part.len()).rev() {
        part[k] = (left % 256) as u8;
        left /= 256;
    }
}

// The same for a number of 16 bytes.
pub fn write_halves(part: &mut [u8], n: Halves)
    ensures { part.new ≡ bytes_of (length part.old) (n.high * 2 ^ 64 + n.low) }
{
    if part.len() <= 8 {
        write_be(part, n.low);
        return;
    }
    let seam = part.len() - 8;
    write_be(&mut part[..seam], n.high);
    write_be(&mut part[seam..], n.low);
}

// The number of at most 8 bytes, by Horner's rule: one multiplication a byte.
fn horner(part: &[u8]) -> u64
    requires { length part.now ≤ 8 }
    ensures { result ≡ be part.now }
{
    let mut sum: u64 = 0;
    for &byte in part {
        sum = sum * 256 + u64::from(byte);
    }
    sum
}
