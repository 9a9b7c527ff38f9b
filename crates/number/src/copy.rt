// Bytes copied into lent memory.
ghost use Rattle.std.specs.Prelude.{◌≡◌, ◌+◌, ◌≤◌, length};
ghost use Rattle.std.proofs.lemmas.List.Edits.{sets};

// Copies bytes to a place of lent memory. What would lie beyond its end is left out.
#[tactic(auto, using(crate::proofs::Copies::copy_steps))]
pub fn write_bytes(out: &mut [u8], at: usize, bytes: &[u8])
    ensures { out.new ≡ sets out.old at bytes.now }
{
    if out.len() <= at {
        return;
    }
    let end = bytes.len().min(out.len() - at);
    if end < 8 {
        write_few(out, at, &bytes[..end]);
        return;
    }
    write_eights(out, at, &bytes[..end]);
}

// Eight bytes at a time. Fewer than eight at the end are written with those before them once more.
fn write_eights(out: &mut [u8], at: usize, bytes: &[u8])
    requires { (8 ≤ length bytes.now) × (at + length bytes.now ≤ length out.old) }
    ensures { out.new ≡ sets out.old at bytes.now }
{
    for k in 0..bytes.len() / 8 {
        let i = 8 * k;
        write_eight(out, at + i, &bytes[i..i + 8]);
    }
    let last = bytes.len() - 8;
    write_eight(out, at + last, &bytes[last..]);
}

// Eight bytes go through a local array, so that the compiler sees that none is written over before it is read, and moves them at once: some
// 35 instructions less for a text of 18 bytes.
#[tactic(auto, using(crate::proofs::Copies::copy_steps))]
fn write_eight(out: &mut [u8], at: usize, eight: &[u8])
    requires { (length eight.now ≡ 8) × (at + 8 ≤ length out.old) }
    ensures { out.new ≡ sets out.old at eight.now }
{
    let mut through = [0u8; 8];
    write_few(&mut through, 0, eight);
    write_few(out, at, &through);
}

// Byte by byte.
// Kept: `copy_from_slice` tests at each call whether the two memories overlap, 11 instructions more for a text of 0 to 47 bytes.
fn write_few(out: &mut [u8], at: usize, bytes: &[u8])
    requires { at + length bytes.now ≤ length out.old }
    ensures { out.new ≡ sets out.old at bytes.now }
{
    for (i, &byte) in bytes.iter().enumerate() {
        out[at + i] = byte;
    }
}
