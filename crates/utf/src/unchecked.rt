// What leaves a check to its caller.
ghost use Rattle.std.specs.Prelude.{true, ◌≡◌};
ghost use Rattle.utf.specs.Changed.{changed_of, changed_to};
ghost use Rattle.utf.specs.ToUtf16.{units_in};
ghost use Rattle.utf.specs.Unicode.{to_utf16};

use crate::changed::Changed;
use crate::to_utf16::{few_units, lacks_units, write_utf16};

// How many units the bytes of a text add, each by itself: a first byte one or two, a later byte none. Of bytes that are no text it is a
// sum that means nothing. A sum over 64 bytes fits a byte, so that the compiler adds many at once.
pub fn units_in(s: &[u8]) -> usize
    ensures { result ≡ units_in s.now }
{
    let mut rest = s;
    let mut count: usize = 0;
    while let Some((part, behind)) = rest.split_first_chunk::<64>() {
        count += few_units(part) as usize;
        rest = behind;
    }
    count + few_units(rest) as usize
}

// The change without a look at whether it is a text, for a caller that has checked it. Bytes that are no text become what the definition
// makes of them. A refusal changes nothing.
pub fn utf8_to_utf16(s: &[u8], out: &mut [u8]) -> Changed
    ensures value { result ≡ changed_of true (to_utf16 s.now) out.old }
    ensures out_after { out.new ≡ changed_to true (to_utf16 s.now) out.old }
{
    if lacks_units(s, out.len() / 2) {
        return Changed::NoRoom;
    }
    Changed::Written(write_utf16(s, out))
}
