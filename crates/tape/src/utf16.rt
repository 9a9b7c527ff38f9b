// Text that stands as UTF-16, changed on its way onto the tape.
ghost use Rattle.std.specs.Prelude.{◌≡◌};
ghost use Rattle.tape.specs.Append.{said, utf16_of, utf16_to};

use crate::append::Appended;
use crate::room::lacks_room;
use crate::seven::{groups_in, write_number};
use utf::utf16::{utf8_length, utf16_to_utf8};

// The text event behind the bytes that are held, in UTF-8; bytes that aren't UTF-16 are a bad event, as text that isn't UTF-8 is. It is
// measured first, so that what doesn't fit changes nothing.
pub fn append_utf16(tape: &mut [u8], held: usize, utf16: &[u8]) -> Appended
    ensures result_value { said result ≡ utf16_of tape.old held utf16.now }
    ensures tape_after { tape.new ≡ utf16_to tape.old held utf16.now }
{
    let Some(bytes) = utf8_length(utf16) else {
        return Appended::BadEvent(held as u64);
    };
    let length = bytes as u64;
    let head = 1 + groups_in(length);
    if lacks_room(tape.len(), held, head) || lacks_room(tape.len(), held + head, bytes) {
        return Appended::NoRoom(held as u64);
    }
    tape[held] = 0x09;
    let start = write_number(tape, held + 1, length);
    utf16_to_utf8(utf16, &mut tape[start..]);
    Appended::Held(start + bytes)
}
