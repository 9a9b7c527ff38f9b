// A file written from a tape, with the answer as numbers.
ghost use Rattle.std.specs.Prelude.{◌≡◌, length, drop};
ghost use Rattle.number.specs.BeLaws.{Bytes};
ghost use Rattle.writer.specs.Write.{written_said, write_of, output_of, used_of};
ghost use Rattle.exports.specs.Write.{write_code, write_value, expected_number, found_number, written_numbers};

use crate::numbers::Numbers;
pub use crate::numbers::{first_number, second_number};
use writer::answer::WriteError;
use writer::write_file;

// Answers 0 and the file's length in `value`; or a refusal's number, with its place in `value`. `expected` and `found` are the numbers of the
// kinds of events that 21 names, else 0.
#[unsafe(no_mangle)]
pub extern "C" fn zm_write(
    tape: &[u8],
    work: &mut [u32],
    out: &mut [u8],
    value: &mut u64,
    expected: &mut u32,
    found: &mut u32,
) -> u32
    ensures value { result ≡ write_code (write_of tape.now (length work.old) (length out.old)) }
    ensures value_after { value.new ≡ write_value (write_of tape.now (length work.old) (length out.old)) }
    ensures expected_after { expected.new ≡ expected_number (write_of tape.now (length work.old) (length out.old)) }
    ensures found_after { found.new ≡ found_number (write_of tape.now (length work.old) (length out.old)) }
    ensures out_after { out.new ≡ output_of tape.now (length work.old) out.old }
    ensures work_unchanged { drop (used_of tape.now (length work.old)) work.new ≡ drop (used_of tape.now (length work.old)) work.old }
    ensures bytes { Bytes tape.now }
{
    let numbers = written_numbers(write_file(tape, work, out));
    *value = numbers.place;
    *expected = numbers.expected;
    *found = numbers.found;
    numbers.code
}

#[tactic(auto, unfolding(crate::specs::Computed::written))]
pub fn written_numbers(written: Result<usize, WriteError>) -> Numbers
    ensures { result ≡ written_numbers (written_said written) }
{
    match written {
        Ok(n) => Numbers::plain(0, n as u64),
        Err(WriteError::Refused(refusal, place)) => Numbers::refused(refusal, place),
        Err(WriteError::NoRoomForWork) => Numbers::plain(24, 0),
        Err(WriteError::NoRoomForOutput) => Numbers::plain(25, 0),
        Err(WriteError::FileTooLong) => Numbers::plain(26, 0),
    }
}
