// What leaves a check to its caller: that a scalar stands on the tape as its check leaves it, text in UTF-8 and dates finite.
ghost use Rattle.std.specs.Prelude.{◌≡◌};
ghost use Rattle.encode.specs.Put.{put_into, scalar_of, bytes_at};
ghost use Rattle.encode.specs.Said.{put_said, size_said};
ghost use Rattle.encode.specs.Size.{size_at};

use crate::put::{
    Base, Put, put_eight, put_negative, put_positive, put_run, put_text, put_token, put_uid,
};
use crate::size::{Size, bytes_alone, data_size, integer_size, text_size, uid_size};
use tape::value::number_at;

// The size of the scalar at a place of a tape. A real or a date need not be whole.
pub fn size_of(tape: &[u8], at: usize) -> Option<Size>
    ensures { size_said at result ≡ size_said at (size_at tape.now at) }
{
    if tape.len() <= at {
        return None;
    }
    let next = at + 1;
    match tape[at] {
        0x01 | 0x02 => bytes_alone(1),
        0x03 => integer_size(number_at(tape, next)),
        0x04 | 0x05 | 0x06 => bytes_alone(9),
        0x07 => uid_size(number_at(tape, next)),
        0x08 => data_size(tape.len(), number_at(tape, next)),
        0x09 => text_size(tape, next),
        _ => None,
    }
}

// The scalar at a place of a tape; `units` are those of a text that isn't ASCII, else 0.
pub fn put_scalar(tape: &[u8], at: usize, units: usize, out: &mut [u8]) -> Put
    ensures result_value { put_said at result ≡ put_said at (scalar_of out.old (bytes_at tape.now at units)) }
    ensures out_after { out.new ≡ put_into out.old (bytes_at tape.now at units) }
{
    if tape.len() <= at {
        return Put::NoScalar;
    }
    let next = at + 1;
    match tape[at] {
        0x01 => put_token(out, 0x08),
        0x02 => put_token(out, 0x09),
        0x03 => put_positive(out, number_at(tape, next)),
        0x04 => put_negative(out, number_at(tape, next)),
        0x05 => put_eight(out, 0x23, tape, next),
        0x06 => put_eight(out, 0x33, tape, next),
        0x07 => put_uid(out, number_at(tape, next)),
        0x08 => put_run(out, Base::Data, tape, number_at(tape, next)),
        0x09 => put_text(out, units, tape, number_at(tape, next)),
        _ => Put::NoScalar,
    }
}
