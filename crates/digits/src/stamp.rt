// A day and time as `2001-01-01T00:00:00Z`.
ghost use Rattle.std.specs.Prelude.{◌≡◌, ◌+◌, ◌≤◌, ◌<◌, length};
ghost use Rattle.digits.specs.Put.{Written, put_end, put_into};
ghost use Rattle.digits.specs.Stamp.{field, three, stamp};

use crate::decimal::write_digits;
use crate::fits;
use calendar::Time;

// How many bytes it has, whatever day and time it is.
pub const STAMP_LENGTH: usize = 20;

// The low four digits of the year and the low two of each other field: all of them where there is such a day and time.
pub fn put_stamp(out: &mut [u8], at: usize, time: Time) -> Option<usize>
    ensures value { result ≡ put_end out.old at (stamp time) }
    ensures out_after { out.new ≡ put_into out.old at (stamp time) }
{
    if fits(out.len(), at, STAMP_LENGTH) {
        let clock_at = write_three(out, at, 4, time.year, time.month, time.day, b'-', b'T');
        let end = write_three(
            out,
            clock_at,
            2,
            time.hour,
            time.minute,
            time.second,
            b':',
            b'Z',
        );
        return Some(end);
    }
    None
}

// Three fields, a day or a time of day: the first may have more places, and another mark ends them.
fn write_three(
    out: &mut [u8],
    at: usize,
    places: usize,
    first: u32,
    second: u32,
    third: u32,
    mark: u8,
    end: u8,
) -> usize
    requires { at + places + 7 ≤ length out.old }
    ensures { Written out.old at (three places first second third mark end) out.new result }
{
    let second_at = write_field(out, at, places, first, mark);
    let third_at = write_field(out, second_at, 2, second, mark);
    write_field(out, third_at, 2, third, end)
}

// A field of a day and time, with the mark that stands behind it.
fn write_field(out: &mut [u8], at: usize, places: usize, n: u32, mark: u8) -> usize
    requires { at + places < length out.old }
    ensures { Written out.old at (field places n mark) out.new result }
{
    let mark_at = write_digits(out, at, places, n as u64);
    out[mark_at] = mark;
    mark_at + 1
}
