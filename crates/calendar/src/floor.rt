// The floor of the number that 64 bits are, as seconds since year one. All of it is done in whole numbers.
ghost use Rattle.std.specs.Prelude.{◌≡◌, ◌<◌, pos, neg_ℤ};
ghost use Rattle.calendar.specs.Date.{since_of, since_whole};
ghost use Rattle.calendar.specs.Split.{split_of};

// A magnitude: its whole part, and whether that is all of it.
// Kept: no value is missing where the flag is not set, so this is no Option.
#[derive(Clone, Copy)]
struct Split {
    whole: u64,
    exact: bool,
}

// Seconds since 0001-01-01 00:00:00, if they lie in the range. The number is one of seconds since 2001.
// From 2^38 on, either way, all numbers are outside, infinities and NaNs too.
pub(crate) fn since_of(bits: u64) -> Option<u64>
    ensures { result ≡ since_of bits }
{
    let low = bits % 0x8000_0000_0000_0000;
    if 0x4250_0000_0000_0000 <= low {
        return None;
    }
    let split = split_of(low);
    if bits < 0x8000_0000_0000_0000 {
        return at_or_after(split.whole);
    }
    if split.exact {
        return at_or_before(split.whole);
    }
    at_or_before(split.whole + 1)
}

// So many seconds after 2001-01-01.
#[tactic(auto, using(number::specs::Tests::tests), unfolding(crate::specs::Date::since_whole))]
fn at_or_after(whole: u64) -> Option<u64>
    ensures { result ≡ since_whole (pos whole) }
{
    if whole < 252_423_993_600 {
        Some(63_113_904_000 + whole)
    } else {
        None
    }
}

// So many seconds before it.
#[tactic(auto, using(crate::specs::RangeLaws::since_below, crate::specs::RangeLaws::since_far_below))]
fn at_or_before(whole: u64) -> Option<u64>
    ensures { result ≡ since_whole (neg_ℤ (pos whole)) }
{
    63_113_904_000u64.checked_sub(whole)
}

// The magnitude of a number below 2^38, by its bits without the sign: the exponent's field says where the digits are cut.
fn split_of(low: u64) -> Split
    requires { low < 0x4250_0000_0000_0000 }
    ensures { result ≡ split_of low }
{
    let field = low / 0x10_0000_0000_0000;
    if field < 1023 {
        return Split {
            whole: 0,
            exact: low == 0,
        };
    }
    let digits = 0x10_0000_0000_0000 + low % 0x10_0000_0000_0000;
    let unit = 1u64 << (1075 - field);
    Split {
        whole: digits / unit,
        exact: digits % unit == 0,
    }
}
