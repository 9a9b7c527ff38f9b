// A number in decimal, and one with its sign.
ghost use Rattle.std.specs.Prelude.{◌≡◌, ◌+◌, ◌≤◌, length};
ghost use Rattle.event.specs.Meaning.{value_of};
ghost use Rattle.digits.specs.Digits.{digits_of, decimal, minus, signed};
ghost use Rattle.digits.specs.Put.{Written, put_end, put_into};
ghost use Rattle.digits.specs.Sign.{sign_digits};

use crate::fits;
use event::Integer;

// How many digits a number has.
#[tactic(auto, using(crate::specs::DigitsLaws::decimal_places))]
pub fn decimal_length(n: u64) -> usize
    ensures value { result ≡ length (decimal n) }
    ensures upper_bound { result ≤ 20 }
{
    n.max(1).ilog10() as usize + 1
}

// The digits of a number.
pub fn put_decimal(out: &mut [u8], at: usize, n: u64) -> Option<usize>
    ensures value { result ≡ put_end out.old at (decimal n) }
    ensures out_after { out.new ≡ put_into out.old at (decimal n) }
{
    let places = decimal_length(n);
    if fits(out.len(), at, places) {
        return Some(write_digits(out, at, places, n));
    }
    None
}

// How many bytes a number has with its sign.
pub fn signed_length(integer: Integer) -> usize
    ensures value { result ≡ length (signed (value_of integer)) }
    ensures upper_bound { result ≤ 20 }
{
    match sign_of(integer) {
        Sign::Plus(n) => decimal_length(n),
        Sign::Minus(n) => 1 + decimal_length(n),
    }
}

// A number with its sign: a minus stands before a negative one, nothing before another.
pub fn put_signed(out: &mut [u8], at: usize, integer: Integer) -> Option<usize>
    ensures value { result ≡ put_end out.old at (signed (value_of integer)) }
    ensures out_after { out.new ≡ put_into out.old at (signed (value_of integer)) }
{
    match sign_of(integer) {
        Sign::Plus(n) => put_decimal(out, at, n),
        Sign::Minus(n) => put_minus(out, at, n),
    }
}

fn put_minus(out: &mut [u8], at: usize, n: u64) -> Option<usize>
    ensures value { result ≡ put_end out.old at (minus n) }
    ensures out_after { out.new ≡ put_into out.old at (minus n) }
{
    let places = decimal_length(n);
    if fits(out.len(), at, 1 + places) {
        out[at] = b'-';
        return Some(write_digits(out, at + 1, places, n));
    }
    None
}

// A number, and what stands behind a minus.
#[derive(Clone, Copy)]
pub(crate) enum Sign {
    Plus(u64),
    Minus(u64),
}

#[tactic(auto, using(crate::proofs::Negative::sign_steps), unfolding(event::specs::Meaning::value_of))]
fn sign_of(integer: Integer) -> Sign
    ensures result_value { sign_digits result ≡ signed (value_of integer) }
    ensures result_len_bound { length (sign_digits result) ≤ 20 }
{
    match integer {
        Integer::Signed(z) if z < 0 => Sign::Minus(z.unsigned_abs()),
        Integer::Signed(z) => Sign::Plus(z.unsigned_abs()),
        Integer::Unsigned(n) => Sign::Plus(n),
    }
}

// So many low decimal digits, from the last one backwards. The answer is the place behind them.
pub(crate) fn write_digits(out: &mut [u8], at: usize, places: usize, n: u64) -> usize
    requires { at + places ≤ length out.old }
    ensures { Written out.old at (digits_of places n) out.new result }
{
    let mut left = n;
    for k in (0..places).rev() {
        out[at + k] = b'0' + (left % 10) as u8;
        left /= 10;
    }
    at + places
}
