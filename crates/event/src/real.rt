// Reals by their bits.
ghost use Rattle.std.specs.Prelude.{◌≡◌};
ghost use Rattle.std.specs.Float.{binary32, binary64};
ghost use Rattle.std.specs.Float.Ieee.{nan_bits};
ghost use Rattle.event.specs.Real.{real_of, short_real_of, wide_nan, float_bits};

use crate::Event;

// The event of a real of 64 bits, whatever they are.
#[tactic(auto, unfolding(crate::specs::Real::real_of))]
pub fn real_of(bits: u64) -> Event
    ensures { result ≡ real_of bits }
{
    if is_nan64(bits) {
        return Event::Nan(bits);
    }
    Event::Real(f64::from_bits(bits))
}

// The event of a real of 32 bits, widened exactly.
#[tactic(auto, using(crate::proofs::Nans::nan_steps), unfolding(crate::specs::Real::short_real_of))]
pub fn short_real_of(bits: u32) -> Event
    ensures { result ≡ short_real_of bits }
{
    if is_nan32(bits) {
        return Event::Nan(wide_nan(bits));
    }
    Event::Real(f32::from_bits(bits) as f64)
}

// The bits by which a float is compared and written. No reader makes a float that is no number; one has the quiet NaN's bits.
#[tactic(auto, unfolding(crate::specs::Real::float_bits))]
pub fn float_bits(x: f64) -> u64
    ensures { result ≡ float_bits x }
{
    if x.is_nan() {
        0x7ff8_0000_0000_0000
    } else {
        x.to_bits()
    }
}

// Whether 64 bits are a NaN's: the sign dropped, they are above an infinity's.
// Kept: this and the one of 32 bits go by two formats of IEEE 754, and what they promise names the format.
#[tactic(auto, using(crate::proofs::Nans::nan_steps))]
fn is_nan64(bits: u64) -> bool
    ensures { result ≡ nan_bits binary64 bits }
{
    0x7ff0_0000_0000_0000 < bits % 0x8000_0000_0000_0000
}

#[tactic(auto, using(crate::proofs::Nans::nan_steps))]
fn is_nan32(bits: u32) -> bool
    ensures { result ≡ nan_bits binary32 bits }
{
    0x7f80_0000 < bits % 0x8000_0000
}

// The 64 bits of a 32-bit NaN.
#[tactic(auto, unfolding(crate::specs::Real::wide_nan))]
fn wide_nan(bits: u32) -> u64
    ensures { result ≡ wide_nan bits }
{
    let fraction = (bits % 0x40_0000) as u64 * 0x2000_0000;
    if 0x8000_0000 <= bits {
        return 0xfff8_0000_0000_0000 + fraction;
    }
    0x7ff8_0000_0000_0000 + fraction
}
