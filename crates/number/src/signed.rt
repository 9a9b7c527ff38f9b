// Signed numbers of 64 bits: from and to two's complement, and a negative number n as -1 - n.
ghost use Rattle.std.specs.Prelude.{◌≡◌};
ghost use Rattle.number.specs.Signed.{signed_of, bits_of, magnitude_of, negative_of};

// The number that 64 bits are in two's complement.
#[tactic(auto, using(crate::proofs::Minus::signed_is))]
pub fn signed_of(bits: u64) -> i64
    ensures { result ≡ signed_of bits }
{
    bits.cast_signed()
}

// The 64 bits of a number in two's complement.
#[tactic(auto, using(crate::proofs::Minus::bits_is))]
pub fn bits_of(z: i64) -> u64
    ensures { result ≡ bits_of z }
{
    z.cast_unsigned()
}

// A number at or above zero as it is, a negative number n as -1 - n.
#[tactic(auto, using(crate::proofs::Minus::turned, crate::proofs::Minus::kept))]
pub fn magnitude(z: i64) -> u64
    ensures { result ≡ magnitude_of z }
{
    if z < 0 { !z as u64 } else { z as u64 }
}

// The negative number -1 - k, where there is one of 64 bits.
pub fn negative_of(k: u64) -> Option<i64>
    ensures { result ≡ negative_of k }
{
    if k < 0x8000_0000_0000_0000 {
        Some(-1 - (k as i64))
    } else {
        None
    }
}
