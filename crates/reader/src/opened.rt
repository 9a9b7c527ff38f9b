// The numbers of the open containers, where they are kept one after another.
ghost use Rattle.std.specs.Prelude.{◌≡◌};
ghost use Rattle.number.specs.Among.{among};

// Whether a number is among others. None ends the loop early, so that the compiler compares many at once: with 64 containers open that
// takes some 60 instructions less than to stop at the first one.
#[tactic(auto, using(crate::proofs::Frames::among_left), unfolding(number::specs::Among::among))]
pub fn is_among(numbers: &[u32], number: u32) -> bool
    ensures { result ≡ among numbers.now number }
{
    let mut found = false;
    for other in numbers {
        found |= number == *other;
    }
    found
}
