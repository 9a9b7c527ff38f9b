// Why there is no object, and the numbers of that.
ghost use Rattle.std.specs.Prelude.{◌≡◌};
ghost use Rattle.object.specs.Refusal.{number_of};

// The refusals, by the names of docs/FORMAT.md, N.
#[derive(Clone, Copy, Debug, PartialEq, Eq)]
pub enum Refusal {
    ObjectOffsetTooLarge,
    NullObjectUnimplemented,
    FillObjectUnimplemented,
    UnknownObjectType(u8),
    IntegerOutOfRange,
    InvalidUtf8String,
    InvalidUtf16String,
    InvalidObjectLength,
    OverflowOrNanDate,
}

// A refusal's number (docs/FORMAT.md, N).
impl From<Refusal> for u32 {
    ghost from_gives = { λ refusal n. n ≡ number_of refusal };

    #[tactic(auto, unfolding(crate::specs::Refusal::number_of))]
    fn from(refusal: Refusal) -> u32 {
        match refusal {
            Refusal::ObjectOffsetTooLarge => 6,
            Refusal::NullObjectUnimplemented => 8,
            Refusal::FillObjectUnimplemented => 9,
            Refusal::UnknownObjectType(_) => 10,
            Refusal::IntegerOutOfRange => 11,
            Refusal::InvalidUtf8String => 12,
            Refusal::InvalidUtf16String => 13,
            Refusal::InvalidObjectLength => 31,
            Refusal::OverflowOrNanDate => 34,
        }
    }
}

// Kept: theorems of the crate claims name this function and its promise.
pub fn number_of(refusal: Refusal) -> u32
    ensures { result ≡ number_of refusal }
{
    u32::from(refusal)
}
