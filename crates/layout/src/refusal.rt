// Why a file is not read, and the numbers of that.
ghost use Rattle.std.specs.Prelude.{◌≡◌};
ghost use Rattle.layout.specs.Said.{number_of};

use object::refusal::Refusal as ObjectRefusal;

// An object's refusals, and those of the file, its trailer and its references, by the names of docs/FORMAT.md, N. What ends beyond T is an object's
// refusal (6) everywhere: of an object, of a table entry, of the table itself.
#[derive(Clone, Copy, Debug, PartialEq, Eq)]
pub enum Refusal {
    TooLong,
    EndOfInput,
    InvalidMagic,
    InvalidTrailerObjectOffsetSize,
    InvalidTrailerObjectReferenceSize,
    ObjectReferenceTooLarge,
    Object(ObjectRefusal),
}

// A refusal's number (docs/FORMAT.md, N).
impl From<Refusal> for u32 {
    ghost from_gives = { λ refusal n. n ≡ number_of refusal };

    #[tactic(auto, unfolding(crate::specs::Said::number_of))]
    fn from(refusal: Refusal) -> u32 {
        match refusal {
            Refusal::TooLong => 1,
            Refusal::EndOfInput => 2,
            Refusal::InvalidMagic => 3,
            Refusal::InvalidTrailerObjectOffsetSize => 4,
            Refusal::InvalidTrailerObjectReferenceSize => 5,
            Refusal::ObjectReferenceTooLarge => 7,
            Refusal::Object(of_object) => u32::from(of_object),
        }
    }
}

// Kept: theorems of the crate claims name this function and its promise.
pub fn number_of(refusal: Refusal) -> u32
    ensures { result ≡ number_of refusal }
{
    u32::from(refusal)
}
