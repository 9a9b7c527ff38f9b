// Why a call of the reader or a request is refused, and the numbers of that.
ghost use Rattle.std.specs.Prelude.{◌≡◌, get_or};
ghost use Rattle.reader.specs.Said.{number_of, values_of};

use layout::refusal::Refusal as FileRefusal;
use object::refusal::Refusal as ObjectRefusal;

// The file's refusals, and the reader's own, by the names of docs/FORMAT.md, N.
#[derive(Clone, Copy, Debug, PartialEq, Eq)]
pub enum Refusal {
    File(FileRefusal),
    RecursiveObject,
    TooDeep,
    NoRoomForText,
    WrongFile,
}

// A refusal's number (docs/FORMAT.md, N).
impl From<Refusal> for u32 {
    ghost from_gives = { λ refusal n. n ≡ number_of refusal };

    #[tactic(auto, unfolding(crate::specs::Said::number_of))]
    fn from(refusal: Refusal) -> u32 {
        match refusal {
            Refusal::File(file) => u32::from(file),
            Refusal::RecursiveObject => 14,
            Refusal::TooDeep => 15,
            Refusal::NoRoomForText => 16,
            Refusal::WrongFile => 17,
        }
    }
}

// Kept: theorems of the crate claims name this function and its promise.
pub fn number_of(refusal: Refusal) -> u32
    ensures { result ≡ number_of refusal }
{
    u32::from(refusal)
}

// The marker that 10 carries; 0 for any other refusal.
#[tactic(auto, unfolding(crate::specs::Said::values_of, layout::specs::Said::values_of, object::specs::Refusal::values_of))]
pub fn marker_of(refusal: Refusal) -> u32
    ensures { result ≡ get_or (values_of refusal) 0 0 }
{
    match refusal {
        Refusal::File(FileRefusal::Object(ObjectRefusal::UnknownObjectType(marker))) => {
            u32::from(marker)
        }
        _ => 0,
    }
}
