// What a check of a tape answers.
ghost use Rattle.std.specs.Prelude.{◌≡◌};
ghost use Rattle.grammar.specs.Said.{number_of};

// The kinds of events, as a refusal names what was expected and what was found.
#[derive(Clone, Copy, PartialEq, Eq)]
pub enum EventKind {
    ValueOrStartCollection,
    DictionaryKeyOrEndCollection,
    StartArray,
    StartDictionary,
    EndCollection,
    Boolean,
    Data,
    Date,
    Integer,
    Real,
    String,
    Uid,
}

// The refusals, by the names of docs/FORMAT.md, N. An unexpected event comes with what was expected, then what was found.
#[derive(Clone, Copy, PartialEq, Eq)]
pub enum Refusal {
    TooLong,
    TooDeep,
    BadTape,
    UnexpectedEventType(EventKind, EventKind),
    IncompleteRoot,
    TrailingEvents,
}

// How many events a whole tape has, or the refusal with its place.
#[derive(Clone, Copy)]
pub enum Checked {
    Whole(usize),
    Refused(Refusal, u64),
}

// A refusal's number (docs/FORMAT.md, N).
#[tactic(auto, unfolding(crate::specs::Said::number_of))]
impl From<Refusal> for u32 {
    ghost from_gives = { λ refusal n. n ≡ number_of refusal };

    fn from(refusal: Refusal) -> u32 {
        match refusal {
            Refusal::TooLong => 1,
            Refusal::TooDeep => 15,
            Refusal::BadTape => 20,
            Refusal::UnexpectedEventType(_, _) => 21,
            Refusal::IncompleteRoot => 22,
            Refusal::TrailingEvents => 23,
        }
    }
}

pub fn number_of(refusal: Refusal) -> u32
    ensures { result ≡ number_of refusal }
{
    u32::from(refusal)
}
