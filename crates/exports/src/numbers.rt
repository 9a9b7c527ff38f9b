// An answer as numbers.
ghost use Rattle.std.specs.Prelude.{◌≡◌};
ghost use Rattle.grammar.specs.Said.{number_of, kinds_of};
ghost use Rattle.exports.specs.Write.{kind_number, first_number, second_number};

use grammar::answer::{EventKind, Refusal, number_of};

// 0 or a refusal's number, a length or the refusal's place, and the numbers of the kinds of events that 21 names, else 0.
#[derive(Clone, Copy)]
pub struct Numbers {
    pub code: u32,
    pub place: u64,
    pub expected: u32,
    pub found: u32,
}

impl Numbers {
    // What names no kinds.
    pub fn plain(code: u32, place: u64) -> Numbers
        ensures { result ≡ record { code = code; place = place; expected = 0; found = 0 } }
    {
        Numbers {
            code,
            place,
            expected: 0,
            found: 0,
        }
    }

    // A tape's refusal.
    pub fn refused(refusal: Refusal, place: u64) -> Numbers
        ensures { result ≡ record {
          code = number_of refusal;
          place = place;
          expected = first_number (kinds_of refusal);
          found = second_number (kinds_of refusal);
        } }
    {
        Numbers {
            code: number_of(refusal),
            place,
            expected: first_number(refusal),
            found: second_number(refusal),
        }
    }
}

// The numbers of the kinds that a refusal expected and found; 0 of one that names none.
#[tactic(auto, unfolding(crate::specs::Write::first_number, grammar::specs::Said::kinds_of))]
pub fn first_number(refusal: Refusal) -> u32
    ensures { result ≡ first_number (kinds_of refusal) }
{
    match refusal {
        Refusal::UnexpectedEventType(expected, _) => kind_number(expected),
        _ => 0,
    }
}

#[tactic(auto, unfolding(crate::specs::Write::second_number, crate::specs::Write::first_number, grammar::specs::Said::kinds_of))]
pub fn second_number(refusal: Refusal) -> u32
    ensures { result ≡ second_number (kinds_of refusal) }
{
    match refusal {
        Refusal::UnexpectedEventType(_, found) => kind_number(found),
        _ => 0,
    }
}

#[tactic(auto, unfolding(crate::specs::Write::kind_number))]
fn kind_number(kind: EventKind) -> u32
    ensures { result ≡ kind_number kind }
{
    match kind {
        EventKind::ValueOrStartCollection => 1,
        EventKind::DictionaryKeyOrEndCollection => 2,
        EventKind::StartArray => 3,
        EventKind::StartDictionary => 4,
        EventKind::EndCollection => 5,
        EventKind::Boolean => 6,
        EventKind::Data => 7,
        EventKind::Date => 8,
        EventKind::Integer => 9,
        EventKind::Real => 10,
        EventKind::String => 11,
        EventKind::Uid => 12,
    }
}
