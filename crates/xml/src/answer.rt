// What is answered for a tape.
ghost use Rattle.std.specs.Prelude.{◌≡◌};
ghost use Rattle.xml.specs.Said.{bar_number};

use grammar::answer::Refusal;

// Why an event has no XML: a real or a UID, text with a character that XML 1.0 doesn't allow, a date without a day and time.
#[derive(Clone, Copy)]
pub enum Bar {
    NoElement,
    NoCharacter,
    NoDay,
}

// The XML's length; or the tape's refusal, or that of the first event that has no XML, with its place; or that the XML is longer than the
// output.
#[derive(Clone, Copy)]
pub enum Answer {
    Length(usize),
    Refused(Refusal, u64),
    Barred(Bar, u64),
    NoRoom,
}

// Its number (docs/FORMAT.md, N).
#[tactic(auto, unfolding(crate::specs::Said::bar_number))]
pub fn bar_number(bar: Bar) -> u32
    ensures { result ≡ bar_number bar }
{
    match bar {
        Bar::NoElement => 35,
        Bar::NoCharacter => 36,
        Bar::NoDay => 30,
    }
}
