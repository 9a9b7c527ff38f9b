// What an event does where it comes.
ghost use Rattle.std.specs.Prelude.{[], ◌≡◌};
ghost use Rattle.event.specs.Meaning.{meaning_of};
ghost use Rattle.grammar.specs.Turn.{is_nothing, after_of, unexpected_of, unless_key, end_turn, text_turn, turn_of};

use crate::answer::{EventKind, Refusal};
use event::Event;

// What may come: the root, an element of an array, a key or a value of a dictionary, or nothing any more.
#[derive(Clone, Copy, PartialEq, Eq)]
pub enum Due {
    Root,
    Element,
    Key,
    Value,
    Nothing,
}

// An event is passed, and something is due behind it; it opens a container, in which something is due; it closes one; or it is refused.
// How many containers are open doesn't count here. No public function answers it; it is public since laws of other crates go by its cases.
#[derive(Clone, Copy)]
pub enum Turn {
    Pass(Due),
    Open(Due),
    Close,
    Stop(Refusal),
}

// The turn of an event: 23, then 21, but for an end with nothing open.
#[tactic(auto, unfolding(event::specs::Meaning::meaning_of, crate::specs::Turn::turn_of))]
pub(crate) fn turn_of(due: Due, event: Event) -> Turn
    ensures { result ≡ turn_of due (meaning_of event []) }
{
    match event {
        Event::StartArray(_) => unless_key(due, EventKind::StartArray, Turn::Open(Due::Element)),
        Event::StartDictionary(_) => {
            unless_key(due, EventKind::StartDictionary, Turn::Open(Due::Key))
        }
        Event::EndCollection => end_turn(due),
        Event::Boolean(_) => unless_key(due, EventKind::Boolean, Turn::Pass(after(due))),
        Event::Data => unless_key(due, EventKind::Data, Turn::Pass(after(due))),
        Event::Date(_) => unless_key(due, EventKind::Date, Turn::Pass(after(due))),
        Event::Integer(_) => unless_key(due, EventKind::Integer, Turn::Pass(after(due))),
        Event::Real(_) | Event::Nan(_) => unless_key(due, EventKind::Real, Turn::Pass(after(due))),
        Event::String => text_turn(due),
        Event::Uid(_) => unless_key(due, EventKind::Uid, Turn::Pass(after(due))),
    }
}

// Whether nothing may come any more.
pub(crate) fn is_nothing(due: Due) -> bool
    ensures { result ≡ is_nothing due }
{
    due == Due::Nothing
}

// What is due behind a value or a whole container.
#[tactic(auto, unfolding(crate::specs::Turn::after_of))]
pub(crate) fn after(due: Due) -> Due
    ensures { result ≡ after_of due }
{
    match due {
        Due::Root | Due::Nothing => Due::Nothing,
        Due::Element => Due::Element,
        Due::Key => Due::Value,
        Due::Value => Due::Key,
    }
}

// The turn of what may stand anywhere but where a key is due.
#[tactic(auto, unfolding(crate::specs::Turn::unless_key))]
fn unless_key(due: Due, found: EventKind, turn: Turn) -> Turn
    ensures { result ≡ unless_key due found turn }
{
    match due {
        Due::Root | Due::Element | Due::Value => turn,
        Due::Key => unexpected(EventKind::DictionaryKeyOrEndCollection, found),
        Due::Nothing => Turn::Stop(Refusal::TrailingEvents),
    }
}

// An end closes what is open, unless a key waits for its value.
#[tactic(auto, unfolding(crate::specs::Turn::end_turn))]
fn end_turn(due: Due) -> Turn
    ensures { result ≡ end_turn due }
{
    match due {
        Due::Root | Due::Element | Due::Key => Turn::Close,
        Due::Value => unexpected(
            EventKind::DictionaryKeyOrEndCollection,
            EventKind::EndCollection,
        ),
        Due::Nothing => Turn::Stop(Refusal::TrailingEvents),
    }
}

// Text is a value and a key.
#[tactic(auto, unfolding(crate::specs::Turn::text_turn))]
fn text_turn(due: Due) -> Turn
    ensures { result ≡ text_turn due }
{
    if is_nothing(due) {
        return Turn::Stop(Refusal::TrailingEvents);
    }
    Turn::Pass(after(due))
}

#[tactic(auto, unfolding(crate::specs::Turn::unexpected_of))]
fn unexpected(expected: EventKind, found: EventKind) -> Turn
    ensures { result ≡ unexpected_of expected found }
{
    Turn::Stop(Refusal::UnexpectedEventType(expected, found))
}
