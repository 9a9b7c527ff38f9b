// Where an event leads.
ghost use Rattle.std.specs.Prelude.{[], ◌≡◌};
ghost use Rattle.event.specs.Meaning.{meaning_of};
ghost use Rattle.grammar.specs.Way.{way_of, barred_at, way_at};

use crate::answer::{EventKind, Refusal};
use crate::turn::{Due, Turn, after, is_nothing, turn_of};
use event::Event;
use event::limits::MAX_OPEN;
use tape::step::quick_step;

// Past a value or a key, with what is due then; into a container, with what is due in it and what is due behind it; out of the innermost
// container, behind which something is due already; or nowhere, since the event is refused.
#[derive(Clone, Copy)]
pub enum Way {
    Past(Due),
    Into(Due, Due),
    Out,
    Barred(Refusal),
}

// That, and where the next event begins.
#[derive(Clone, Copy)]
pub(crate) struct Gone {
    pub way: Way,
    pub next: usize,
}

// The whole move of an event, on a tape or not, where so many containers are open: 23, then 21, then 15. What is due behind each of them is
// the caller's to keep, who adds the second of `Into` and takes the last at `Out`.
pub fn way_of(due: Due, depth: usize, event: Event) -> Way
    ensures { result ≡ way_of due depth (meaning_of event []) }
{
    match turn_of(due, event) {
        Turn::Pass(next) => Way::Past(next),
        Turn::Open(first) => {
            if MAX_OPEN <= depth {
                return Way::Barred(Refusal::TooDeep);
            }
            Way::Into(first, after(due))
        }
        Turn::Close => {
            if depth == 0 {
                return Way::Barred(Refusal::UnexpectedEventType(
                    EventKind::ValueOrStartCollection,
                    EventKind::EndCollection,
                ));
            }
            Way::Out
        }
        Turn::Stop(refusal) => Way::Barred(refusal),
    }
}

// The way of the event at a place of a tape: 23, then 20, then 21, then 15.
pub(crate) fn way_at(tape: &[u8], at: usize, due: Due, depth: usize) -> Gone
    ensures { result ≡ way_at tape.now at due depth }
{
    if is_nothing(due) {
        return barred(Refusal::TrailingEvents, at);
    }
    let Some(item) = quick_step(tape, at) else {
        return barred(Refusal::BadTape, at);
    };
    Gone {
        way: way_of(due, depth, item.event),
        next: item.next,
    }
}

#[tactic(auto, unfolding(crate::specs::Way::barred_at))]
fn barred(refusal: Refusal, at: usize) -> Gone
    ensures { result ≡ barred_at refusal at }
{
    Gone {
        way: Way::Barred(refusal),
        next: at,
    }
}
