// A tape is one whole root, or why not.
ghost use Rattle.std.specs.Prelude.{◌≡◌};
ghost use Rattle.grammar.specs.Check.{check_of};
ghost use Rattle.grammar.specs.Said.{checked_said};

use crate::answer::{Checked, Refusal};
use crate::around::Around;
use crate::turn::{Due, is_nothing};
use crate::way::{Way, way_at};
use event::limits::MAX_LENGTH;

// `events` events stand before `at`, and none was refused; `due` is due behind them.
pub fn check_tape(tape: &[u8]) -> Checked
    ensures { checked_said result ≡ check_of tape.now }
{
    if MAX_LENGTH < tape.len() {
        return Checked::Refused(Refusal::TooLong, 0);
    }
    let mut around = Around::new();
    let mut due = Due::Root;
    let mut events = 0;
    let mut at = 0;
    // Kept: each turn goes on by as many bytes as its event has, so no range or iterator counts the places.
    while at < tape.len() {
        let gone = way_at(tape, at, due, around.depth());
        match gone.way {
            Way::Past(next) => due = next,
            Way::Into(first, behind) => {
                around.push(behind);
                due = first;
            }
            Way::Out => due = around.pop(),
            Way::Barred(refusal) => return Checked::Refused(refusal, at as u64),
        }
        events += 1;
        at = gone.next;
    }
    if is_nothing(due) {
        return Checked::Whole(events);
    }
    Checked::Refused(Refusal::IncompleteRoot, tape.len() as u64)
}
