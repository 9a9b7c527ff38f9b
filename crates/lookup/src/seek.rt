// Values on a tape that has been checked.
ghost use Rattle.std.specs.Prelude.{◌≡◌, ℕ, ◌+◌, ◌<◌, ◌^◌, length};
ghost use Rattle.tape.specs.Item.{event, read_at};
ghost use Rattle.event.specs.Meaning.{Meaning};
ghost use Rattle.lookup.specs.Rest.{events_at, Rest, deeper_by, Placed};
ghost use Rattle.lookup.specs.Value.{behind, under_key, into};

use tape::unchecked::end_of;
use tape::value::number_at;

// The place behind the value that begins at a place: a scalar is one event, a container goes up to its end.
// Kept: that events stand at the place is asked for here and twice below. Place and tape in one struct would have it as a ghost field, but it is
// told by recursion along the events, so each proof would open it by hand.
pub(crate) fn value_end(tape: &[u8], from: usize) -> usize
    requires { Rest tape.now from (events_at tape.now from) }
    ensures { Rest tape.now result (behind 0 (events_at tape.now from)) }
{
    let mut at = from;
    let mut depth = 0;
    // Kept: each turn goes on by the width of the event that it passed, so no range counts `at`.
    while at < tape.len() {
        let kind = tape[at];
        at = place_after(tape, at);
        depth = deeper(depth, kind);
        if depth == 0 {
            return at;
        }
    }
    at
}

// On a checked tape an event stands there.
fn place_after(tape: &[u8], at: usize) -> usize
    ensures { (m : Meaning) (next : ℕ) → read_at tape.now at ≡ event m next → result ≡ next }
{
    let Some(next) = end_of(tape, at) else {
        return tape.len();
    };
    next
}

// How many containers are open behind an event of a kind.
fn deeper(depth: usize, kind: u8) -> usize
    requires { depth + 1 < 2 ^ 64 }
    ensures { result ≡ deeper_by depth kind }
{
    match kind {
        0x00..=0x09 => depth,
        0x0a..=0x0d => depth + 1,
        _ => depth.saturating_sub(1),
    }
}

// Where the value under a key of what begins at a place does; what is no dictionary has none.
pub(crate) fn value_under(tape: &[u8], at: usize, key: &[u8]) -> Option<usize>
    requires { Rest tape.now at (events_at tape.now at) }
    ensures { Placed tape.now result (into key.now (events_at tape.now at)) }
{
    let kind = *tape.get(at)?;
    match kind {
        0x0c | 0x0d => seek(tape, place_after(tape, at), key),
        _ => None,
    }
}

// The value of the first pair whose key has these bytes, among the pairs from a place on.
fn seek(tape: &[u8], from: usize, key: &[u8]) -> Option<usize>
    requires { Rest tape.now from (events_at tape.now from) }
    ensures { Placed tape.now result (under_key (length (events_at tape.now from)) key.now (events_at tape.now from)) }
{
    let mut at = from;
    // Kept: each turn goes on by the width of a key and of its value, so no range counts `at`.
    while at < tape.len() {
        if tape[at] != 0x09 {
            return None;
        }
        let (n, start) = number_at(tape, at + 1)?;
        let next = start + n as usize;
        let name = &tape[start..next];
        if name == key {
            return Some(next);
        }
        at = value_end(tape, next);
    }
    None
}
