// OFF and REP of every event; of NEXT what an event says by itself.
ghost use Rattle.std.specs.Prelude.{◌≡◌, ℕ, suc, ◌*◌, ◌^◌, ◌<◌, length};
ghost use Rattle.event.specs.Meaning.{Meaning};
ghost use Rattle.tape.specs.Events.{start_at};
ghost use Rattle.tape.specs.Item.{read_at, event};
ghost use Rattle.writer.specs.Collect.{FirstOf, alone_by, Turn};
ghost use Rattle.writer.specs.Columns.{Collected};
ghost use Rattle.writer.specs.Find.{Entered};
ghost use Rattle.writer.specs.Index.{Index};

use crate::find::find;
use crate::words::{Column, Events, clear};
use tape::unchecked;

pub(crate) fn collect(events: Events, work: &mut [u32])
    requires { length work.old ≡ events.n * 8 }
    ensures { Collected events.entry.tape.now work.new events.entry.n events.entry.n }
{
    clear(work, events.n * 4, events.n * 8);
    let mut at = 0;
    for e in 0..events.n {
        at = collect_event(events, work, e, at);
    }
}

// Answers the place after the event.
fn collect_event(events: Events, work: &mut [u32], e: usize, at: usize) -> usize
    requires { (e < events.n) × (at ≡ start_at events.tape.now e)
        × Collected events.tape.now work.old events.n e × Index events.tape.now work.old events.n e }
    ensures { (result ≡ start_at events.entry.tape.now (suc e))
        × Collected events.entry.tape.now work.new events.entry.n (suc e) × Index events.entry.tape.now work.new events.entry.n (suc e) }
{
    let end = place_after(events.tape, at);
    events.set_word(work, Column::Off, e, at);
    let first = first_like(events, work, e, at, end);
    events.set_word(work, Column::Rep, e, first);
    let next = alone(events.tape[at], e);
    events.set_word(work, Column::Next, e, next);
    end
}

// On a checked tape an event stands there.
fn place_after(tape: &[u8], at: usize) -> usize
    ensures { (m : Meaning) (next : ℕ) → read_at tape.now at ≡ event m next → result ≡ next }
{
    let Some(end) = unchecked::end_of(tape, at) else {
        return tape.len();
    };
    end
}

// REP: containers and ends are never equal.
fn first_like(events: Events, work: &mut [u32], e: usize, at: usize, end: usize) -> usize
    requires { Turn events.tape.now work.old events.n e at end }
    ensures first_of { FirstOf events.entry.tape.now e result }
    ensures entered { Entered events.entry.tape.now work.old work.new events.entry.n e }
{
    if events.tape[at] < 0x0a {
        return find(events, work, e, &events.tape[at..end]);
    }
    e
}

// NEXT, while what is behind a start isn't known.
fn alone(kind: u8, e: usize) -> usize
    requires { e < 2 ^ 32 }
    ensures { result ≡ alone_by kind e }
{
    if kind < 0x0a {
        return e + 1;
    }
    if kind == 0x0e {
        return 0;
    }
    e
}
