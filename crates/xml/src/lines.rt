// The lines of a tape's events, one behind the other.
ghost use Rattle.std.specs.Prelude.{[], ◌≡◌, ◌≤◌, ◌<◌, length, get_or};
ghost use Rattle.event.specs.Meaning.{meaning_of};
ghost use Rattle.grammar.specs.Turn.{after_of};
ghost use Rattle.tape.specs.Item.{plain, item_at};
ghost use Rattle.tape.specs.Value.{number_at};
ghost use Rattle.xml.specs.Lines.{Held, open_way, Tells, Rooted, Laid};

use crate::answer::Bar;
use crate::put::{is_key, put_line, put_text};
use event::Event;
use event::limits::MAX_OPEN;
use grammar::turn::Due;
use grammar::way::Way;
use tape::item::Item;
use tape::step::step;
use tape::value::number_at;

// An event's line, its way, and where the next event begins.
#[derive(Clone, Copy)]
pub(crate) struct Told {
    pub line: Result<usize, Bar>,
    pub way: Way,
    pub next: usize,
}

// The place behind the last line, or the first event that has none, with its place on the tape. The tape is one whole root: `due` is due behind
// the events before `at`, and the first `depth` of `around` are what is due once each open container is closed, the outermost first, as in the
// check. `to` is the place behind their lines.
pub(crate) fn put_lines(tape: &[u8], out: &mut [u8], from: usize) -> Result<usize, (Bar, u64)>
    requires { Rooted tape.now × (from ≤ 164) }
    ensures { Laid tape.now out.old from out.new result }
{
    let mut around = [Due::Nothing; MAX_OPEN];
    let mut depth: usize = 0;
    let mut due = Due::Root;
    let mut at: usize = 0;
    let mut to: usize = from;
    // Kept: each turn goes on by the width of the event that it read, so no range or iterator counts `at`.
    while at < tape.len() {
        let told = line_at(out, to, tape, at, due);
        to = told.line.map_err(|bar| (bar, at as u64))?;
        at = told.next;
        match told.way {
            Way::Past(next) => due = next,
            Way::Into(first, behind) => {
                around[depth] = behind;
                depth += 1;
                due = first;
            }
            Way::Out => {
                depth -= 1;
                due = around[depth];
            }
            Way::Barred(_) => return Ok(to),
        }
    }
    Ok(to)
}

// The line of the event at a place of the tape, put from a place of the output on. Text, which most events are, makes no event.
fn line_at(out: &mut [u8], to: usize, tape: &[u8], at: usize, due: Due) -> Told
    requires { (to < 0x100_0000_0000) × (length tape.now ≤ 2_147_483_648) × Held tape.now at }
    ensures { Tells tape.now at due out.old to out.new result }
{
    if tape[at] == 0x09 {
        return text_line(out, to, tape, at, due);
    }
    let Some(item) = item_at(tape, at) else {
        return Told {
            line: Ok(to),
            way: Way::Out,
            next: at,
        };
    };
    let event = item.event;
    let start = item.start;
    let end = item.next;
    Told {
        line: put_line(out, to, due, event, &tape[start..end]),
        way: open_way(due, event),
        next: end,
    }
}

// The same of text. Whether it is UTF-8 isn't looked at again.
fn text_line(out: &mut [u8], to: usize, tape: &[u8], at: usize, due: Due) -> Told
    requires { (to < 0x100_0000_0000) × (length tape.now ≤ 2_147_483_648) × Held tape.now at × (get_or tape.now at 0 ≡ 0x09) }
    ensures { Tells tape.now at due out.old to out.new result }
{
    let Some((n, start)) = length_at(tape, at + 1) else {
        return Told {
            line: Ok(to),
            way: Way::Out,
            next: at,
        };
    };
    let end = start + n as usize;
    Told {
        line: put_text(out, to, is_key(due), &tape[start..end]),
        way: Way::Past(after(due)),
        next: end,
    }
}

// The number at a place, quickly where it is one group, as most lengths are.
fn length_at(tape: &[u8], at: usize) -> Option<(u64, usize)>
    ensures { result ≡ number_at tape.now at }
{
    match tape.get(at) {
        Some(group) if *group < 0x80 => Some((*group as u64, at + 1)),
        _ => number_at(tape, at),
    }
}

// The event at a place of a tape that was checked. The step that the check takes isn't called: with a second caller it would no longer be a
// part of the check's loop, which would take twice as long.
fn item_at(tape: &[u8], at: usize) -> Option<Item>
    requires { Held tape.now at }
    ensures { result ≡ item_at tape.now at }
{
    let next = at + 1;
    match tape[at] {
        0x0a => no_bytes(Event::StartArray(None), next),
        0x0c => no_bytes(Event::StartDictionary(None), next),
        0x0e => no_bytes(Event::EndCollection, next),
        _ => step(tape, at),
    }
}

#[tactic(auto, unfolding(tape::specs::Item::plain))]
fn no_bytes(event: Event, next: usize) -> Option<Item>
    ensures { result ≡ plain event next }
{
    Some(Item {
        event,
        start: next,
        length: 0,
        next,
    })
}

// Where an event leads that the check let pass.
#[tactic(auto, unfolding(crate::specs::Lines::open_way, event::specs::Meaning::meaning_of))]
fn open_way(due: Due, event: Event) -> Way
    ensures { result ≡ open_way due (meaning_of event []) }
{
    match event {
        Event::StartArray(_) => Way::Into(Due::Element, after(due)),
        Event::StartDictionary(_) => Way::Into(Due::Key, after(due)),
        Event::EndCollection => Way::Out,
        Event::Boolean(_)
        | Event::Data
        | Event::Date(_)
        | Event::Integer(_)
        | Event::Real(_)
        | Event::Nan(_)
        | Event::String
        | Event::Uid(_) => Way::Past(after(due)),
    }
}

// What is due behind a value or a whole container.
#[tactic(auto, unfolding(grammar::specs::Turn::after_of))]
fn after(due: Due) -> Due
    ensures { result ≡ after_of due }
{
    match due {
        Due::Root | Due::Nothing => Due::Nothing,
        Due::Element => Due::Element,
        Due::Key => Due::Value,
        Due::Value => Due::Key,
    }
}
