// An event behind those that are held.
ghost use Rattle.std.specs.Prelude.{[], ◌≡◌, ◌<◌, length};
ghost use Rattle.event.specs.Format.{max_open};
ghost use Rattle.event.specs.Meaning.{meaning_of, close};
ghost use Rattle.grammar.specs.WayLaws.{Tells};
ghost use Rattle.grammar.specs.declared.way.Way.TheVariants.{Past, Into, Out};
ghost use Rattle.tape.specs.BytesLaws.{Sound};
ghost use Rattle.builder.specs.Build.{answer_said, start_of, judge_of, build_of, tape_after, builder_after};
ghost use Rattle.builder.specs.State.{due_of, moved_by};

use crate::answer::BuildError;
use crate::state::{Builder, behind, due_of, pushed};
use event::Event;
use event::limits::{MAX_LENGTH, MAX_OPEN};
use grammar::answer::Refusal;
use grammar::turn::Due;
use grammar::way::{Way, way_of};
use tape::append::{Appended, is_bad};
use tape::room::lacks_event;
use tape::unchecked;

#[derive(Clone, Copy)]
pub enum Container {
    Array,
    Dictionary,
}

// A container's start. It answers how many bytes are held then. Of this call and the next two: a refusal leaves the builder and the tape as they
// are, and a depth above the limit, which no call answers, counts as the limit. The last clause is here since only code knows that numbers have 64
// bits and bytes eight.
pub fn start(
    builder: &mut Builder,
    tape: &mut [u8],
    container: Container,
    given: Option<u64>,
) -> Result<usize, BuildError>
    ensures answer_value { answer_said result ≡ build_of builder.old (length tape.old) (meaning_of (start_of container given) []) }
    ensures tape_after { tape.new ≡ tape_after builder.old tape.old (meaning_of (start_of container given) []) }
    ensures builder_after { builder.new ≡ builder_after builder.old (length tape.old) (meaning_of (start_of container given) []) }
    ensures sound { Sound (meaning_of (start_of container given) []) }
{
    build(builder, tape, start_of(container, given), b"")
}

// The end of the innermost container.
#[tactic(auto, unfolding(event::specs::Meaning::meaning_of))]
pub fn end(builder: &mut Builder, tape: &mut [u8]) -> Result<usize, BuildError>
    ensures answer_value { answer_said result ≡ build_of builder.old (length tape.old) close }
    ensures tape_after { tape.new ≡ tape_after builder.old tape.old close }
    ensures builder_after { builder.new ≡ builder_after builder.old (length tape.old) close }
{
    build(builder, tape, Event::EndCollection, b"")
}

#[tactic(auto, unfolding(crate::specs::Build::start_of))]
fn start_of(container: Container, given: Option<u64>) -> Event
    ensures { result ≡ start_of container given }
{
    match container {
        Container::Array => Event::StartArray(given),
        Container::Dictionary => Event::StartDictionary(given),
    }
}

// A value, with the bytes of data or text. No number says that an event is no value: a start or an end is taken as the other two take it.
pub fn value(
    builder: &mut Builder,
    tape: &mut [u8],
    event: Event,
    bytes: &[u8],
) -> Result<usize, BuildError>
    ensures answer_value { answer_said result ≡ build_of builder.old (length tape.old) (meaning_of event bytes.now) }
    ensures tape_after { tape.new ≡ tape_after builder.old tape.old (meaning_of event bytes.now) }
    ensures builder_after { builder.new ≡ builder_after builder.old (length tape.old) (meaning_of event bytes.now) }
    ensures sound { Sound (meaning_of event bytes.now) }
{
    build(builder, tape, event, bytes)
}

// The builder goes by its state and never reads what is held.
fn build(
    builder: &mut Builder,
    tape: &mut [u8],
    event: Event,
    bytes: &[u8],
) -> Result<usize, BuildError>
    ensures answer_value { answer_said result ≡ build_of builder.old (length tape.old) (meaning_of event bytes.now) }
    ensures tape_after { tape.new ≡ tape_after builder.old tape.old (meaning_of event bytes.now) }
    ensures builder_after { builder.new ≡ builder_after builder.old (length tape.old) (meaning_of event bytes.now) }
    ensures sound { Sound (meaning_of event bytes.now) }
{
    let held = builder.held;
    if tape.len() < held {
        return Err(BuildError::TapeShrank);
    }
    if lacks_event(MAX_LENGTH, held, event, bytes) {
        return Err(BuildError::Refused(Refusal::TooLong, 0));
    }
    let way = judge(builder.due, builder.depth, event, bytes);
    if let Way::Barred(refusal) = way {
        return Err(BuildError::Refused(refusal, held as u64));
    }
    let Appended::Held(end) = unchecked::append(tape, held, event, bytes) else {
        return Err(BuildError::NoRoom(held as u64));
    };
    step(builder, way, end);
    Ok(end)
}

// Where an event leads that is on no tape yet: 23, then 20, then 21 and 15. Above 3 nothing is due.
fn judge(due: u32, depth: usize, event: Event, bytes: &[u8]) -> Way
    ensures { result ≡ judge_of (due_of due) depth (meaning_of event bytes.now) }
{
    if 3 < due {
        return Way::Barred(Refusal::TrailingEvents);
    }
    if is_bad(event, bytes) {
        return Way::Barred(Refusal::BadTape);
    }
    way_of(due_of(due), depth, event)
}

// The builder goes behind an event that is appended.
#[tactic(auto, unfolding(crate::specs::State::moved_by))]
fn step(builder: &mut Builder, way: Way, end: usize)
    requires { Tells builder.old.depth way }
    ensures { builder.new ≡ moved_by way builder.old end }
{
    match way {
        Way::Past(next) => pass(builder, end, next),
        Way::Into(first, after) => enter(builder, end, first, after),
        Way::Out => leave(builder, end),
        Way::Barred(_) => {}
    }
}

// A value or a key is behind what was held.
#[tactic(auto, unfolding(crate::specs::State::moved_by, crate::specs::State::code_of))]
fn pass(builder: &mut Builder, end: usize, next: Due)
    ensures { builder.new ≡ moved_by (Past next) builder.old end }
{
    builder.held = end;
    builder.due = next as u32;
}

// A container is open.
#[tactic(auto, unfolding(crate::specs::State::moved_by, crate::specs::State::code_of, crate::specs::State::push_of))]
fn enter(builder: &mut Builder, end: usize, first: Due, after: Due)
    requires { builder.old.depth < max_open }
    ensures { builder.new ≡ moved_by (Into first after) builder.old end }
{
    let word = builder.depth / 64;
    builder.bits[word] = pushed(builder.bits[word], after);
    builder.held = end;
    builder.depth += 1;
    builder.due = first as u32;
}

// The innermost container is closed.
#[tactic(auto, unfolding(crate::specs::State::moved_by, crate::specs::State::pop_of))]
fn leave(builder: &mut Builder, end: usize)
    requires { 0 < builder.old.depth }
    ensures { builder.new ≡ moved_by Out builder.old end }
{
    let around = builder.depth.min(MAX_OPEN) - 1;
    let word = around / 64;
    let bits = builder.bits[word];
    builder.bits[word] = bits / 2;
    builder.held = end;
    builder.depth = around;
    builder.due = behind(bits, around);
}
