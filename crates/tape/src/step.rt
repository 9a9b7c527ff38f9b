// The event at a place of the tape.
ghost use Rattle.std.specs.Prelude.{◌≡◌, ◌+◌, ◌^◌, ◌<◌};
ghost use Rattle.tape.specs.Item.{plain, bytes_at, numbered as numbered_by, negative as negative_in, date_in, data_in, text_in};
ghost use Rattle.tape.specs.Kinds.{event_of};
ghost use Rattle.tape.specs.Said.{step_said, step_at};

use crate::item::Item;
use crate::room::lacks_room;
use crate::value::{eight_at, length_at, number_at};
use event::date::is_date;
use event::real::real_of;
use event::{Event, Integer};
use number::signed::negative_of;
use utf::utf8::is_utf8;

// The event whose kind stands at a place. Bytes that aren't one whole event, in the tape's own form, are bad.
pub fn step(tape: &[u8], at: usize) -> Option<Item>
    ensures { step_said at result ≡ step_at tape.now at }
{
    if tape.len() <= at {
        return None;
    }
    let next = at + 1;
    match tape[at] {
        0x01 => no_bytes(Event::Boolean(false), next),
        0x02 => no_bytes(Event::Boolean(true), next),
        0x03 => numbered(0x03, number_at(tape, next)),
        0x04 => negative(number_at(tape, next)),
        0x05 => numbered(0x05, eight_at(tape, next)),
        0x06 => dated(eight_at(tape, next)),
        0x07 => numbered(0x07, number_at(tape, next)),
        0x08 => data_at(tape, number_at(tape, next)),
        0x09 => text_at(tape, number_at(tape, next)),
        0x0a => no_bytes(Event::StartArray(None), next),
        0x0b => numbered(0x0b, number_at(tape, next)),
        0x0c => no_bytes(Event::StartDictionary(None), next),
        0x0d => numbered(0x0d, number_at(tape, next)),
        0x0e => no_bytes(Event::EndCollection, next),
        _ => None,
    }
}

// The same, for the check of a tape. Text, starts and ends, which most events are, have their own arms: called in one place, they become part
// of its loop, which makes no event of them. On arrays in arrays the writer takes a sixth less time for it.
pub fn quick_step(tape: &[u8], at: usize) -> Option<Item>
    ensures { step_said at result ≡ step_at tape.now at }
{
    if tape.len() <= at {
        return None;
    }
    let next = at + 1;
    match tape[at] {
        0x09 => text_at(tape, length_at(tape, next)),
        0x0a => no_bytes(Event::StartArray(None), next),
        0x0b => numbered(0x0b, number_at(tape, next)),
        0x0c => no_bytes(Event::StartDictionary(None), next),
        0x0d => numbered(0x0d, number_at(tape, next)),
        0x0e => no_bytes(Event::EndCollection, next),
        _ => step(tape, at),
    }
}

fn no_bytes(event: Event, next: usize) -> Option<Item>
    ensures { result ≡ plain event next }
{
    Some(Item {
        event,
        start: next,
        length: 0,
        next,
    })
}

// The event of a kind that has a number.
fn numbered(kind: u8, number: Option<(u64, usize)>) -> Option<Item>
    ensures { result ≡ numbered_by (event_of kind) number }
{
    let (n, next) = number?;
    no_bytes(event_of(kind, n), next)
}

fn event_of(kind: u8, n: u64) -> Event
    ensures { result ≡ event_of kind n }
{
    match kind {
        0x03 => Event::Integer(Integer::Unsigned(n)),
        0x05 => real_of(n),
        0x07 => Event::Uid(n),
        0x0b => Event::StartArray(Some(n)),
        _ => Event::StartDictionary(Some(n)),
    }
}

// A date: bits that may be a date's.
fn dated(number: Option<(u64, usize)>) -> Option<Item>
    ensures { result ≡ date_in number }
{
    let (bits, next) = number?;
    if is_date(bits) {
        return no_bytes(Event::Date(bits), next);
    }
    None
}

// A negative integer n stands as -1 - n.
fn negative(number: Option<(u64, usize)>) -> Option<Item>
    ensures { result ≡ negative_in number }
{
    let (k, next) = number?;
    let z = negative_of(k)?;
    no_bytes(Event::Integer(Integer::Signed(z)), next)
}

// Data: its length and where its bytes begin, which must lie within the tape.
fn data_at(tape: &[u8], length: Option<(u64, usize)>) -> Option<Item>
    ensures { result ≡ data_in tape.now length }
{
    let (n, start) = length?;
    if lacks_room(tape.len(), start, n as usize) {
        return None;
    }
    with_bytes(Event::Data, start, n as usize)
}

// Text is the same, and well-formed UTF-8. It is always put into its callers: called, it would be lent the number and hand out the item, both
// through memory.
#[inline(always)]
fn text_at(tape: &[u8], length: Option<(u64, usize)>) -> Option<Item>
    ensures { result ≡ text_in tape.now length }
{
    let (n, start) = length?;
    if lacks_room(tape.len(), start, n as usize) {
        return None;
    }
    let end = start + n as usize;
    if is_utf8(&tape[start..end]) {
        return with_bytes(Event::String, start, n as usize);
    }
    None
}

fn with_bytes(event: Event, start: usize, length: usize) -> Option<Item>
    requires { start + length < 2 ^ 64 }
    ensures { result ≡ bytes_at event start length }
{
    Some(Item {
        event,
        start,
        length,
        next: start + length,
    })
}
