// NEXT and LEN of containers, LEN of texts; and how many bytes all objects take.
ghost use Rattle.std.specs.Prelude.{◌≡◌, suc, ◌/◌, ◌<◌, ◌≤◌, List, ◌∷◌, drop};
ghost use Rattle.written.specs.Graph.{Kind, Piece, Scalar, scalar, start};
ghost use Rattle.written.specs.Weigh.{weight_from, members_from};
ghost use Rattle.writer.specs.Columns.{Collected, Measured, Indexed};
ghost use Rattle.writer.specs.Measure.{Weighs};
ghost use Rattle.writer.specs.Ready.{pieces_in};

use crate::words::{Column, Events};
use encode::size::head_size;
use encode::unchecked;

// The bytes of objects without their references, and how many references there are.
#[derive(Clone, Copy, Default)]
pub(crate) struct Sums {
    pub(crate) bytes: usize,
    pub(crate) members: usize,
}

// From the last event back, so that all within a container is known before it.
pub(crate) fn measure(events: Events, work: &mut [u32]) -> Sums
    requires { Collected events.tape.now work.old events.n events.n }
    ensures indexed { Indexed events.entry.tape.now work.new events.entry.n }
    ensures bytes_value { let es = pieces_in events.entry.tape.now in
        (result.bytes ≡ weight_from es 0 es) × (result.members ≡ members_from 0 es) }
{
    let mut bytes = 0;
    let mut members = 0;
    for e in (0..events.n).rev() {
        let sums = measure_event(events, work, e);
        bytes += sums.bytes;
        members += sums.members;
    }
    Sums { bytes, members }
}

fn measure_event(events: Events, work: &mut [u32], e: usize) -> Sums
    requires { (e < events.n) × Measured events.tape.now work.old events.n (suc e) }
    ensures measured { Measured events.entry.tape.now work.new events.entry.n e }
    ensures weighs { Weighs events.entry.tape.now e result.bytes result.members }
{
    let next = events.word(work, Column::Next, e);
    if next == e + 1 {
        return measure_scalar(events, work, e);
    }
    if next == e {
        return measure_container(events, work, e);
    }
    Sums::default()
}

// A scalar counts once.
fn measure_scalar(events: Events, work: &mut [u32], e: usize) -> Sums
    requires { (e < events.n) × Measured events.tape.now work.old events.n (suc e)
        × ((s : Scalar) × (r : List Piece) × (drop e (pieces_in events.tape.now) ≡ scalar s ∷ r)) }
    ensures measured { Measured events.entry.tape.now work.new events.entry.n e }
    ensures weighs { Weighs events.entry.tape.now e result.bytes result.members }
{
    if events.word(work, Column::Rep, e) != e {
        return Sums::default();
    }
    let at = events.word(work, Column::Off, e);
    let Some(size) = unchecked::size_of(events.tape, at) else {
        return Sums::default();
    };
    events.set_word(work, Column::Len, e, size.units);
    Sums {
        bytes: size.bytes,
        members: 0,
    }
}

// From member to member up to the end.
fn measure_container(events: Events, work: &mut [u32], e: usize) -> Sums
    requires { (e < events.n) × Measured events.tape.now work.old events.n (suc e)
        × ((k : Kind) × (r : List Piece) × (drop e (pieces_in events.tape.now) ≡ start k ∷ r)) }
    ensures measured { Measured events.entry.tape.now work.new events.entry.n e }
    ensures weighs { Weighs events.entry.tape.now e result.bytes result.members }
{
    let mut i = e + 1;
    let mut members = 0;
    // Kept: each turn goes on by the word that it read, so no range or iterator counts i.
    while 0 < events.word(work, Column::Next, i) {
        i = events.word(work, Column::Next, i);
        members += 1;
    }
    events.set_word(work, Column::Next, e, i + 1);
    events.set_word(work, Column::Len, e, members);
    let at = events.word(work, Column::Off, e);
    Sums {
        bytes: head_size(length_of(events.tape[at], members)),
        members,
    }
}

// A dictionary's length is its pairs.
fn length_of(kind: u8, members: usize) -> usize
    ensures { (kind < 0x0c → result ≡ members) × (0x0c ≤ kind → result ≡ members / 2) }
{
    if kind < 0x0c {
        return members;
    }
    members / 2
}
