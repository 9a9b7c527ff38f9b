// The objects' numbers. The root's first; then, container by container as the tape has them, those of its keys and those of its values.
ghost use Rattle.std.specs.Prelude.{◌≡◌, ℕ, suc, ◌+◌, ◌*◌, ◌^◌, ◌<◌, List, length};
ghost use Rattle.writer.specs.Columns.{Indexed};
ghost use Rattle.writer.specs.Marks.{Path, new_words, new_next, marked, Numbered};
ghost use Rattle.writer.specs.Members.{last_of, named_of};

use crate::members::Members;
use crate::words::{Column, Events, clear};

// Answers how many objects there are.
pub(crate) fn assign(events: Events, work: &mut [u32]) -> usize
    requires { Indexed events.tape.now work.old events.n }
    ensures { Indexed events.entry.tape.now work.new events.entry.n × Numbered events.entry.tape.now work.new events.entry.n events.entry.n result }
{
    clear(work, events.n * 4, events.n * 5);
    let mut k = mark(events, work, 0, 0);
    for e in 0..events.n {
        k = assign_event(events, work, e, k);
    }
    k
}

fn assign_event(events: Events, work: &mut [u32], e: usize, k: usize) -> usize
    requires { (e < events.n) × Indexed events.tape.now work.old events.n × Numbered events.tape.now work.old events.n e k }
    ensures { Indexed events.entry.tape.now work.new events.entry.n × Numbered events.entry.tape.now work.new events.entry.n (suc e) result }
{
    let next = events.word(work, Column::Next, e);
    if next <= e + 1 {
        return k;
    }
    let at = events.word(work, Column::Off, e);
    if events.tape[at] < 0x0c {
        return assign_each(events, work, e + 1, next - 1, Members::All, k);
    }
    let keys = assign_each(events, work, e + 1, next - 1, Members::Keys, k);
    assign_each(events, work, e + 1, next - 1, Members::Values, keys)
}

// These members, from one event up to the end at `stop`.
fn assign_each(
    events: Events,
    work: &mut [u32],
    first: usize,
    stop: usize,
    members: Members,
    next: usize,
) -> usize
    requires { (length work.old ≡ events.n * 8)
        × ((rs : List ℕ) × Path work.old events.n stop (last_of members) (named_of members) first rs × (next + length rs < 2 ^ 32)) }
    ensures { (rs : List ℕ) → Path work.old events.entry.n stop (last_of members) (named_of members) first rs
        → (work.new ≡ (marked work.old events.entry.n next rs).words) × (result ≡ (marked work.old events.entry.n next rs).next) }
{
    let mut i = first;
    let mut k = next;
    // Kept: each turn goes on by the word that it read, so no range or iterator counts i.
    while i < stop {
        let rep = events.word(work, Column::Rep, members.named(i));
        k = mark(events, work, rep, k);
        i = events.word(work, Column::Next, members.last(i));
    }
    k
}

// Gives an event the next number, plus 1, where it has none.
fn mark(events: Events, work: &mut [u32], e: usize, k: usize) -> usize
    requires { (events.n * 4 + e < length work.old) × (k + 1 < 2 ^ 32) }
    ensures { (work.new ≡ new_words work.old (events.entry.n * 4 + e) k) × (result ≡ new_next work.old (events.entry.n * 4 + e) k) }
{
    if events.word(work, Column::Num, e) == 0 {
        events.set_word(work, Column::Num, e, k + 1);
        return k + 1;
    }
    k
}
