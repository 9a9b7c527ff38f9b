// The file's bytes, and AT of each object as it is written.
ghost use Rattle.std.specs.Prelude.{◌≡◌, ℕ, suc, ◌+◌, ◌*◌, ◌^◌, ◌<◌, ◌≤◌, List, [], ◌∷◌};
ghost use Rattle.std.specs.Prelude.{length, take, drop, slice_index};
ghost use Rattle.std.proofs.lemmas.List.Edits.{sets};
ghost use Rattle.number.specs.Be.{bytes_of};
ghost use Rattle.written.specs.Encoding.{head_bytes, numbers_bytes, object_bytes, list, pairs, trailer_bytes};
ghost use Rattle.written.specs.File.{bytes_at, body, file_of};
ghost use Rattle.written.specs.Graph.{Scalar, Kind, Piece, start, Name, val, same, emission};
ghost use Rattle.written.specs.Nub.{nub_onto};
ghost use Rattle.written.specs.Shape.{skip};
ghost use Rattle.encode.specs.Put.{base_of};
ghost use Rattle.encode.specs.declared.put.Put.TheVariants.{Bytes};
ghost use Rattle.writer.specs.Members.{last_of, named_of};
ghost use Rattle.writer.specs.Ready.{pieces_in};
ghost use Rattle.writer.specs.Speak.{Placed, Grown, Spoke, First, Single, Keys, Unsaid, Told, Each, Listed, Paired, Wrote, Planned};

use crate::members::Members;
use crate::plan::Plan;
use crate::words::{Column, Events, clear};
use encode::put::{Base, Put, put_head, put_number};
use encode::unchecked;
use number::size::size_for;

// The whole file: magic, objects, offset table, trailer.
pub(crate) fn put_file(events: Events, work: &mut [u32], plan: Plan, out: &mut [u8])
    requires { Planned events.tape.now work.old out.old events.n plan.count plan.width plan.table }
    ensures { out.new ≡ sets out.old 0 (file_of (pieces_in events.entry.tape.now)) }
{
    put_at(out, 0, 8, 0x6270_6c69_7374_3030);
    put_objects(events, work, plan.width, out);
    let size = size_for(plan.table as u64);
    let end = put_table(events, work, plan.count, size, plan.table, out);
    put_trailer(out, end, size, plan);
}

// All objects, as the events come.
// Kept: here and below the output and the place in it are two parameters. In one struct, lent as &mut, each function would also have to promise
// that the output in it is still the same one.
fn put_objects(events: Events, work: &mut [u32], width: usize, out: &mut [u8])
    requires { Unsaid events.tape.now work.old out.old events.n width }
    ensures { let es = pieces_in events.entry.tape.now in
        (out.new ≡ sets out.old 8 (body es)) × Placed events.entry.tape.now work.new events.entry.n (emission es) }
{
    clear(work, events.n * 5, events.n * 6);
    let mut pos = 8;
    for e in 0..events.n {
        pos = put_event(events, work, e, width, out, pos);
    }
}

// What an event writes: itself, unless it is written already or an end; of a dictionary also its keys. An equal scalar before it has been
// written with its own event at the latest.
fn put_event(
    events: Events,
    work: &mut [u32],
    e: usize,
    width: usize,
    out: &mut [u8],
    pos: usize,
) -> usize
    requires { Told events.tape.now work.old out.old events.n e width pos }
    ensures { Spoke events.entry.tape.now events.entry.n e out.old pos work.new out.new result }
{
    let next = events.word(work, Column::Next, e);
    if next == e + 1 {
        if events.word(work, Column::Rep, e) < e {
            return pos;
        }
        return put_once(events, work, e, out, pos);
    }
    if next == 0 {
        return pos;
    }
    put_container(events, work, e, next - 1, width, out, pos)
}

// A scalar, unless it is written already.
fn put_once(events: Events, work: &mut [u32], e: usize, out: &mut [u8], pos: usize) -> usize
    requires { (kept : List Name) × (s : Scalar) × Single events.tape.now work.old out.old events.n e pos kept s }
    ensures { (kept : List Name) (s : Scalar) → Single events.entry.tape.now work.old out.old events.entry.n e pos kept s
        → Grown events.entry.tape.now events.entry.n kept out.old pos (nub_onto same kept (val s ∷ [])) work.new out.new result }
{
    let r = events.word(work, Column::Rep, e);
    let number = number_of(events, work, r);
    if 0 < events.word(work, Column::At, number) {
        return pos;
    }
    events.set_word(work, Column::At, number, pos);
    put_first(events, work, r, out, pos)
}

// The scalar that event r is, which stands for all with the same bytes.
fn put_first(events: Events, work: &[u32], r: usize, out: &mut [u8], pos: usize) -> usize
    requires { (s : Scalar) × First events.tape.now work.now out.old events.n r pos s }
    ensures { (s : Scalar) → First events.entry.tape.now work.now out.old events.entry.n r pos s
        → Wrote out.old pos (bytes_at (pieces_in events.entry.tape.now) (val s)) out.new result }
{
    let at = events.word(work, Column::Off, r);
    let units = events.word(work, Column::Len, r);
    behind(
        pos,
        unchecked::put_scalar(events.tape, at, units, &mut out[pos..]),
    )
}

// A container; of a dictionary then also the keys that aren't written yet.
fn put_container(
    events: Events,
    work: &mut [u32],
    e: usize,
    stop: usize,
    width: usize,
    out: &mut [u8],
    pos: usize,
) -> usize
    requires { Told events.tape.now work.old out.old events.n e width pos
        × ((k : Kind) × (r : List Piece) × (drop e (pieces_in events.tape.now) ≡ start k ∷ r) × (stop ≡ e + skip 0 r)) }
    ensures { Spoke events.entry.tape.now events.entry.n e out.old pos work.new out.new result }
{
    let number = number_of(events, work, e);
    events.set_word(work, Column::At, number, pos);
    let at = events.word(work, Column::Off, e);
    if events.tape[at] < 0x0c {
        return put_array(events, work, e, stop, width, out, pos);
    }
    let keys = put_dictionary(events, work, e, stop, width, out, pos);
    put_keys(events, work, e + 1, stop, out, keys)
}

// An array's head and its references to its members.
fn put_array(
    events: Events,
    work: &[u32],
    e: usize,
    stop: usize,
    width: usize,
    out: &mut [u8],
    pos: usize,
) -> usize
    requires { (ks : List ℕ) × Listed work.now out.old events.n e stop width pos ks }
    ensures { (ks : List ℕ) → Listed work.now out.old events.entry.n e stop width pos ks
        → Wrote out.old pos (object_bytes width (list ks)) out.new result }
{
    let members = events.word(work, Column::Len, e);
    let head = put_head_at(out, pos, Base::Array, members);
    put_each(events, work, e + 1, stop, Members::All, width, out, head)
}

// A dictionary's head, its references to its keys, and those to its values.
fn put_dictionary(
    events: Events,
    work: &[u32],
    e: usize,
    stop: usize,
    width: usize,
    out: &mut [u8],
    pos: usize,
) -> usize
    requires { (ks : List ℕ) × (vs : List ℕ) × Paired work.now out.old events.n e stop width pos ks vs }
    ensures { (ks vs : List ℕ) → Paired work.now out.old events.entry.n e stop width pos ks vs
        → Wrote out.old pos (object_bytes width (pairs ks vs)) out.new result }
{
    let members = events.word(work, Column::Len, e);
    let head = put_head_at(out, pos, Base::Dictionary, members / 2);
    let values = put_each(events, work, e + 1, stop, Members::Keys, width, out, head);
    put_each(
        events,
        work,
        e + 1,
        stop,
        Members::Values,
        width,
        out,
        values,
    )
}

// The references to these members, from one event up to the end at `stop`.
fn put_each(
    events: Events,
    work: &[u32],
    first: usize,
    stop: usize,
    members: Members,
    width: usize,
    out: &mut [u8],
    from: usize,
) -> usize
    requires { (ks : List ℕ) × Each work.now out.old events.n first stop (last_of members) (named_of members) width from ks }
    ensures { (ks : List ℕ) → Each work.now out.old events.entry.n first stop (last_of members) (named_of members) width from ks
        → Wrote out.old from (numbers_bytes width ks) out.new result }
{
    let mut i = first;
    let mut pos = from;
    // Kept: each turn goes on by the word that it read, so no range or iterator counts i.
    while i < stop {
        let rep = events.word(work, Column::Rep, members.named(i));
        pos = put_at(out, pos, width, number_of(events, work, rep) as u64);
        i = events.word(work, Column::Next, members.last(i));
    }
    pos
}

// A dictionary's keys: their bytes.
fn put_keys(
    events: Events,
    work: &mut [u32],
    first: usize,
    stop: usize,
    out: &mut [u8],
    from: usize,
) -> usize
    requires { (kept : List Name) × (ks : List Name) × (vs : List Name)
        × Keys events.tape.now work.old out.old events.n first stop from kept ks vs }
    ensures { (kept ks vs : List Name) → Keys events.entry.tape.now work.old out.old events.entry.n first stop from kept ks vs
        → Grown events.entry.tape.now events.entry.n kept out.old from (nub_onto same kept ks) work.new out.new result }
{
    let mut i = first;
    let mut pos = from;
    // Kept: each turn goes on by the word that it read, so no range or iterator counts i.
    while i < stop {
        pos = put_once(events, work, i, out, pos);
        i = events.word(work, Column::Next, i + 1);
    }
    pos
}

// The column AT.
fn put_table(
    events: Events,
    work: &[u32],
    count: usize,
    size: usize,
    table: usize,
    out: &mut [u8],
) -> usize
    requires { (events.n * 5 + count ≤ length work.now) × (table + count * size ≤ length out.old) }
    ensures { Wrote out.old table (numbers_bytes size (take count (drop (events.entry.n * 5) work.now))) out.new result }
{
    let places = &work[events.n * 5..events.n * 5 + count];
    let mut pos = table;
    for place in places {
        pos = put_at(out, pos, size, u64::from(*place));
    }
    pos
}

// Six zeros and the two sizes are one number of eight bytes.
fn put_trailer(out: &mut [u8], pos: usize, size: usize, plan: Plan)
    requires { (pos + 32 ≤ length out.old) × (size < 256) × (plan.width < 256) }
    ensures { out.new ≡ sets out.old pos (trailer_bytes size plan.width plan.count 0 plan.table) }
{
    put_at(out, pos, 8, size as u64 * 0x100 + plan.width as u64);
    put_at(out, pos + 8, 8, plan.count as u64);
    put_at(out, pos + 16, 8, 0);
    put_at(out, pos + 24, 8, plan.table as u64);
}

// The number of an object; r is its first event.
fn number_of(events: Events, work: &[u32], r: usize) -> usize
    requires { (length work.now ≡ events.n * 8) × (r < events.n) × (0 < slice_index work.now (events.n * 4 + r)) }
    ensures { suc result ≡ slice_index work.now (events.entry.n * 4 + r) }
{
    events.word(work, Column::Num, r) - 1
}

// A head at a place of the output; answers the place after it.
fn put_head_at(out: &mut [u8], pos: usize, base: Base, members: usize) -> usize
    requires { pos + length (head_bytes (base_of base) members) ≤ length out.old }
    ensures { Wrote out.old pos (head_bytes (base_of base) members) out.new result }
{
    behind(pos, put_head(&mut out[pos..], base, members))
}

// A number at a place of the output; answers the place after it.
fn put_at(out: &mut [u8], pos: usize, size: usize, n: u64) -> usize
    requires { pos + size ≤ length out.old }
    ensures { (result ≡ pos + size) × (out.new ≡ sets out.old pos (bytes_of size n)) }
{
    behind(pos, put_number(&mut out[pos..], size, n))
}

// The place behind what was put: the passes before this one have found that a scalar stands there, and that there is room.
fn behind(pos: usize, put: Put) -> usize
    requires { (n : ℕ) × (put ≡ Bytes n) × (pos + n < 2 ^ 64) }
    ensures { (n : ℕ) → put ≡ Bytes n → result ≡ pos + n }
{
    match put {
        Put::Bytes(length) => pos + length,
        Put::NoRoom => pos,
        Put::NoScalar => pos,
    }
}
