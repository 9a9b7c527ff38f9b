// A file read plainly: down through its objects by calls of the same function, with no state between calls, each event put on a tape.
#![tactic(auto)]

mod put;

ghost use Rattle.std.specs.Prelude.{[], ◌≡◌, ◌≤◌, ◌-◌, length, take};
ghost use Rattle.event.specs.Format.{max_length, max_open};
ghost use Rattle.plainly.specs.Elements.{elements_say};
ghost use Rattle.plainly.specs.ElementsLaws.{Entered};
ghost use Rattle.plainly.specs.Plain.{say_onto, plainly, plain_tape, closing};
ghost use Rattle.plainly.specs.Said.{ending_said, went_said};
ghost use Rattle.plainly.specs.Says.{object_says};

use crate::put::{put_event, put_scalar, refused};
use event::Event;
use event::limits::MAX_OPEN;
use layout::frame::Frame;
use layout::layout::{Due, Layout, Standing, due_in};
use layout::lookup::{Look, look_up, start_of};
use layout::trailer::{TrailerRead, trailer_of};
use object::container::container_at;
use reader::opened::is_among;
use reader::refusal::Refusal;

// How it ends: the whole file was read; a refusal with its place; the budget is used up, and an event is next; the next event doesn't fit.
#[derive(Clone, Copy)]
pub enum Ending {
    Ended,
    Refused(Refusal, u64),
    OverBudget,
    NoRoomForTape(u64),
}

// The ending, and how many bytes of the tape are held.
#[derive(Clone, Copy)]
pub struct Reading {
    pub ending: Ending,
    pub held: usize,
}

// How far it has come, unless it is over with a reading: the offset sought last, how many bytes of the tape are held, how many events the budget has left.
#[derive(Clone, Copy)]
pub(crate) struct Far {
    pub(crate) place: u64,
    pub(crate) held: usize,
    pub(crate) left: u64,
}

// Reads a file, and puts at most so many events on the tape.
pub fn read_plainly(file: &[u8], tape: &mut [u8], budget: u64) -> Reading
    ensures { plainly (ending_said result.ending) result.held tape.new ≡ plain_tape budget file.now tape.old }
{
    match trailer_of(file) {
        TrailerRead::Keeps(refusal, place) => refused(Refusal::File(refusal), place, 0),
        TrailerRead::Ends(refusal, place) => refused(Refusal::File(refusal), place, 0),
        TrailerRead::Lays(layout, root) => read_root(file, tape, budget, layout, root),
    }
}

// The root, with nothing open.
fn read_root(file: &[u8], tape: &mut [u8], budget: u64, layout: Layout, root: u64) -> Reading
    requires { length file.now ≤ max_length }
    ensures { plainly (ending_said result.ending) result.held tape.new ≡ closing (say_onto budget 0 tape.old (object_says file.now layout max_open [] layout.table root)) }
{
    let mut opened = [0u32; MAX_OPEN];
    let place = layout.table as u64;
    let far = Far {
        place,
        held: 0,
        left: budget,
    };
    match read_object(file, layout, tape, &mut opened, 0, root, far) {
        Ok(end) => Reading {
            ending: Ending::Ended,
            held: end.held,
        },
        Err(reading) => reading,
    }
}

// An object, and all that stands in it. It is inside so many open containers, whose numbers are given.
#[cycle(read_elements_read_object)]
fn read_object(
    file: &[u8],
    layout: Layout,
    tape: &mut [u8],
    opened: &mut [u32],
    depth: usize,
    object: u64,
    far: Far,
) -> Result<Far, Reading>
    requires { (length file.now ≤ max_length) × (length opened.old ≡ max_open) × (depth ≤ max_open) }
    ensures tape_after { went_said result tape.new ≡ say_onto far.left far.held tape.old (object_says file.now layout (max_open - depth) (take depth opened.old) far.place object) }
    ensures opened_unchanged { take depth opened.new ≡ take depth opened.old }
{
    match look_up(file, layout, object, far.place) {
        Look::Missing => Err(refused(Refusal::WrongFile, 0, far.held)),
        Look::Refused(refusal, place) => Err(refused(Refusal::File(refusal), place, far.held)),
        Look::Scalar(event, span, offset) => put_scalar(file, tape, far, event, span, offset),
        Look::Container(shape, length, offset) => {
            let number = object as u32;
            if is_among(&opened[..depth], number) {
                return Err(refused(Refusal::RecursiveObject, offset, far.held));
            }
            if MAX_OPEN <= depth {
                return Err(refused(Refusal::TooDeep, offset, far.held));
            }
            let inside = put_event(tape, far, start_of(shape, length), offset)?;
            opened[depth] = number;
            let count = length as u32;
            let at = offset as u32;
            let frame = Frame {
                object: number,
                position: 0,
                length: count,
                offset: at,
            };
            read_elements(file, layout, tape, opened, depth + 1, frame, inside)
        }
    }
}

// The elements of the innermost open container in turn, and its end.
#[cycle(read_elements_read_object)]
fn read_elements(
    file: &[u8],
    layout: Layout,
    tape: &mut [u8],
    opened: &mut [u32],
    depth: usize,
    frame: Frame,
    start: Far,
) -> Result<Far, Reading>
    requires { (length file.now ≤ max_length) × (length opened.old ≡ max_open) × (depth ≤ max_open) × Entered file.now layout frame.object frame.length frame.offset }
    ensures tape_after { went_said result tape.new ≡ say_onto start.left start.held tape.old (elements_say file.now layout (max_open - depth) (take depth opened.old) frame.object frame.offset start.place) }
    ensures opened_unchanged { take depth opened.new ≡ take depth opened.old }
{
    let offset = frame.offset as u64;
    let standing = Standing {
        offset,
        container: container_at(file, offset as usize),
    };
    let mut far = start;
    let mut position: u32 = 0;
    // Kept: what is due at a position says whether the elements are over, so no range counts it.
    loop {
        let here = Frame { position, ..frame };
        match due_in(file, layout, here, standing) {
            Due::Wrong => {
                return Err(refused(Refusal::WrongFile, 0, far.held));
            }
            Due::Close(_) => {
                return put_event(tape, far, Event::EndCollection, far.place);
            }
            Due::Member(member) => {
                far = read_object(file, layout, tape, opened, depth, member, far)?;
                position += 1;
            }
        }
    }
}
