// The walk through a file: its events from the root on, each noted on the tape.
ghost use Rattle.std.specs.Prelude.{◌≡◌, ◌≤◌, length};
ghost use Rattle.number.specs.Among.{among};
ghost use Rattle.layout.specs.Layout.{look_of};
ghost use Rattle.reader.specs.Machine.{arrive};
ghost use Rattle.reader.specs.Next.{laid_out};
ghost use Rattle.reader.specs.State.{max_length};
ghost use Rattle.transcribe.specs.Run.{run, finished_of, onward};
ghost use Rattle.transcribe.specs.Said.{walked_said};
ghost use Rattle.transcribe.specs.Walk.{Below, due_now};

use crate::note::{Failure, note, note_end, note_start};
use layout::frame::Frame;
use layout::layout::{Due, Layout, Standing, due_in, stands_in};
use layout::lookup::{Look, look_up};
use object::container::container_at;
use reader::opened::is_among;
use reader::refusal::Refusal;
use reader::state::Reader;

// How a walk ends that nothing stops early: at the file's end, or with the budget used up.
#[derive(Clone, Copy)]
pub(crate) enum End {
    Ended,
    Stopped,
}

// The events from the root on, behind the bytes that are held. The open containers stay in this function's own memory and change there: a reader
// that goes by value is copied whole at every call, and that would be half of the work.
pub(crate) fn walk(
    file: &[u8],
    scratch: &mut [u8],
    tape: &mut [u8],
    held: &mut usize,
    budget: u64,
    layout: Layout,
    root: u64,
) -> Result<End, Failure>
    requires { length file.now ≤ max_length }
    ensures { run (walked_said result) held.new tape.new scratch.new ≡ onward budget file.now scratch.old tape.old held.old (arrive (laid_out file.now layout) root (look_of file.now layout root)) }
{
    let mut frames = [Frame::NONE; Reader::MAX_OPEN];
    // their numbers once more, to be lent and searched: a slice of frames can't be lent, and a copy of them would cost 100 instructions
    let mut numbers = [0u32; Reader::MAX_OPEN];
    // above each of these; a number at or above it need not be searched for. The numbers mostly grow on the way inwards, so with 64
    // containers open that takes some 60 instructions less
    let mut above: u64 = 0;
    let mut depth: usize = 0;
    let mut place = layout.table as u64;
    // the innermost open container, looked at once and not again for each of its references
    let mut standing = Standing::NOWHERE;
    for left in (0..budget).rev() {
        // where the innermost open container stands; with none open, where the first one will
        let top = depth.saturating_sub(1);
        match due_now(file, layout, root, depth, frames[top], standing) {
            Due::Wrong => {
                return Err(Failure::Refused(Refusal::WrongFile, 0));
            }
            Due::Close(_) => {
                *held = note_end(tape, *held)?;
                if top == 0 {
                    return Ok(finished(left));
                }
                frames[top] = Frame::NONE;
                depth = top;
                standing = stands_in(file, layout, frames[top - 1]);
                continue;
            }
            Due::Member(object) => match look_up(file, layout, object, place) {
                Look::Missing => {
                    return Err(Failure::Refused(Refusal::WrongFile, 0));
                }
                Look::Refused(refusal, refused_at) => {
                    return Err(Failure::Refused(Refusal::File(refusal), refused_at));
                }
                Look::Scalar(event, span, offset) => {
                    *held = note(file, scratch, tape, *held, event, span, offset)?;
                    if depth == 0 {
                        return Ok(finished(left));
                    }
                    frames[top].position += 1;
                    place = offset;
                    // each arm goes on by itself: the turns of a container's scalars are then a loop of their own, whose frame stays in registers
                    continue;
                }
                Look::Container(shape, length, offset) => {
                    let number = object as u32;
                    if is_known(&numbers[..depth], above, number) {
                        return Err(Failure::Refused(Refusal::RecursiveObject, offset));
                    }
                    if Reader::MAX_OPEN <= depth {
                        return Err(Failure::Refused(Refusal::TooDeep, offset));
                    }
                    *held = note_start(tape, *held, shape, length)?;
                    // With nothing open the first frame is written over at once.
                    frames[top].position += 1;
                    numbers[depth] = number;
                    frames[depth] = Frame {
                        object: number,
                        position: 0,
                        length: length as u32,
                        offset: offset as u32,
                    };
                    depth += 1;
                    standing = Standing {
                        offset,
                        container: container_at(file, offset as usize),
                    };
                    above = above.max(object + 1);
                    place = offset;
                    continue;
                }
            },
        }
    }
    Ok(End::Stopped)
}

// Whether a number is among others, which are all below a bound.
fn is_known(numbers: &[u32], above: u64, number: u32) -> bool
    requires { Below above numbers.now }
    ensures { result ≡ among numbers.now number }
{
    if above <= number as u64 {
        return false;
    }
    is_among(numbers, number)
}

// What is due: the root where nothing is open yet, else what the innermost container says.
fn due_now(
    file: &[u8],
    layout: Layout,
    root: u64,
    depth: usize,
    frame: Frame,
    standing: Standing,
) -> Due
    ensures { result ≡ due_now file.now layout root depth frame standing }
{
    if depth == 0 {
        return Due::Member(root);
    }
    due_in(file, layout, frame, standing)
}

// Nothing is open any more: the end, unless the budget is used up.
#[tactic(auto, unfolding(crate::specs::Said::walked_said, crate::specs::Run::finished_of))]
fn finished(left: u64) -> End
    ensures { walked_said (Ok result) ≡ finished_of left }
{
    if left == 0 {
        return End::Stopped;
    }
    End::Ended
}
