// One event put on the tape, within the budget.
ghost use Rattle.std.specs.Prelude.{List, [], ◌≡◌, ℕ, ◌<◌};
ghost use Rattle.event.specs.Meaning.{meaning_of};
ghost use Rattle.reader.specs.Said.{number_of, values_of};
ghost use Rattle.tape.specs.Append.{said, put_of, put_to};
ghost use Rattle.tape.specs.Code.{bytes_for};
ghost use Rattle.plainly.specs.One.{one_put, count_of, Scalar, scalar_means};
ghost use Rattle.plainly.specs.Plain.{stopped, put, refused_with};
ghost use Rattle.plainly.specs.Said.{ending_said, went_said};

use crate::{Ending, Far, Reading};
use event::Event;
use layout::lookup::Span;
use reader::refusal::Refusal;
use tape::append::Appended;
use tape::unchecked;
use tape::utf16::append_utf16;

// It ends with a refusal.
pub(crate) fn refused(refusal: Refusal, place: u64, held: usize) -> Reading
    ensures ending_value { ending_said result.ending ≡ stopped (number_of refusal) (values_of refusal) place }
    ensures held_value { result.held ≡ held }
{
    Reading {
        ending: Ending::Refused(refusal, place),
        held,
    }
}

// An event that has no bytes, where an offset was sought last.
pub(crate) fn put_event(tape: &mut [u8], far: Far, event: Event, place: u64) -> Result<Far, Reading>
    ensures { went_said result tape.new ≡ one_put far.left far.held tape.old (meaning_of event []) place }
{
    if far.left == 0 {
        return Err(over_budget(far.held));
    }
    counted(far, unchecked::append(tape, far.held, event, b""), place)
}

// A scalar at an offset, with the bytes of its data or text.
pub(crate) fn put_scalar(
    file: &[u8],
    tape: &mut [u8],
    far: Far,
    event: Event,
    span: Span,
    offset: u64,
) -> Result<Far, Reading>
    requires { Scalar file.now event span }
    ensures { went_said result tape.new ≡ one_put far.left far.held tape.old (scalar_means file.now event span) offset }
{
    if far.left == 0 {
        return Err(over_budget(far.held));
    }
    counted(
        far,
        append_scalar(file, tape, far.held, event, span),
        offset,
    )
}

// Its bytes stand in the file; text in UTF-16 is changed on its way onto the tape.
fn append_scalar(file: &[u8], tape: &mut [u8], held: usize, event: Event, span: Span) -> Appended
    requires { Scalar file.now event span }
    ensures result_value { said result ≡ put_of tape.old held (bytes_for (scalar_means file.now event span)) }
    ensures tape_after { tape.new ≡ put_to tape.old held (bytes_for (scalar_means file.now event span)) }
{
    match span {
        Span::NoBytes => unchecked::append(tape, held, event, b""),
        Span::InFile(part) => {
            let start = part.start;
            let end = start + part.length;
            unchecked::append(tape, held, event, &file[start..end])
        }
        Span::InUtf16(part) => {
            let start = part.start;
            let end = start + part.length;
            append_utf16(tape, held, &file[start..end])
        }
    }
}

// The budget is used up, and an event is next.
#[tactic(auto, unfolding(crate::specs::Said::went_said, crate::specs::Said::ending_said))]
fn over_budget(held: usize) -> Reading
    ensures { (t : List ℕ) → went_said (Err result) t ≡ put (refused_with 37 [] 0) held t }
{
    Reading {
        ending: Ending::OverBudget,
        held,
    }
}

// An event that was appended is counted; one that doesn't fit ends it.
fn counted(far: Far, appended: Appended, place: u64) -> Result<Far, Reading>
    requires { 0 < far.left }
    ensures { (t : List ℕ) → went_said result t ≡ count_of far.left far.held t place (said appended) }
{
    let Appended::Held(held) = appended else {
        return Err(Reading {
            ending: Ending::NoRoomForTape(far.held as u64),
            held: far.held,
        });
    };
    let left = far.left - 1;
    Ok(Far { place, held, left })
}
