// One event put on the tape.
ghost use Rattle.std.specs.Prelude.{true, List, [], ◌∷◌, ◌++◌, ◌≡◌, ℕ, length};
ghost use Rattle.event.specs.Meaning.{meaning_of};
ghost use Rattle.event.specs.Bare.{Bare};
ghost use Rattle.event.specs.declared.Event.TheVariants.{EndCollection};
ghost use Rattle.layout.specs.Bytes.{has_bytes};
ghost use Rattle.layout.specs.Looked.{start_of};
ghost use Rattle.layout.specs.Said.{shape_said};
ghost use Rattle.tape.specs.Append.{said, put_of, put_to, append_of, append_to};
ghost use Rattle.tape.specs.Code.{bytes_for};
ghost use Rattle.tape.specs.Seven.{seven};
ghost use Rattle.transcribe.specs.Note.{from_tape, noting, note_of};
ghost use Rattle.transcribe.specs.Said.{note_said};
ghost use Rattle.transcribe.specs.Walk.{Notable, Unchecked};

use event::Event;
use event::real::float_bits;
use layout::lookup::{Shape, Span};
use reader::refusal::Refusal;
use tape::append::{Appended, put_boolean, put_integer};
use tape::unchecked;
use utf::changed::Changed;
use utf::utf16::utf16_to_utf8;

// Why an event is not noted.
#[derive(Clone, Copy)]
pub enum Failure {
    Refused(Refusal, u64),
    NoRoomForTape(u64),
}

// One event of the file behind what is held, with its bytes, which stand where the reader found them: they are not sought again, and
// not checked; text in UTF-16 is measured as it is changed. This and the functions below answer how many bytes are held then.
pub(crate) fn note(
    file: &[u8],
    scratch: &mut [u8],
    tape: &mut [u8],
    held: usize,
    event: Event,
    span: Span,
    offset: u64,
) -> Result<usize, Failure>
    requires { Notable file.now event span offset }
    ensures { noting (note_said result) tape.new scratch.new ≡ note_of file.now scratch.old tape.old held event offset }
{
    match span {
        Span::NoBytes => note_plain(tape, held, event),
        Span::InFile(part) => {
            let start = part.start;
            let end = start + part.length;
            let kind = bytes_kind(event);
            noted(
                unchecked::put_bytes(tape, held, kind, &file[start..end]),
                held,
            )
        }
        Span::InUtf16(part) => {
            let start = part.start;
            let end = start + part.length;
            match utf16_to_utf8(&file[start..end], scratch) {
                Changed::Written(n) => {
                    let kind = bytes_kind(event);
                    noted(unchecked::put_bytes(tape, held, kind, &scratch[..n]), held)
                }
                Changed::NoRoom => Err(Failure::Refused(Refusal::NoRoomForText, offset)),
                // What was read as UTF-16 is UTF-16.
                Changed::NotText => Err(Failure::Refused(Refusal::WrongFile, 0)),
            }
        }
    }
}

// The tape's kind of data, or of text.
fn bytes_kind(event: Event) -> u8
    requires { has_bytes event ≡ true }
    ensures { (s : List ℕ) → result ∷ (seven (length s) ++ s) ≡ bytes_for (meaning_of event s) }
{
    match event {
        Event::Data => 0x08,
        _ => 0x09,
    }
}

// A container's start, with its length. It and the end go to the tape by themselves, without a choice among all events: some 35
// instructions less for each.
pub(crate) fn note_start(
    tape: &mut [u8],
    held: usize,
    shape: Shape,
    length: u64,
) -> Result<usize, Failure>
    ensures result_value { note_said result ≡ from_tape (append_of tape.old held (meaning_of (start_of (shape_said shape) length) [])) }
    ensures tape_after { tape.new ≡ append_to tape.old held (meaning_of (start_of (shape_said shape) length) []) }
{
    match shape {
        Shape::Array => noted(unchecked::put_number(tape, held, 0x0b, length), held),
        Shape::Dictionary => noted(unchecked::put_number(tape, held, 0x0d, length), held),
    }
}

// A container's end.
pub(crate) fn note_end(tape: &mut [u8], held: usize) -> Result<usize, Failure>
    ensures result_value { note_said result ≡ from_tape (append_of tape.old held (meaning_of EndCollection [])) }
    ensures tape_after { tape.new ≡ append_to tape.old held (meaning_of EndCollection []) }
{
    noted(unchecked::put_kind(tape, held, 0x0e), held)
}

// An event without bytes.
fn note_plain(tape: &mut [u8], held: usize, event: Event) -> Result<usize, Failure>
    requires { Bare event }
    ensures result_value { note_said result ≡ from_tape (append_of tape.old held (meaning_of event [])) }
    ensures tape_after { tape.new ≡ append_to tape.old held (meaning_of event []) }
{
    noted(put_plain(tape, held, event), held)
}

// The same by the function of its kind: some 40 instructions a number less than by `unchecked::append`, which has other callers and so
// stays a call. No object is the start or end of a container or data or text here.
fn put_plain(tape: &mut [u8], held: usize, event: Event) -> Appended
    ensures result_value { said result ≡ put_of tape.old held (bytes_for (meaning_of event [])) }
    ensures tape_after { tape.new ≡ put_to tape.old held (bytes_for (meaning_of event [])) }
{
    match event {
        Event::Boolean(value) => put_boolean(tape, held, value),
        Event::Date(bits) => unchecked::put_eight(tape, held, 0x06, bits),
        Event::Integer(value) => put_integer(tape, held, value),
        Event::Real(value) => unchecked::put_eight(tape, held, 0x05, float_bits(value)),
        Event::Nan(bits) => unchecked::put_eight(tape, held, 0x05, bits),
        Event::Uid(n) => unchecked::put_number(tape, held, 0x07, n),
        _ => unchecked::append(tape, held, event, b""),
    }
}

// What the tape answers is the note's answer. It is asked to check nothing here, so all it refuses is what doesn't fit.
fn noted(appended: Appended, held: usize) -> Result<usize, Failure>
    requires { Unchecked held (said appended) }
    ensures { note_said result ≡ from_tape (said appended) }
{
    let Appended::Held(n) = appended else {
        return Err(Failure::NoRoomForTape(held as u64));
    };
    Ok(n)
}
