// XML from an event tape, as a clerk can open it.
#![tactic(auto)]

pub mod answer;
mod lines;
mod put;
mod simple;
mod text;

ghost use Rattle.std.specs.Prelude.{◌≡◌, ◌≤◌, length};
ghost use Rattle.std.proofs.lemmas.List.Edits.{sets};
ghost use Rattle.number.specs.BeLaws.{Bytes};
ghost use Rattle.tape.specs.Events.{meanings_in};
ghost use Rattle.xml.specs.Lines.{Rooted, Unbarred};
ghost use Rattle.xml.specs.Said.{answer_said};
ghost use Rattle.xml.specs.Write.{measured_of, answer_of, output_of};
ghost use Rattle.xml.specs.Xml.{xml_of};

use crate::answer::Answer;
use crate::lines::put_lines;
use crate::text::write_piece;
use grammar::answer::Checked;
use grammar::check::check_tape;

// The first three lines, and the last.
const HEADER_LENGTH: usize = 164;

const FOOTER_LENGTH: usize = 9;

// The XML of a tape's events at the start of the output. That the lent tape is bytes, as the machine's are, is said so that what holds of all
// XML needs no such condition.
pub fn write_xml(tape: &[u8], out: &mut [u8]) -> Answer
    ensures result_value { answer_said result ≡ answer_of tape.now (length out.old) }
    ensures out_after { out.new ≡ output_of tape.now out.old }
    ensures bytes { Bytes tape.now }
{
    match measure_xml(tape) {
        Answer::Length(size) => {
            if out.len() < size {
                return Answer::NoRoom;
            }
            put_whole(tape, out);
            Answer::Length(size)
        }
        Answer::Refused(refusal, place) => Answer::Refused(refusal, place),
        Answer::Barred(bar, place) => Answer::Barred(bar, place),
        Answer::NoRoom => Answer::NoRoom,
    }
}

// How long it is: the answer where there is room enough.
pub fn measure_xml(tape: &[u8]) -> Answer
    ensures { answer_said result ≡ measured_of tape.now }
{
    match check_tape(tape) {
        Checked::Refused(refusal, place) => Answer::Refused(refusal, place),
        Checked::Whole(_) => measure_lines(tape),
    }
}

// The lines are put into memory in which none has room.
fn measure_lines(tape: &[u8]) -> Answer
    requires { Rooted tape.now }
    ensures { answer_said result ≡ measured_of tape.now }
{
    let mut none = [0u8; 1];
    match put_lines(tape, &mut none, HEADER_LENGTH) {
        Ok(end) => Answer::Length(end + FOOTER_LENGTH),
        Err((bar, place)) => Answer::Barred(bar, place),
    }
}

// It fits, and no event is barred.
fn put_whole(tape: &[u8], out: &mut [u8])
    requires { Rooted tape.now × Unbarred tape.now × (length (xml_of (meanings_in tape.now)) ≤ length out.old) }
    ensures { out.new ≡ sets out.old 0 (xml_of (meanings_in tape.now)) }
{
    let doctype_at = write_piece(out, 0, b"<?xml version=\"1.0\" encoding=\"UTF-8\"?>\n");
    let plist_at = write_piece(
        out,
        doctype_at,
        b"<!DOCTYPE plist PUBLIC \"-//Apple//DTD PLIST 1.0//EN\" \"http://www.apple.com/DTDs/PropertyList-1.0.dtd\">\n",
    );
    let lines_at = write_piece(out, plist_at, b"<plist version=\"1.0\">\n");
    let Ok(end) = put_lines(tape, out, lines_at) else {
        return;
    };
    write_piece(out, end, b"</plist>\n");
}
