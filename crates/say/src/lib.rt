// The reader's answers as lines, put to a writer, and the listing of a whole file. What the lent memories hold afterwards is promised of each
// function here, whether the writer takes the line or fails; and of a writer that tells what it holds, that it holds the line then.
#![tactic(auto)]

pub mod list;

ghost use Rattle.std.specs.Prelude.{false, ◌≡◌, OnOk};
ghost use Rattle.std.specs.Io.KnownBytes.{Appends};
ghost use Rattle.digits.specs.Put.{put_end, put_into};
ghost use Rattle.line.specs.Line.{refusal_line};
ghost use Rattle.line.specs.Put.{fixed_line};
ghost use Rattle.reader.specs.Request.{asked_of, scratch_after};
ghost use Rattle.say.specs.Say.{mark_for, filled_line, record_line, answer_line, answer_scratch, printed, printed_line};

use line::piece::Origin;
use line::put::{Fixed, put_event, put_fixed, put_refusal};
use reader::answer::{Answer, Record};
use reader::refusal::number_of;
use reader::request::{text_length, text_part};
use std::io;
use std::io::Write;

#[tactic(auto, unfolding(crate::specs::Say::answer_line, crate::specs::Say::answer_scratch))]
pub fn say_answer<W: Write>(
    to: &mut W,
    file: &[u8],
    scratch: &mut [u8],
    out: &mut [u8],
    answer: Answer,
) -> io::Result<()>
    ensures scratch_after { scratch.new ≡ answer_scratch file.now scratch.old answer }
    ensures out_after { out.new ≡ put_into out.old 0 (answer_line file.now scratch.old answer) }
    ensures written { OnOk result (Appends (W.contents to.old) (W.contents to.new) (printed_line out.old (answer_line file.now scratch.old answer))) }
{
    match answer {
        Answer::Handed(handed) => say_event(to, file, scratch, out, handed),
        Answer::Ended => say_fixed(to, out, Fixed::End),
        Answer::Refused(refusal, place) => say_refusal(to, out, number_of(refusal) as u64, place),
    }
}

#[tactic(auto, using(crate::proofs::Printed::printed_put))]
pub fn say_event<W: Write>(
    to: &mut W,
    file: &[u8],
    scratch: &mut [u8],
    out: &mut [u8],
    handed: Record,
) -> io::Result<()>
    ensures scratch_after { scratch.new ≡ scratch_after file.now scratch.old (asked_of file.now handed) }
    ensures out_after { out.new ≡ put_into out.old 0 (record_line false file.now scratch.old handed) }
    ensures written { OnOk result (Appends (W.contents to.old) (W.contents to.new) (printed_line out.old (record_line false file.now scratch.old handed))) }
{
    let put = put_record(file, scratch, out, handed, false);
    say_put(to, out, put)
}

// The line of a record, at the start of the memory, in a trace or in a listing. Its bytes are asked for first; there are none where the request is
// refused.
#[tactic(auto, unfolding(crate::specs::Say::record_line))]
pub fn put_record(
    file: &[u8],
    scratch: &mut [u8],
    out: &mut [u8],
    handed: Record,
    traced: bool,
) -> Option<usize>
    ensures value { result ≡ put_end out.old 0 (record_line traced file.now scratch.old handed) }
    ensures scratch_after { scratch.new ≡ scratch_after file.now scratch.old (asked_of file.now handed) }
    ensures out_after { out.new ≡ put_into out.old 0 (record_line traced file.now scratch.old handed) }
{
    text_length(file, scratch, handed);
    put_filled(file, scratch, out, handed, traced)
}

// The line of a record whose bytes have been asked for.
#[tactic(auto, unfolding(crate::specs::Say::filled_line))]
pub(crate) fn put_filled<'a>(
    file: &'a [u8],
    scratch: &'a [u8],
    out: &mut [u8],
    handed: Record,
    traced: bool,
) -> Option<usize>
    ensures value { result ≡ put_end out.old 0 (filled_line traced file.now scratch.now handed) }
    ensures out_after { out.new ≡ put_into out.old 0 (filled_line traced file.now scratch.now handed) }
{
    let event = handed.event;
    let mark = mark_of(handed, traced);
    put_event(out, 0, event, text_part(file, scratch, handed), mark)
}

#[tactic(auto, unfolding(crate::specs::Say::mark_for))]
fn mark_of(handed: Record, traced: bool) -> Option<Origin>
    ensures { result ≡ mark_for traced handed }
{
    let number = handed.number as u64;
    let offset = handed.offset;
    traced.then_some(Origin { number, offset })
}

#[tactic(auto, using(crate::proofs::Printed::printed_put))]
pub fn say_fixed<W: Write>(to: &mut W, out: &mut [u8], fixed: Fixed) -> io::Result<()>
    ensures out_after { out.new ≡ put_into out.old 0 (fixed_line fixed) }
    ensures written { OnOk result (Appends (W.contents to.old) (W.contents to.new) (printed_line out.old (fixed_line fixed))) }
{
    let put = put_fixed(out, 0, fixed);
    say_put(to, out, put)
}

#[tactic(auto, using(crate::proofs::Printed::printed_put))]
pub fn say_refusal<W: Write>(to: &mut W, out: &mut [u8], number: u64, place: u64) -> io::Result<()>
    ensures out_after { out.new ≡ put_into out.old 0 (refusal_line number place) }
    ensures written { OnOk result (Appends (W.contents to.old) (W.contents to.new) (printed_line out.old (refusal_line number place))) }
{
    let put = put_refusal(out, 0, number, place);
    say_put(to, out, put)
}

// Puts the line at the start of the memory to the writer.
#[tactic(auto, unfolding(crate::specs::Say::printed))]
pub fn say_put<W: Write>(to: &mut W, out: &[u8], put: Option<usize>) -> io::Result<()>
    ensures { OnOk result (Appends (W.contents to.old) (W.contents to.new) (printed out.now put)) }
{
    match put {
        Some(end) if end <= out.len() => to.write_all(&out[..end]),
        Some(_) => Ok(()),
        None => to.write_all(b"no room\n"),
    }
}
