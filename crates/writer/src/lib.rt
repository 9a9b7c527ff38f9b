// A binary property list from an event tape.
//
// The lent words are columns of one word for each of the n events (words.rt has their names): column c of event e is the word c * n + e.
// Until REP stands for all events, the words from column 4 to the last are the index by which it is found (find.rt).
#![tactic(auto)]

mod alike;
pub mod answer;
mod assign;
mod collect;
mod find;
mod measure;
mod members;
mod plan;
mod put;
mod words;

ghost use Rattle.std.specs.Prelude.{◌≡◌, ◌*◌, length, drop};
ghost use Rattle.number.specs.BeLaws.{Bytes};
ghost use Rattle.written.specs.File.{file_of};
ghost use Rattle.writer.specs.Ready.{pieces_in};
ghost use Rattle.writer.specs.Write.{written_said, fitted_of, write_of, output_by, output_of, used_of};

use crate::answer::WriteError;
use crate::plan::plan_file;
use crate::put::put_file;
use crate::words::Events;
use event::limits::MAX_LENGTH;
use grammar::answer::Checked;
use grammar::check::check_tape;

// Lent words for each event.
pub const COLUMNS: usize = 8;

// The file of a tape's events at the start of the output, and its length. That the lent tape is bytes, as the machine's are, is said so that what
// holds of every written file needs no such condition.
pub fn write_file(tape: &[u8], work: &mut [u32], out: &mut [u8]) -> Result<usize, WriteError>
    ensures result_value { written_said result ≡ write_of tape.now (length work.old) (length out.old) }
    ensures out_after { out.new ≡ output_of tape.now (length work.old) out.old }
    ensures work_unchanged { drop (used_of tape.now (length work.old)) work.new ≡ drop (used_of tape.now (length work.old)) work.old }
    ensures bytes { Bytes tape.now }
{
    let n = match check_tape(tape) {
        Checked::Refused(refusal, place) => return Err(WriteError::Refused(refusal, place)),
        Checked::Whole(n) => n,
    };
    if work.len() / COLUMNS < n {
        return Err(WriteError::NoRoomForWork);
    }
    let words = n * COLUMNS;
    write_events(Events { tape, n }, &mut work[..words], out)
}

// The same where the tape is one whole root, and there are as many words as it needs.
fn write_events(events: Events, work: &mut [u32], out: &mut [u8]) -> Result<usize, WriteError>
    requires { length work.old ≡ events.n * 8 }
    ensures result_value { written_said result ≡ fitted_of (file_of (pieces_in events.entry.tape.now)) (length out.old) }
    ensures out_after { let file = file_of (pieces_in events.entry.tape.now) in out.new ≡ output_by (fitted_of file (length out.old)) file out.old }
{
    let plan = plan_file(events, work);
    if MAX_LENGTH < plan.length {
        return Err(WriteError::FileTooLong);
    }
    if out.len() < plan.length {
        return Err(WriteError::NoRoomForOutput);
    }
    put_file(events, work, plan, out);
    Ok(plan.length)
}
