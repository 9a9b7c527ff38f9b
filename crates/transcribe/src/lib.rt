// A whole file onto a tape: what a fresh reader answers to its end, every event appended.
#![tactic(auto)]

mod note;
mod walk;

ghost use Rattle.std.specs.Prelude.{◌≡◌};
ghost use Rattle.number.specs.BeLaws.{Bytes};
ghost use Rattle.transcribe.specs.Run.{run, transcript_of};
ghost use Rattle.transcribe.specs.Said.{end_said, walked_said};

use crate::note::Failure;
use crate::walk::{End, walk};
use layout::trailer::{TrailerRead, trailer_of};
use reader::refusal::Refusal;

// How a transcript ends: at the file's end, with the budget used up, or by a refusal of the reader, the text request or the tape.
#[derive(Clone, Copy)]
pub enum Ending {
    Ended,
    Stopped,
    Refused(Refusal, u64),
    NoRoomForTape(u64),
}

// The ending, and how many bytes of the tape are held.
#[derive(Clone, Copy)]
pub struct Transcript {
    pub ending: Ending,
    pub held: usize,
}

// Reads at most so many events of a file and appends them to the tape from its start on. That the lent file is bytes, as the machine's are, is
// said so that what holds of every transcript needs no such condition.
pub fn transcribe(file: &[u8], scratch: &mut [u8], tape: &mut [u8], budget: u64) -> Transcript
    ensures scratch_after { run (end_said result.ending) result.held tape.new scratch.new ≡ transcript_of budget file.now scratch.old tape.old }
    ensures bytes { Bytes file.now }
{
    let mut held = 0;
    let ending = ending_of(read(file, scratch, tape, &mut held, budget));
    Transcript { ending, held }
}

// The same behind the bytes that are held.
fn read(
    file: &[u8],
    scratch: &mut [u8],
    tape: &mut [u8],
    held: &mut usize,
    budget: u64,
) -> Result<End, Failure>
    requires { held.old ≡ 0 }
    ensures { run (walked_said result) held.new tape.new scratch.new ≡ transcript_of budget file.now scratch.old tape.old }
{
    if budget == 0 {
        return Ok(End::Stopped);
    }
    match trailer_of(file) {
        TrailerRead::Keeps(refusal, place) => Err(Failure::Refused(Refusal::File(refusal), place)),
        TrailerRead::Ends(refusal, place) => Err(Failure::Refused(Refusal::File(refusal), place)),
        TrailerRead::Lays(layout, root) => walk(file, scratch, tape, held, budget, layout, root),
    }
}

#[tactic(auto, unfolding(crate::specs::Said::end_said, crate::specs::Said::walked_said))]
fn ending_of(walked: Result<End, Failure>) -> Ending
    ensures { end_said result ≡ walked_said walked }
{
    match walked {
        Ok(End::Ended) => Ending::Ended,
        Ok(End::Stopped) => Ending::Stopped,
        Err(Failure::Refused(refusal, place)) => Ending::Refused(refusal, place),
        Err(Failure::NoRoomForTape(place)) => Ending::NoRoomForTape(place),
    }
}
