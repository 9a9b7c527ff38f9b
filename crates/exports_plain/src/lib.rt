// What Rust and C link of the plain reader. It is a library of its own: a second function that looks objects up would make `zm_transcribe`
// slower by half in one library with it (docs/DECISIONS.md).
#![tactic(auto)]

ghost use Rattle.std.specs.Prelude.{◌≡◌};
ghost use Rattle.plainly.specs.Plain.{plain_tape};
ghost use Rattle.plainly.specs.Said.{ending_said};
ghost use Rattle.exports_plain.specs.Plain.{end_code, end_place, end_marker};

use plainly::{Ending, read_plainly};
use reader::refusal::{marker_of, number_of};

// Answers how the reading ends: 0 at the file's end, else the refusal's number. `held` is then how many bytes of the tape are held, `place` the
// place of a refusal, `marker` the byte that refusal 10 carries. Where there is none, 0.
#[unsafe(no_mangle)]
pub extern "C" fn zm_read_plainly(
    file: &[u8],
    tape: &mut [u8],
    budget: u64,
    held: &mut u64,
    place: &mut u64,
    marker: &mut u32,
) -> u32
    ensures value { result ≡ end_code (plain_tape budget file.now tape.old).ending }
    ensures held_after { held.new ≡ (plain_tape budget file.now tape.old).held }
    ensures place_after { place.new ≡ end_place (plain_tape budget file.now tape.old).ending }
    ensures marker_after { marker.new ≡ end_marker (plain_tape budget file.now tape.old).ending }
    ensures tape_after { tape.new ≡ (plain_tape budget file.now tape.old).tape }
{
    let reading = read_plainly(file, tape, budget);
    let end = end_of(reading.ending);
    *held = reading.held as u64;
    *place = end.place;
    *marker = end.marker;
    end.code
}

// An ending as numbers: 0 for the file's end, else the refusal's number; its place, and the marker that it carries.
#[derive(Clone, Copy)]
struct End {
    code: u32,
    place: u64,
    marker: u32,
}

#[tactic(auto, unfolding(crate::specs::Computed::ended))]
fn end_of(ending: Ending) -> End
    ensures code { result.code ≡ end_code (ending_said ending) }
    ensures place { result.place ≡ end_place (ending_said ending) }
    ensures marker { result.marker ≡ end_marker (ending_said ending) }
{
    match ending {
        Ending::Ended => plain_end(0, 0),
        Ending::Refused(refusal, place) => End {
            code: number_of(refusal),
            place,
            marker: marker_of(refusal),
        },
        Ending::OverBudget => plain_end(37, 0),
        Ending::NoRoomForTape(place) => plain_end(27, place),
    }
}

// No marker is refused.
fn plain_end(code: u32, place: u64) -> End
    ensures { result ≡ record { code = code; place = place; marker = 0 } }
{
    End {
        code,
        place,
        marker: 0,
    }
}
