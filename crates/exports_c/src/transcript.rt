// A whole file onto a tape, for C.
ghost use Rattle.std.specs.Prelude.{◌≡◌};
ghost use Rattle.number.specs.BeLaws.{Bytes};
ghost use Rattle.transcribe.specs.Run.{transcript_of};
ghost use Rattle.exports.specs.Transcript.{end_code, end_place, end_marker};

#[unsafe(no_mangle)]
pub extern "C" fn zm_transcribe(
    file: &[u8],
    scratch: &mut [u8],
    tape: &mut [u8],
    budget: u64,
    held: &mut u64,
    place: &mut u64,
    marker: &mut u32,
) -> u32
    ensures value { result ≡ end_code (transcript_of budget file.now scratch.old tape.old).ending }
    ensures held_after { held.new ≡ (transcript_of budget file.now scratch.old tape.old).held }
    ensures place_after { place.new ≡ end_place (transcript_of budget file.now scratch.old tape.old).ending }
    ensures marker_after { marker.new ≡ end_marker (transcript_of budget file.now scratch.old tape.old).ending }
    ensures tape_after { tape.new ≡ (transcript_of budget file.now scratch.old tape.old).tape }
    ensures scratch_after { scratch.new ≡ (transcript_of budget file.now scratch.old tape.old).scratch }
    ensures bytes { Bytes file.now }
{
    exports::transcript::zm_transcribe(file, scratch, tape, budget, held, place, marker)
}
