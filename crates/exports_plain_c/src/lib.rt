// What C links of the plain reader: the function is the one of its name in the crate `exports_plain`, under the same promise. It is a library
// of its own, as that is.
#![tactic(auto)]

ghost use Rattle.std.specs.Prelude.{◌≡◌};
ghost use Rattle.plainly.specs.Plain.{plain_tape};
ghost use Rattle.exports_plain.specs.Plain.{end_code, end_place, end_marker};

#[unsafe(no_mangle)]
pub extern "C" fn zm_read_plainly(
    file: &[u8],
    tape: &mut [u8],
    budget: u64,
    held: &mut u64,
    place: &mut u64,
    marker: &mut u32,
) -> u32
    ensures value { result ≡ end_code (plain_tape budget file.now tape.old).ending }
    ensures held_after { held.new ≡ (plain_tape budget file.now tape.old).held }
    ensures place_after { place.new ≡ end_place (plain_tape budget file.now tape.old).ending }
    ensures marker_after { marker.new ≡ end_marker (plain_tape budget file.now tape.old).ending }
    ensures tape_after { tape.new ≡ (plain_tape budget file.now tape.old).tape }
{
    exports_plain::zm_read_plainly(file, tape, budget, held, place, marker)
}
