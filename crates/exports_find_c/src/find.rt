// The value under a path, for C.
ghost use Rattle.std.specs.Prelude.{◌≡◌};
ghost use Rattle.number.specs.BeLaws.{Bytes};
ghost use Rattle.lookup.specs.Find.{find_of};
ghost use Rattle.exports_find.specs.Find.{find_code, find_start, find_length, find_expected, find_found};

#[unsafe(no_mangle)]
pub extern "C" fn zm_find(
    tape: &[u8],
    path: &[u8],
    start: &mut u64,
    length: &mut u64,
    expected: &mut u32,
    found: &mut u32,
) -> u32
    ensures value { result ≡ find_code (find_of tape.now path.now) }
    ensures start_after { start.new ≡ find_start (find_of tape.now path.now) }
    ensures length_after { length.new ≡ find_length (find_of tape.now path.now) }
    ensures expected_after { expected.new ≡ find_expected (find_of tape.now path.now) }
    ensures found_after { found.new ≡ find_found (find_of tape.now path.now) }
    ensures bytes { Bytes tape.now }
{
    exports_find::find::zm_find(tape, path, start, length, expected, found)
}
