// A tape built call by call, and its file, for C.
ghost use Rattle.std.specs.Prelude.{◌≡◌, length, drop};
ghost use Rattle.exports_build.specs.Build.{begin_code, begun_words, numbers_by, written_numbers, call_of, called_words, called_tape, finish_call, finished_output, finished_used, Handed};
ghost use Rattle.exports.specs.TapeAppend.{meaning_for};

#[unsafe(no_mangle)]
pub extern "C" fn zm_build_begin(builder: &mut [u32]) -> u32
    ensures value { result ≡ begin_code builder.old }
    ensures builder_after { builder.new ≡ begun_words builder.old }
{
    exports_build::build::zm_build_begin(builder)
}

#[unsafe(no_mangle)]
pub extern "C" fn zm_build(
    builder: &mut [u32],
    tape: &mut [u8],
    kind: u32,
    value: u64,
    bytes: &[u8],
    place: &mut u64,
    expected: &mut u32,
    found: &mut u32,
) -> u32
    ensures value { result ≡ (numbers_by (call_of builder.old (length tape.old) (meaning_for kind value bytes.now))).code }
    ensures place_after { place.new ≡ (numbers_by (call_of builder.old (length tape.old) (meaning_for kind value bytes.now))).place }
    ensures expected_after { expected.new ≡ (numbers_by (call_of builder.old (length tape.old) (meaning_for kind value bytes.now))).expected }
    ensures found_after { found.new ≡ (numbers_by (call_of builder.old (length tape.old) (meaning_for kind value bytes.now))).found }
    ensures builder_after { builder.new ≡ called_words builder.old (length tape.old) (meaning_for kind value bytes.now) }
    ensures tape_after { tape.new ≡ called_tape builder.old tape.old (meaning_for kind value bytes.now) }
    ensures handed { Handed tape.old (meaning_for kind value bytes.now) }
{
    exports_build::build::zm_build(builder, tape, kind, value, bytes, place, expected, found)
}

#[unsafe(no_mangle)]
pub extern "C" fn zm_build_finish(
    builder: &[u32],
    tape: &[u8],
    work: &mut [u32],
    out: &mut [u8],
    value: &mut u64,
    expected: &mut u32,
    found: &mut u32,
) -> u32
    ensures value { result ≡ (written_numbers (finish_call builder.now tape.now (length work.old) (length out.old))).code }
    ensures value_after { value.new ≡ (written_numbers (finish_call builder.now tape.now (length work.old) (length out.old))).place }
    ensures expected_after { expected.new ≡ (written_numbers (finish_call builder.now tape.now (length work.old) (length out.old))).expected }
    ensures found_after { found.new ≡ (written_numbers (finish_call builder.now tape.now (length work.old) (length out.old))).found }
    ensures out_after { out.new ≡ finished_output builder.now tape.now (length work.old) out.old }
    ensures work_unchanged { drop (finished_used builder.now tape.now (length work.old)) work.new ≡ drop (finished_used builder.now tape.now (length work.old)) work.old }
{
    exports_build::build::zm_build_finish(builder, tape, work, out, value, expected, found)
}
