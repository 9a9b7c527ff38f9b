// A file written from a tape, for C.
ghost use Rattle.std.specs.Prelude.{◌≡◌, length, drop};
ghost use Rattle.number.specs.BeLaws.{Bytes};
ghost use Rattle.writer.specs.Write.{write_of, output_of, used_of};
ghost use Rattle.exports.specs.Write.{write_code, write_value, expected_number, found_number};

#[unsafe(no_mangle)]
pub extern "C" fn zm_write(
    tape: &[u8],
    work: &mut [u32],
    out: &mut [u8],
    value: &mut u64,
    expected: &mut u32,
    found: &mut u32,
) -> u32
    ensures value { result ≡ write_code (write_of tape.now (length work.old) (length out.old)) }
    ensures value_after { value.new ≡ write_value (write_of tape.now (length work.old) (length out.old)) }
    ensures expected_after { expected.new ≡ expected_number (write_of tape.now (length work.old) (length out.old)) }
    ensures found_after { found.new ≡ found_number (write_of tape.now (length work.old) (length out.old)) }
    ensures out_after { out.new ≡ output_of tape.now (length work.old) out.old }
    ensures work_unchanged { drop (used_of tape.now (length work.old)) work.new ≡ drop (used_of tape.now (length work.old)) work.old }
    ensures bytes { Bytes tape.now }
{
    exports::write::zm_write(tape, work, out, value, expected, found)
}
