// A tape as XML, for C.
ghost use Rattle.std.specs.Prelude.{◌≡◌, length};
ghost use Rattle.number.specs.BeLaws.{Bytes};
ghost use Rattle.xml.specs.Write.{measured_of, answer_of, output_of};
ghost use Rattle.exports.specs.Write.{write_code, write_value, expected_number, found_number};
ghost use Rattle.exports_xml.specs.Xml.{as_written};

#[unsafe(no_mangle)]
pub extern "C" fn zm_xml(
    tape: &[u8],
    out: &mut [u8],
    value: &mut u64,
    expected: &mut u32,
    found: &mut u32,
) -> u32
    ensures value { result ≡ write_code (as_written (answer_of tape.now (length out.old))) }
    ensures value_after { value.new ≡ write_value (as_written (answer_of tape.now (length out.old))) }
    ensures expected_after { expected.new ≡ expected_number (as_written (answer_of tape.now (length out.old))) }
    ensures found_after { found.new ≡ found_number (as_written (answer_of tape.now (length out.old))) }
    ensures out_after { out.new ≡ output_of tape.now out.old }
    ensures bytes { Bytes tape.now }
{
    exports_xml::as_xml::zm_xml(tape, out, value, expected, found)
}

#[unsafe(no_mangle)]
pub extern "C" fn zm_xml_length(
    tape: &[u8],
    value: &mut u64,
    expected: &mut u32,
    found: &mut u32,
) -> u32
    ensures value { result ≡ write_code (as_written (measured_of tape.now)) }
    ensures value_after { value.new ≡ write_value (as_written (measured_of tape.now)) }
    ensures expected_after { expected.new ≡ expected_number (as_written (measured_of tape.now)) }
    ensures found_after { found.new ≡ found_number (as_written (measured_of tape.now)) }
{
    exports_xml::as_xml::zm_xml_length(tape, value, expected, found)
}
