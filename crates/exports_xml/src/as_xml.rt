// XML from a tape, with the answer as numbers.
ghost use Rattle.std.specs.Prelude.{◌≡◌, length};
ghost use Rattle.number.specs.BeLaws.{Bytes};
ghost use Rattle.xml.specs.Said.{answer_said};
ghost use Rattle.xml.specs.Write.{measured_of, answer_of, output_of};
ghost use Rattle.exports.specs.Write.{write_code, write_value, expected_number, found_number, written_numbers};
ghost use Rattle.exports_xml.specs.Xml.{as_written};

use exports::numbers::Numbers;
use xml::answer::{Answer, bar_number};
use xml::{measure_xml, write_xml};

// Answers 0 and the XML's length in `value`; or a refusal's number, with its place in `value`. `expected` and `found` are the numbers of the
// kinds of events that 21 names, else 0.
#[unsafe(no_mangle)]
pub extern "C" fn zm_xml(
    tape: &[u8],
    out: &mut [u8],
    value: &mut u64,
    expected: &mut u32,
    found: &mut u32,
) -> u32
    ensures value { result ≡ write_code (as_written (answer_of tape.now (length out.old))) }
    ensures value_after { value.new ≡ write_value (as_written (answer_of tape.now (length out.old))) }
    ensures expected_after { expected.new ≡ expected_number (as_written (answer_of tape.now (length out.old))) }
    ensures found_after { found.new ≡ found_number (as_written (answer_of tape.now (length out.old))) }
    ensures out_after { out.new ≡ output_of tape.now out.old }
    ensures bytes { Bytes tape.now }
{
    let numbers = numbers_of(write_xml(tape, out));
    *value = numbers.place;
    *expected = numbers.expected;
    *found = numbers.found;
    numbers.code
}

// The same answer as with an output that is long enough, and no output.
#[unsafe(no_mangle)]
pub extern "C" fn zm_xml_length(
    tape: &[u8],
    value: &mut u64,
    expected: &mut u32,
    found: &mut u32,
) -> u32
    ensures value { result ≡ write_code (as_written (measured_of tape.now)) }
    ensures value_after { value.new ≡ write_value (as_written (measured_of tape.now)) }
    ensures expected_after { expected.new ≡ expected_number (as_written (measured_of tape.now)) }
    ensures found_after { found.new ≡ found_number (as_written (measured_of tape.now)) }
{
    let numbers = numbers_of(measure_xml(tape));
    *value = numbers.place;
    *expected = numbers.expected;
    *found = numbers.found;
    numbers.code
}

#[tactic(auto, unfolding(crate::specs::Computed::answered))]
fn numbers_of(answer: Answer) -> Numbers
    ensures { result ≡ written_numbers (as_written (answer_said answer)) }
{
    match answer {
        Answer::Length(n) => Numbers::plain(0, n as u64),
        Answer::Refused(refusal, place) => Numbers::refused(refusal, place),
        Answer::Barred(bar, place) => Numbers::plain(bar_number(bar), place),
        Answer::NoRoom => Numbers::plain(25, 0),
    }
}
