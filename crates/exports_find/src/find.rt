// The value under a path, with the answer as numbers.
ghost use Rattle.std.specs.Prelude.{◌≡◌};
ghost use Rattle.number.specs.BeLaws.{Bytes};
ghost use Rattle.lookup.specs.Find.{found_said, find_of};
ghost use Rattle.exports_find.specs.Find.{find_code, find_start, find_length, find_expected, find_found};

use exports::numbers::Numbers;
use lookup::answer::{FindError, Part};
use lookup::find::find;

// Answers 0, and where the part begins and how long it is; 254, and twice 0, where there is no such value; or a refusal's number, with its
// place in `start`. `expected` and `found` are the numbers of the kinds of events that 21 names, else 0.
#[unsafe(no_mangle)]
pub extern "C" fn zm_find(
    tape: &[u8],
    path: &[u8],
    start: &mut u64,
    length: &mut u64,
    expected: &mut u32,
    found: &mut u32,
) -> u32
    ensures value { result ≡ find_code (find_of tape.now path.now) }
    ensures start_after { start.new ≡ find_start (find_of tape.now path.now) }
    ensures length_after { length.new ≡ find_length (find_of tape.now path.now) }
    ensures expected_after { expected.new ≡ find_expected (find_of tape.now path.now) }
    ensures found_after { found.new ≡ find_found (find_of tape.now path.now) }
    ensures bytes { Bytes tape.now }
{
    let (numbers, n) = found_numbers(find(tape, path));
    *start = numbers.place;
    *length = n;
    *expected = numbers.expected;
    *found = numbers.found;
    numbers.code
}

// With the length of the part that is found.
#[tactic(auto, unfolding(crate::specs::Computed::found))]
fn found_numbers(answer: Result<Option<Part>, FindError>) -> (Numbers, u64)
    ensures code { result.0.code ≡ find_code (found_said answer) }
    ensures start { result.0.place ≡ find_start (found_said answer) }
    ensures length { result.1 ≡ find_length (found_said answer) }
    ensures expected { result.0.expected ≡ find_expected (found_said answer) }
    ensures found { result.0.found ≡ find_found (found_said answer) }
{
    match answer {
        Ok(Some(part)) => (Numbers::plain(0, part.start as u64), part.length as u64),
        Ok(None) => (Numbers::plain(254, 0), 0),
        Err(FindError::Refused(refusal, place)) => (Numbers::refused(refusal, place), 0),
        Err(FindError::BadPath) => (Numbers::plain(33, 0), 0),
    }
}
