// The part of a tape that holds the value under a path.
ghost use Rattle.std.specs.Prelude.{true, ◌≡◌};
ghost use Rattle.number.specs.BeLaws.{Bytes};
ghost use Rattle.tape.specs.Events.{meanings_in};
ghost use Rattle.lookup.specs.Find.{found_said, part_said, by_path, find_of, part_of};
ghost use Rattle.lookup.specs.Path.{is_some, keys_of, keys_from};
ghost use Rattle.lookup.specs.Rest.{Rest};

use crate::answer::{FindError, Part};
use crate::path::{has_keys, key_at};
use crate::seek::{value_end, value_under};
use grammar::answer::Checked;
use grammar::check::check_tape;
use tape::value::number_at;

// Where the value's part of the tape is, or that there is no such value. The tape is checked first, then the path. That the tape is bytes only
// code knows, and what is proved of the part asks for it.
pub fn find(tape: &[u8], path: &[u8]) -> Result<Option<Part>, FindError>
    ensures result_value { found_said result ≡ find_of tape.now path.now }
    ensures bytes { Bytes tape.now }
{
    match check_tape(tape) {
        Checked::Refused(refusal, place) => Err(FindError::Refused(refusal, place)),
        Checked::Whole(_) => find_in(tape, path),
    }
}

// The part itself; of what isn't found, and of what is refused, an empty one.
pub fn find_part<'a>(tape: &'a [u8], path: &[u8]) -> &'a [u8]
    ensures { result.now ≡ part_of tape.now path.now }
{
    match find(tape, path) {
        Ok(Some(part)) => {
            let end = part.start + part.length;
            &tape[part.start..end]
        }
        Ok(None) => &tape[..0],
        Err(_) => &tape[..0],
    }
}

// The same in a tape that is one whole root.
fn find_in(tape: &[u8], path: &[u8]) -> Result<Option<Part>, FindError>
    requires { Rest tape.now 0 (meanings_in tape.now) }
    ensures { found_said result ≡ by_path tape.now (keys_of path.now) (meanings_in tape.now) }
{
    let Some((count, first)) = number_at(path, 0) else {
        return Err(FindError::BadPath);
    };
    if !has_keys(path, count, first) {
        return Err(FindError::BadPath);
    }
    Ok(find_under(tape, path, count, first))
}

// The path has its keys. The next one stands at `next`; the value under those before it begins at `at`.
fn find_under(tape: &[u8], path: &[u8], count: u64, first: usize) -> Option<Part>
    requires { Rest tape.now 0 (meanings_in tape.now) × (is_some (keys_from count path.now first) ≡ true) }
    ensures { part_said result ≡ by_path tape.now (keys_from count path.now first) (meanings_in tape.now) }
{
    let mut next = first;
    let mut at = 0;
    for _ in 0..count {
        let key = key_at(path, next)?;
        next = key.start + key.length;
        at = value_under(tape, at, &path[key.start..next])?;
    }
    let length = value_end(tape, at) - at;
    Some(Part { start: at, length })
}
