// A path made of keys, one after another.
ghost use Rattle.std.specs.Prelude.{◌≡◌, ◌+◌, length};
ghost use Rattle.number.specs.Part.{part};
ghost use Rattle.tape.specs.Append.{put_to};
ghost use Rattle.tape.specs.Seven.{seven};
ghost use Rattle.lookup.specs.Append.{grown, added_in, added_of, added_to, Growing};

use crate::path::has_keys;
use number::copy::write_bytes;
use tape::append::Appended;
use tape::room::lacks_room;
use tape::unchecked::put_number;
use tape::value::number_at;

// Why no key is added: the path of one more doesn't fit, or the bytes that are held are no path.
#[derive(Clone, Copy)]
pub enum AddError {
    NoRoom,
    NotPath,
}

// Adds a key to the path in the first `held` bytes; where none are held, a path of this key begins. Answers how many bytes the path has then.
// Otherwise nothing changes.
pub fn append_key(path: &mut [u8], held: usize, key: &[u8]) -> Result<usize, AddError>
    ensures value { result ≡ added_of path.old held key.now }
    ensures path_after { path.new ≡ added_to path.old held key.now }
{
    if held == 0 {
        return grow(path, 0, 0, 0, key);
    }
    if path.len() < held {
        return Err(AddError::NotPath);
    }
    let Some((count, first)) = number_at(&path[..held], 0) else {
        return Err(AddError::NotPath);
    };
    if !has_keys(&path[..held], count, first) {
        return Err(AddError::NotPath);
    }
    grow(path, held, count, first, key)
}

// `count` keys stand from `first` on up to `held`, behind their count. They move up where the new count is longer.
fn grow(
    path: &mut [u8],
    held: usize,
    count: u64,
    first: usize,
    key: &[u8],
) -> Result<usize, AddError>
    requires { Growing path.old held count first }
    ensures value { result ≡ added_in path.old (grown path.old held count first key.now) }
    ensures path_after { path.new ≡ put_to path.old 0 (grown path.old held count first key.now) }
{
    let mut counted = [0u8; 11];
    let mut measured = [0u8; 11];
    let count_end = groups(&mut counted, count + 1);
    let length_end = groups(&mut measured, key.len() as u64);
    let up = count_end - 1 - first;
    let at = held + up;
    let start = at + length_end - 1;
    if lacks_room(path.len(), start, key.len()) {
        return Err(AddError::NoRoom);
    }
    path.copy_within(first..held, first + up);
    write_bytes(path, 0, &counted[1..count_end]);
    write_bytes(path, at, &measured[1..length_end]);
    write_bytes(path, start, key);
    Ok(start + key.len())
}

// The groups of a number behind a byte, as the tape has them behind a kind; and where they end.
fn groups(memory: &mut [u8; 11], n: u64) -> usize
    ensures value { result ≡ 1 + length (seven n) }
    ensures n_after { part memory.new 1 (length (seven n)) ≡ seven n }
{
    match put_number(memory, 0, 0x00, n) {
        Appended::Held(end) => end,
        Appended::BadEvent(_) => 0,
        Appended::NoRoom(_) => 0,
    }
}
