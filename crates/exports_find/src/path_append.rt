// A path made of keys, with the answer as one number.
ghost use Rattle.std.specs.Prelude.{◌≡◌};
ghost use Rattle.lookup.specs.Append.{added_of, added_to};
ghost use Rattle.exports.specs.Codes.{Lent};
ghost use Rattle.exports_find.specs.PathAppend.{added_number};

use lookup::append::{AddError, append_key};

// Adds a key to the path in the first `held` bytes; where none are held, a path of this key begins. Answers how many bytes are held then; 2^64 - 1
// where the held bytes are no path, 2^64 - 2 where the path doesn't fit. Then nothing changes.
#[unsafe(no_mangle)]
pub extern "C" fn zm_path_append(path: &mut [u8], held: usize, key: &[u8]) -> u64
    ensures value { result ≡ added_number (added_of path.old held key.now) }
    ensures path_after { path.new ≡ added_to path.old held key.now }
    ensures lent { Lent path.old }
{
    added_number(append_key(path, held, key))
}

#[tactic(auto, unfolding(crate::specs::PathAppend::added_number))]
fn added_number(added: Result<usize, AddError>) -> u64
    ensures { result ≡ added_number added }
{
    match added {
        Ok(n) => n as u64,
        Err(AddError::NoRoom) => 0xffff_ffff_ffff_fffe,
        Err(AddError::NotPath) => 0xffff_ffff_ffff_ffff,
    }
}
