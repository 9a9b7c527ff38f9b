// A path made of keys, for C.
ghost use Rattle.std.specs.Prelude.{◌≡◌};
ghost use Rattle.lookup.specs.Append.{added_of, added_to};
ghost use Rattle.exports.specs.Codes.{Lent};
ghost use Rattle.exports_find.specs.PathAppend.{added_number};

#[unsafe(no_mangle)]
pub extern "C" fn zm_path_append(path: &mut [u8], held: usize, key: &[u8]) -> u64
    ensures value { result ≡ added_number (added_of path.old held key.now) }
    ensures path_after { path.new ≡ added_to path.old held key.now }
    ensures lent { Lent path.old }
{
    exports_find::path_append::zm_path_append(path, held, key)
}
