// Text, for C. A slice passes as a pointer, then a length.
ghost use Rattle.std.specs.Prelude.{◌≡◌};
ghost use Rattle.utf.specs.Unicode.{is_utf8, is_utf16, is_ascii, to_utf8, to_utf16};
ghost use Rattle.utf.specs.Changed.{changed_of, changed_to};
ghost use Rattle.exports.specs.Codes.{code_of, InSlice};

#[unsafe(no_mangle)]
pub extern "C" fn zm_is_utf8(s: &[u8]) -> bool
    ensures { result ≡ is_utf8 s.now }
{
    exports::text::zm_is_utf8(s)
}

#[unsafe(no_mangle)]
pub extern "C" fn zm_is_utf16(s: &[u8]) -> bool
    ensures { result ≡ is_utf16 s.now }
{
    exports::text::zm_is_utf16(s)
}

#[unsafe(no_mangle)]
pub extern "C" fn zm_is_ascii(s: &[u8]) -> bool
    ensures { result ≡ is_ascii s.now }
{
    exports::text::zm_is_ascii(s)
}

#[unsafe(no_mangle)]
pub extern "C" fn zm_utf16_to_utf8(s: &[u8], out: &mut [u8]) -> u64
    ensures value { result ≡ code_of (changed_of (is_utf16 s.now) (to_utf8 s.now) out.old) }
    ensures out_after { out.new ≡ changed_to (is_utf16 s.now) (to_utf8 s.now) out.old }
    ensures in_slice { InSlice (changed_of (is_utf16 s.now) (to_utf8 s.now) out.old) }
{
    exports::text::zm_utf16_to_utf8(s, out)
}

#[unsafe(no_mangle)]
pub extern "C" fn zm_utf8_to_utf16(s: &[u8], out: &mut [u8]) -> u64
    ensures value { result ≡ code_of (changed_of (is_utf8 s.now) (to_utf16 s.now) out.old) }
    ensures out_after { out.new ≡ changed_to (is_utf8 s.now) (to_utf16 s.now) out.old }
    ensures in_slice { InSlice (changed_of (is_utf8 s.now) (to_utf16 s.now) out.old) }
{
    exports::text::zm_utf8_to_utf16(s, out)
}
