// An event appended to the tape, from numbers, for C.
ghost use Rattle.std.specs.Prelude.{◌≡◌};
ghost use Rattle.exports.specs.Codes.{Lent};
ghost use Rattle.exports.specs.TapeAppend.{meaning_for, append_number, appended_tape};

#[unsafe(no_mangle)]
pub extern "C" fn zm_tape_append(
    tape: &mut [u8],
    held: usize,
    kind: u32,
    value: u64,
    bytes: &[u8],
) -> u64
    ensures value { result ≡ append_number tape.old held (meaning_for kind value bytes.now) }
    ensures tape_after { tape.new ≡ appended_tape tape.old held (meaning_for kind value bytes.now) }
    ensures lent { Lent tape.old }
{
    exports::tape_append::zm_tape_append(tape, held, kind, value, bytes)
}
