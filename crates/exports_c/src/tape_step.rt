// A step along the tape, as numbers, for C.
ghost use Rattle.std.specs.Prelude.{◌≡◌};
ghost use Rattle.tape.specs.Item.{item_at};
ghost use Rattle.number.specs.BeLaws.{Bytes};
ghost use Rattle.exports.specs.Codes.{Lent};
ghost use Rattle.exports.specs.TapeStep.{next_number, value_number, start_number, bytes_number};

#[unsafe(no_mangle)]
pub extern "C" fn zm_tape_step(
    tape: &[u8],
    at: usize,
    value: &mut u64,
    start: &mut u64,
    length: &mut u64,
) -> u64
    ensures value { result ≡ next_number (item_at tape.now at) }
    ensures value_after { value.new ≡ value_number (item_at tape.now at) }
    ensures start_after { start.new ≡ start_number (item_at tape.now at) }
    ensures length_after { length.new ≡ bytes_number (item_at tape.now at) }
    ensures bytes { (Bytes tape.now) × (Lent tape.now) }
{
    exports::tape_step::zm_tape_step(tape, at, value, start, length)
}
