// An event appended to the tape, from numbers.
ghost use Rattle.std.specs.Prelude.{List, ◌≡◌, ℕ};
ghost use Rattle.number.specs.Signed.{negative_of};
ghost use Rattle.tape.specs.Append.{said};
ghost use Rattle.exports.specs.Codes.{Lent};
ghost use Rattle.exports.specs.TapeAppend.{meaning_for, negative_for, chosen_meaning, held_number, append_number, appended_tape};

use event::real::real_of;
use event::{Event, Integer};
use number::signed::negative_of;
use tape::append::{Appended, append};

// Appends the event of a kind, which is a number of the tape's own: `value` is the number behind the kind, `bytes` are those of data or text.
// Answers how many bytes are held then; 2^64 - 1 where text isn't UTF-8 or a date isn't finite, 2^64 - 2 where the event doesn't fit,
// 2^64 - 3 where the kind is none, or a negative integer is too low. Where nothing is appended the tape is as it was.
#[unsafe(no_mangle)]
pub extern "C" fn zm_tape_append(
    tape: &mut [u8],
    held: usize,
    kind: u32,
    value: u64,
    bytes: &[u8],
) -> u64
    ensures value { result ≡ append_number tape.old held (meaning_for kind value bytes.now) }
    ensures tape_after { tape.new ≡ appended_tape tape.old held (meaning_for kind value bytes.now) }
    ensures lent { Lent tape.old }
{
    let Some(event) = event_for(kind, value) else {
        return 0xffff_ffff_ffff_fffd;
    };
    held_number(append(tape, held, event, bytes))
}

// The event of a kind and a number, where there is one.
#[tactic(auto, unfolding(crate::specs::Computed::chosen))]
pub fn event_for(kind: u32, value: u64) -> Option<Event>
    ensures { (s : List ℕ) → chosen_meaning result s ≡ meaning_for kind value s }
{
    match kind {
        0x01 => Some(Event::Boolean(false)),
        0x02 => Some(Event::Boolean(true)),
        0x03 => Some(Event::Integer(Integer::Unsigned(value))),
        0x04 => negative_for(value),
        0x05 => Some(real_of(value)),
        0x06 => Some(Event::Date(value)),
        0x07 => Some(Event::Uid(value)),
        0x08 => Some(Event::Data),
        0x09 => Some(Event::String),
        0x0a => Some(Event::StartArray(None)),
        0x0b => Some(Event::StartArray(Some(value))),
        0x0c => Some(Event::StartDictionary(None)),
        0x0d => Some(Event::StartDictionary(Some(value))),
        0x0e => Some(Event::EndCollection),
        _ => None,
    }
}

// -1 - n, where an i64 holds it.
fn negative_for(n: u64) -> Option<Event>
    ensures { (s : List ℕ) → chosen_meaning result s ≡ negative_for (negative_of n) }
{
    let z = negative_of(n)?;
    Some(Event::Integer(Integer::Signed(z)))
}

// The answer as one number.
#[tactic(auto, unfolding(crate::specs::TapeAppend::held_number, tape::specs::Append::said))]
fn held_number(appended: Appended) -> u64
    ensures { result ≡ held_number (said appended) }
{
    match appended {
        Appended::Held(n) => n as u64,
        Appended::BadEvent(_) => 0xffff_ffff_ffff_ffff,
        Appended::NoRoom(_) => 0xffff_ffff_ffff_fffe,
    }
}
