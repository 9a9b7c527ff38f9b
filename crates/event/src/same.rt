// Whether two events are the same: integers by value, reals and dates by their bits.
ghost use Rattle.std.specs.Prelude.{[], ◌≡◌, ◌<◌};
ghost use Rattle.event.specs.Meaning.{integer, meaning_of, value_of};
ghost use Rattle.event.specs.Same.{key, key_of, start_key, same};

use crate::real::float_bits;
use crate::{Event, Integer};
use number::signed::magnitude;

// What an event is, the bytes of its data or text apart: a kind, and the number that it carries. The kinds are the tape's.
#[derive(Clone, Copy, PartialEq, Eq)]
pub struct Key {
    pub kind: u8,
    pub number: u64,
}

// Whether two events say the same, the bytes of their data or text apart.
#[tactic(auto, unfolding(crate::specs::Same::same))]
pub fn is_same(a: Event, b: Event) -> bool
    ensures { result ≡ same a b }
{
    key_of(a) == key_of(b)
}

#[tactic(auto, using(crate::proofs::Keys::key_steps), unfolding(crate::specs::Meaning::meaning_of, crate::specs::Same::key_of))]
fn key_of(event: Event) -> Key
    ensures { result ≡ key_of (meaning_of event []) }
{
    match event {
        Event::StartArray(length) => start_key(0x0a, length),
        Event::StartDictionary(length) => start_key(0x0c, length),
        Event::EndCollection => numbered(0x0e, 0),
        Event::Boolean(false) => numbered(0x01, 0),
        Event::Boolean(true) => numbered(0x02, 0),
        Event::Data => numbered(0x08, 0),
        Event::Date(bits) => numbered(0x06, bits),
        Event::Integer(value) => integer_key(value),
        Event::Real(value) => numbered(0x05, float_bits(value)),
        Event::Nan(bits) => numbered(0x05, bits),
        Event::String => numbered(0x09, 0),
        Event::Uid(n) => numbered(0x07, n),
    }
}

fn numbered(kind: u8, number: u64) -> Key
    ensures { result ≡ key kind number }
{
    Key { kind, number }
}

// A negative integer n has the number -1 - n.
#[tactic(auto, using(crate::proofs::Keys::key_steps), unfolding(crate::specs::Meaning::value_of, crate::specs::Same::key_of))]
fn integer_key(value: Integer) -> Key
    ensures { result ≡ key_of (integer (value_of value)) }
{
    match value {
        Integer::Signed(z) if z < 0 => numbered(0x04, magnitude(z)),
        Integer::Signed(z) => numbered(0x03, magnitude(z)),
        Integer::Unsigned(n) => numbered(0x03, n),
    }
}

// A container with its length has the kind after that of one without.
#[tactic(auto, unfolding(crate::specs::Same::start_key))]
fn start_key(kind: u8, length: Option<u64>) -> Key
    requires { kind < 0xff }
    ensures { result ≡ start_key kind length }
{
    match length {
        Some(n) => numbered(kind + 1, n),
        None => numbered(kind, 0),
    }
}
