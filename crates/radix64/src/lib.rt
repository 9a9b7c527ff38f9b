// Base 64, RFC 4648, padded, put into lent memory from a place on: whole, where it fits, else nothing changes.
#![tactic(auto)]

ghost use Rattle.std.specs.Prelude.{[], ◌∷◌, ◌≡◌, ◌+◌, ◌≤◌, ◌<◌, length};
ghost use Rattle.std.proofs.lemmas.List.Edits.{sets};
ghost use Rattle.digits.specs.Put.{Written, put_end, put_into};
ghost use Rattle.radix64.specs.Base64.{letter_of, base64};

use digits::fits;

// The letters of 0 to 63.
static LETTERS: [u8; 64] = *b"ABCDEFGHIJKLMNOPQRSTUVWXYZabcdefghijklmnopqrstuvwxyz0123456789+/";

// How many letters bytes take.
#[tactic(auto, using(crate::specs::Base64Laws::length_base64))]
pub fn base64_length(s: &[u8]) -> usize
    ensures { result ≡ length (base64 s.now) }
{
    4 * s.len().div_ceil(3)
}

// The letters of bytes.
pub fn put_base64(out: &mut [u8], at: usize, s: &[u8]) -> Option<usize>
    ensures value { result ≡ put_end out.old at (base64 s.now) }
    ensures out_after { out.new ≡ put_into out.old at (base64 s.now) }
{
    if fits(out.len(), at, base64_length(s)) {
        return Some(write_letters(out, at, s));
    }
    None
}

// Four letters for every three bytes, and for one or two behind these, with what is missing. The answer is the place behind them.
fn write_letters(out: &mut [u8], at: usize, s: &[u8]) -> usize
    requires { at + length (base64 s.now) ≤ length out.old }
    ensures { Written out.old at (base64 s.now) out.new result }
{
    let mut to = at;
    let mut left = s;
    while let [a, b, c, rest @ ..] = left {
        put_four(
            out,
            to,
            letter(*a / 4),
            letter(*a % 4 * 16 + *b / 16),
            letter(*b % 16 * 4 + *c / 64),
            letter(*c % 64),
        );
        to += 4;
        left = rest;
    }
    match left {
        [a, b, ..] => {
            put_four(
                out,
                to,
                letter(*a / 4),
                letter(*a % 4 * 16 + *b / 16),
                letter(*b % 16 * 4),
                b'=',
            );
            to + 4
        }
        [a] => {
            put_four(out, to, letter(*a / 4), letter(*a % 4 * 16), b'=', b'=');
            to + 4
        }
        [] => to,
    }
}

fn put_four(out: &mut [u8], at: usize, a: u8, b: u8, c: u8, d: u8)
    requires { at + 4 ≤ length out.old }
    ensures { out.new ≡ sets out.old at (a ∷ b ∷ c ∷ d ∷ []) }
{
    out[at] = a;
    out[at + 1] = b;
    out[at + 2] = c;
    out[at + 3] = d;
}

#[tactic(auto, unfolding(crate::specs::Base64::letter_of, crate::specs::Base64::alphabet))]
fn letter(v: u8) -> u8
    requires { v < 64 }
    ensures { result ≡ letter_of v }
{
    LETTERS[v as usize]
}
