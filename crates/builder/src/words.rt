// A builder in lent words of 32 bits, for callers to whom no struct can pass.
ghost use Rattle.std.specs.Prelude.{◌≡◌, ◌+◌, ◌≤◌, length};
ghost use Rattle.std.proofs.lemmas.List.Edits.{sets};
ghost use Rattle.builder.specs.Words.{pair_at, pair_of, load_of, store_of, builder_words};

use crate::state::{Builder, OPEN_WORDS};

// How many words hold a builder. All 0 are the empty one, and any are some.
pub const WORDS: usize = 20;

// The constant is what the definition says.
pub fn builder_words() -> usize
    ensures { result ≡ builder_words }
{
    WORDS
}

// The words are the bytes held, what is due, the depth and the bits; a number of 64 bits has its low half first. Fewer words are an empty builder.
#[tactic(auto, unfolding(crate::specs::Words::load_of, crate::specs::Words::builder_in))]
pub fn load(words: &[u32]) -> Builder
    ensures { result ≡ load_of words.now }
{
    if words.len() < WORDS {
        return Builder::EMPTY;
    }
    let held = pair_at(words, 0) as usize;
    let due = words[2];
    let depth = words[3] as usize;
    let mut bits = [0u64; OPEN_WORDS];
    for (i, word) in bits.iter_mut().enumerate() {
        *word = pair_at(words, 4 + 2 * i);
    }
    Builder {
        held,
        due,
        depth,
        bits,
    }
}

// Where the words are too few they stay as they are.
#[tactic(auto, unfolding(crate::specs::Words::store_of))]
pub fn store(words: &mut [u32], builder: Builder)
    ensures { words.new ≡ store_of words.old builder }
{
    if words.len() < WORDS {
        return;
    }
    put_pair(words, 0, builder.held as u64);
    words[2] = builder.due;
    words[3] = (builder.depth % 0x1_0000_0000) as u32;
    for (i, word) in builder.bits.iter().enumerate() {
        put_pair(words, 4 + 2 * i, *word);
    }
}

// A number of 64 bits from two words, the low half first.
#[tactic(auto, unfolding(crate::specs::Words::pair_at))]
fn pair_at(words: &[u32], at: usize) -> u64
    requires { at + 2 ≤ length words.now }
    ensures { result ≡ pair_at words.now at }
{
    words[at + 1] as u64 * 0x1_0000_0000 + words[at] as u64
}

fn put_pair(words: &mut [u32], at: usize, n: u64)
    requires { at + 2 ≤ length words.old }
    ensures { words.new ≡ sets words.old at (pair_of n) }
{
    words[at] = (n % 0x1_0000_0000) as u32;
    words[at + 1] = (n / 0x1_0000_0000) as u32;
}
