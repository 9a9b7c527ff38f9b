// What a builder keeps between calls: numbers alone.
ghost use Rattle.std.specs.Prelude.{◌≡◌};
ghost use Rattle.builder.specs.State.{open_words, empty_builder, due_of, pushed_of, behind_of};

use grammar::turn::Due;

// The words of 64 bits that have a bit for each container that may be open.
pub const OPEN_WORDS: usize = 8;

// The constant is what the definition says.
pub fn open_words() -> usize
    ensures { result ≡ open_words }
{
    OPEN_WORDS
}

// How many bytes are held; what is due behind them (due_of); how many containers are open; and a bit for each: whether a dictionary's key is
// due behind it. Each word is a stack of 64 bits, the last one lowest. Behind the outermost container nothing is due, whatever its bit.
#[derive(Clone, Copy)]
pub struct Builder {
    pub held: usize,
    pub due: u32,
    pub depth: usize,
    pub bits: [u64; OPEN_WORDS],
}

impl Builder {
    // Nothing is held, and the root is due.
    pub const EMPTY: Builder = Builder {
        held: 0,
        due: 0,
        depth: 0,
        bits: [0u64; OPEN_WORDS],
    };

    // The constant is what the definition says.
    pub fn empty() -> Builder
        ensures { result ≡ empty_builder }
    {
        Builder::EMPTY
    }
}

// What a number says is due; any that is none of these is nothing. The way back is `as`.
// Kept: `Due` and `u32` are both of other crates, and an `impl From` of one for the other can only stand in theirs.
#[tactic(auto, unfolding(crate::specs::State::due_of))]
pub(crate) fn due_of(code: u32) -> Due
    ensures { result ≡ due_of code }
{
    match code {
        0 => Due::Root,
        1 => Due::Element,
        2 => Due::Key,
        3 => Due::Value,
        _ => Due::Nothing,
    }
}

// A word with one bit more: whether a key is due behind the container.
#[tactic(auto, unfolding(crate::specs::State::bit_of, crate::specs::State::pushed_of))]
pub(crate) fn pushed(word: u64, due: Due) -> u64
    ensures { result ≡ pushed_of word due }
{
    word % 0x8000_0000_0000_0000 * 2 + u64::from(matches!(due, Due::Key))
}

// What is due behind the innermost container, as a number: by its word, where so many are open around it.
#[tactic(auto, unfolding(crate::specs::State::behind_of))]
pub(crate) fn behind(word: u64, outer: usize) -> u32
    ensures { result ≡ behind_of word outer }
{
    if outer == 0 {
        return 4;
    }
    1 + (word % 2) as u32
}
