// What the reader and the writer both go by. Each number stands here and in specs/Format.antt, and nowhere else.
ghost use Rattle.std.specs.Prelude.{◌≡◌};
ghost use Rattle.event.specs.Format.{max_length, max_open};

// The most bytes of a file or a tape.
pub const MAX_LENGTH: usize = 2_147_483_648;

// The most containers that are open at once.
pub const MAX_OPEN: usize = 512;

// The constants are what the definitions say.
pub fn max_length() -> usize
    ensures { result ≡ max_length }
{
    MAX_LENGTH
}

pub fn max_open() -> usize
    ensures { result ≡ max_open }
{
    MAX_OPEN
}
