// The reader's state: it goes in by value and comes back by value.
ghost use Rattle.std.specs.Prelude.{◌≡◌, take};
ghost use Rattle.reader.specs.State.{max_open, max_length, fresh_reader, ended_reader, member_of};

use layout::frame::Frame;

// What a reader keeps between calls: the file's length; from its trailer the sizes of offsets and references, the number of objects and
// where the offset table begins; the last offset sought; the open containers. Of a fresh reader only the flag counts.
#[derive(Clone, Copy)]
pub struct Reader {
    pub fresh: bool,
    pub length: u32,
    pub offsets: u8,
    pub refs: u8,
    pub count: u32,
    pub table: u32,
    pub place: u64,
    pub depth: usize,
    pub frames: [Frame; Reader::MAX_OPEN],
}

impl Reader {
    pub const MAX_OPEN: usize = event::limits::MAX_OPEN;

    pub const MAX_LENGTH: usize = event::limits::MAX_LENGTH;

    pub const FRESH: Reader = Reader {
        fresh: true,
        length: 0,
        offsets: 0,
        refs: 0,
        count: 0,
        table: 0,
        place: 0,
        depth: 0,
        frames: [Frame::NONE; Reader::MAX_OPEN],
    };

    // The state after the last close, after a root that is a scalar, and after every refusal that ends.
    pub const ENDED: Reader = Reader {
        fresh: false,
        ..Reader::FRESH
    };

    // The constants are what the definitions say.
    pub fn max_open() -> usize
        ensures { result ≡ max_open }
    {
        Reader::MAX_OPEN
    }

    pub fn max_length() -> usize
        ensures { result ≡ max_length }
    {
        Reader::MAX_LENGTH
    }

    pub fn fresh_reader() -> Reader
        ensures { result ≡ fresh_reader }
    {
        Reader::FRESH
    }

    pub fn ended_reader() -> Reader
        ensures { result ≡ ended_reader }
    {
        Reader::ENDED
    }
}

// Whether an object is among the first so many frames.
pub fn is_open(frames: [Frame; Reader::MAX_OPEN], depth: usize, object: u32) -> bool
    ensures { result ≡ member_of (take depth frames) object }
{
    frames
        .iter()
        .take(depth)
        .any(|frame| frame.object == object)
}
