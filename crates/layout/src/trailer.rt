// The trailer: the last 32 bytes of a file.
ghost use Rattle.std.specs.Prelude.{◌≡◌, ◌+◌, ◌-◌, ◌≤◌, length, get_or};
ghost use Rattle.number.specs.Width.{width_of};
ghost use Rattle.number.specs.Be.{be};
ghost use Rattle.number.specs.Part.{part};
ghost use Rattle.layout.specs.Said.{trailer_said};
ghost use Rattle.event.specs.Format.{max_length};
ghost use Rattle.layout.specs.Trailer.{trailer_in, trailer_of, sizes_of, table_of};

use crate::layout::Layout;
use crate::refusal::Refusal;
use event::limits::MAX_LENGTH;
use number::be::read_eight;
use number::width::{Width, bytes_in, width_of};
use object::refusal::Refusal as ObjectRefusal;

// A refusal that leaves the reader as it was, one that ends it, or the layout and the root's number.
#[derive(Clone, Copy)]
pub enum TrailerRead {
    Keeps(Refusal, u64),
    Ends(Refusal, u64),
    Lays(Layout, u64),
}

// The length limit stands before all else.
#[tactic(auto, unfolding(crate::proofs::Rules::trailers, crate::specs::Trailer::trailer_in))]
pub fn trailer_of(file: &[u8]) -> TrailerRead
    ensures { trailer_said result ≡ trailer_in file.now }
{
    if MAX_LENGTH < file.len() {
        return TrailerRead::Keeps(Refusal::TooLong, 0);
    }
    read_trailer(file)
}

#[tactic(auto, using(crate::proofs::Magic::has_magic), unfolding(crate::proofs::Rules::trailers, crate::specs::Trailer::trailer_of))]
fn read_trailer(file: &[u8]) -> TrailerRead
    requires { length file.now ≤ max_length }
    ensures { trailer_said result ≡ trailer_of file.now }
{
    if file.len() < 8 {
        return TrailerRead::Keeps(Refusal::EndOfInput, 0);
    }
    if !file.starts_with(b"bplist00") {
        return TrailerRead::Keeps(Refusal::InvalidMagic, 0);
    }
    if file.len() < 32 {
        return TrailerRead::Keeps(Refusal::EndOfInput, 0);
    }
    read_sizes(file)
}

// The two sizes.
#[tactic(auto, unfolding(crate::proofs::Rules::trailers, crate::specs::Trailer::sizes_of, crate::specs::Trailer::ref_size_of))]
fn read_sizes(file: &[u8]) -> TrailerRead
    requires { (32 ≤ length file.now) × (length file.now ≤ max_length) }
    ensures { trailer_said result ≡ sizes_of file.now (width_of (get_or file.now (length file.now - 32 + 6) 0)) }
{
    let top = file.len() - 32;
    let Some(offsets) = width_of(file[top + 6]) else {
        return TrailerRead::Keeps(Refusal::InvalidTrailerObjectOffsetSize, top as u64);
    };
    let size = file[top + 7];
    let Some(refs) = width_of(size) else {
        // The Rust keeps the size it read, and a size of zero means that it has read no trailer yet.
        if size == 0 {
            return TrailerRead::Keeps(Refusal::InvalidTrailerObjectReferenceSize, top as u64);
        }
        return TrailerRead::Ends(Refusal::InvalidTrailerObjectReferenceSize, top as u64);
    };
    read_table(file, offsets, refs)
}

// The three numbers, and whether the table ends before the trailer.
#[tactic(auto, using(crate::proofs::Rules::tables), unfolding(crate::proofs::Rules::trailers, crate::specs::Trailer::table_of))]
fn read_table(file: &[u8], offsets: Width, refs: Width) -> TrailerRead
    requires { (32 ≤ length file.now) × (length file.now ≤ max_length) }
    ensures { trailer_said result ≡ table_of file.now offsets refs }
{
    let top = file.len() - 32;
    let count = eight_at(file, top + 8);
    let root = eight_at(file, top + 16);
    let table = eight_at(file, top + 24);
    if (top as u64) < table || (top as u64 - table) / (bytes_in(offsets) as u64) < count {
        return TrailerRead::Ends(Refusal::Object(ObjectRefusal::ObjectOffsetTooLarge), table);
    }
    TrailerRead::Lays(
        Layout {
            offsets,
            refs,
            count: count as u32,
            table: table as u32,
        },
        root,
    )
}

// The number of eight bytes that stand in the file.
fn eight_at(file: &[u8], at: usize) -> u64
    requires { at + 8 ≤ length file.now }
    ensures { result ≡ be (part file.now at 8) }
{
    read_eight(&file[at..at + 8])
}
