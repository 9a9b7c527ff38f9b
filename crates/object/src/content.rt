// The length of an object that has one, and whether it ends before the trailer.
ghost use Rattle.std.specs.Prelude.{◌≡◌, ◌+◌, ◌*◌, ◌≤◌, ◌<◌, length};
ghost use Rattle.number.specs.Be.{be};
ghost use Rattle.number.specs.Part.{part};
ghost use Rattle.object.specs.Content.{length_width, extent_at, has_length, head_at, ends_before, content_at};

use crate::refusal::Refusal;
use number::be::read_eight;

// Where the content of an object stands, and how many elements it has: bytes, units, references or pairs.
#[derive(Clone, Copy)]
pub struct Extent {
    pub start: usize,
    pub count: u64,
}

#[derive(Clone, Copy)]
pub enum Content {
    Fits(Extent),
    Refused(Refusal),
}

// How many bytes a length has, by the byte in front of it.
#[tactic(auto, unfolding(crate::specs::Content::length_width))]
fn length_width(byte: u8) -> usize
    ensures { result ≡ length_width byte }
{
    1 << (byte % 4)
}

// The number of 1 to 8 bytes that stand in the file. Eight bytes are read at once, whatever the width, and the rest is dropped: some 20
// instructions a number less than byte by byte.
pub(crate) fn be_at(file: &[u8], at: usize, width: usize) -> u64
    requires { (0 < width) × (width ≤ 8) × (at + 8 ≤ length file.now) }
    ensures { result ≡ be (part file.now at width) }
{
    let eight = read_eight(&file[at..at + 8]);
    let rest = 64 - 8 * width;
    eight >> rest
}

// The extent of an object whose marker has these low four bits; its head lies within the file.
#[tactic(auto, using(crate::proofs::Rules::lengths), unfolding(crate::specs::Content::extent_at))]
fn extent_at(file: &[u8], offset: usize, nibble: u8) -> Extent
    requires { offset + 10 ≤ length file.now }
    ensures { result ≡ extent_at file.now offset nibble }
{
    if nibble != 15 {
        return Extent {
            start: offset + 1,
            count: nibble as u64,
        };
    }
    let width = length_width(file[offset + 1]);
    let count = be_at(file, offset + 2, width);
    Extent {
        start: offset + 2 + width,
        count,
    }
}

// Whether the length stands where it should: in the marker, or behind a byte of 10 to 13.
#[tactic(auto, unfolding(crate::specs::Content::has_length, crate::specs::Content::is_length_byte))]
fn has_length(file: &[u8], offset: usize, nibble: u8) -> bool
    requires { offset + 10 ≤ length file.now }
    ensures { result ≡ has_length file.now offset nibble }
{
    nibble != 15 || matches!(file[offset + 1], 0x10..=0x13)
}

// What such an object's head tells: its extent, or the refusal of the byte in front of its length.
#[tactic(auto, unfolding(crate::specs::Content::head_at))]
pub(crate) fn head_at(file: &[u8], offset: usize, nibble: u8) -> Content
    requires { offset + 10 ≤ length file.now }
    ensures { result ≡ head_at file.now offset nibble }
{
    if has_length(file, offset, nibble) {
        return Content::Fits(extent_at(file, offset, nibble));
    }
    Content::Refused(Refusal::InvalidObjectLength)
}

// Whether content of so many elements, of so many bytes each, ends at or before the trailer.
#[tactic(auto, unfolding(crate::specs::Content::ends_before))]
fn has_room(file: &[u8], start: usize, count: u64, each: usize) -> bool
    requires { (32 ≤ length file.now) × (0 < each) × (each ≤ 16) }
    ensures { result ≡ ends_before file.now (start + count * each) }
{
    let top = file.len() - 32;
    let Some(bytes) = count.checked_mul(each as u64) else {
        return false;
    };
    start <= top && bytes <= (top - start) as u64
}

// The content of such an object, where it ends at or before the trailer.
#[tactic(auto, unfolding(crate::specs::Content::content_at, crate::specs::Content::measured))]
pub(crate) fn content_at(file: &[u8], offset: usize, nibble: u8, each: usize) -> Content
    requires { (offset + 32 ≤ length file.now) × (0 < each) × (each ≤ 16) }
    ensures { result ≡ content_at file.now offset nibble each }
{
    match head_at(file, offset, nibble) {
        Content::Refused(refusal) => Content::Refused(refusal),
        Content::Fits(extent) => {
            if has_room(file, extent.start, extent.count, each) {
                return Content::Fits(extent);
            }
            Content::Refused(Refusal::ObjectOffsetTooLarge)
        }
    }
}
