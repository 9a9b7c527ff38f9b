// What a file says under the sizes, the count and the table of its trailer.
ghost use Rattle.std.specs.Prelude.{cond, ◌≡◌, ◌+◌, ◌≤◌, ◌<◌, ◌^◌, leb, ltb, length};
ghost use Rattle.number.specs.Be.{be};
ghost use Rattle.number.specs.Part.{part};
ghost use Rattle.layout.specs.Layout.{number_at, entry_at, due_at, in_array, in_dictionary, due_in, due_of, stands_in};
ghost use Rattle.layout.specs.Listed.{is_listed};
ghost use Rattle.layout.specs.Said.{due_said};

use crate::frame::Frame;
use number::be::{read_be, read_eight};
use number::width::{Width, bytes_in};
use object::container::{Container, container_at};
use object::content::Extent;

#[derive(Clone, Copy)]
pub struct Layout {
    pub offsets: Width,
    pub refs: Width,
    pub count: u32,
    pub table: u32,
}

// What is due in an open container: nothing, since it isn't the one that the state says (17); its end, with its offset; or an object.
#[derive(Clone, Copy)]
pub enum Due {
    Wrong,
    Close(u64),
    Member(u64),
}

// An open container's offset, and what stands there.
#[derive(Clone, Copy)]
pub struct Standing {
    pub offset: u64,
    pub container: Container,
}

impl Standing {
    pub const NOWHERE: Standing = Standing {
        offset: 0,
        container: Container::NoContainer,
    };
}

// The number of a width that stands at an offset.
#[tactic(auto, using(crate::proofs::Rules::widths), unfolding(crate::specs::Layout::number_at))]
pub fn number_at(file: &[u8], width: Width, at: usize) -> Option<u64>
    ensures { result ≡ number_at file.now width at }
{
    read_at(file, bytes_in(width), at)
}

// The number of so many bytes. Eight are read at once, and the rest is dropped: some 8 instructions a number less than byte by byte. It
// takes the bytes and not the width, so that a place among numbers and the number there go by one choice of them: some 13 less.
fn read_at(file: &[u8], bytes: usize, at: usize) -> Option<u64>
    requires { (0 < bytes) × (bytes ≤ 8) }
    ensures { result ≡ cond (leb (at + bytes) (length file.now)) (Some (be (part file.now at bytes))) None }
{
    if lacks_eight(file.len(), at) {
        return number_near_end(file, bytes, at);
    }
    let eight = read_eight(&file[at..at + 8]);
    let rest = 64 - 8 * bytes;
    let number = eight >> rest;
    Some(number)
}

// Whether eight bytes from a place on pass the end.
fn lacks_eight(end: usize, at: usize) -> bool
    ensures { result ≡ ltb end (at + 8) }
{
    end < 8 || end - 8 < at
}

// The number of so many bytes, where fewer than eight may be left.
fn number_near_end(file: &[u8], bytes: usize, at: usize) -> Option<u64>
    requires { (0 < bytes) × (bytes ≤ 8) }
    ensures { result ≡ cond (leb (at + bytes) (length file.now)) (Some (be (part file.now at bytes))) None }
{
    if file.len() < bytes {
        return None;
    }
    if file.len() - bytes < at {
        return None;
    }
    read_be(&file[at..at + bytes])
}

// An object's offset, from the offset table.
#[tactic(auto, using(crate::proofs::Rules::widths), unfolding(crate::specs::Layout::entry_at, crate::specs::Layout::number_at))]
pub(crate) fn entry_at(file: &[u8], layout: Layout, object: u32) -> Option<u64>
    ensures { result ≡ entry_at file.now layout object }
{
    let offsets = layout.offsets;
    let bytes = bytes_in(offsets);
    read_at(file, bytes, layout.table as usize + object as usize * bytes)
}

// What is due in an open container: it is looked at again where its entry says that it stands, if that is where it stood.
#[tactic(auto, unfolding(crate::specs::Layout::due_of))]
pub fn due_at(file: &[u8], layout: Layout, frame: Frame) -> Due
    ensures { due_said result ≡ due_said (due_of file.now layout frame) }
{
    due_in(file, layout, frame, stands_in(file, layout, frame))
}

// Where an open container stands, and what stands there; no container where its entry isn't the offset that was kept.
#[tactic(auto, unfolding(crate::specs::Layout::stands_in, crate::specs::Layout::kept_from))]
pub fn stands_in(file: &[u8], layout: Layout, frame: Frame) -> Standing
    ensures { result ≡ stands_in file.now layout frame }
{
    if layout.count <= frame.object {
        return Standing::NOWHERE;
    }
    let Some(offset) = entry_at(file, layout, frame.object) else {
        return Standing::NOWHERE;
    };
    if offset != frame.offset as u64 {
        return Standing::NOWHERE;
    }
    Standing {
        offset,
        container: container_at(file, offset as usize),
    }
}

// Whether the table has an offset under a number.
#[tactic(auto, unfolding(crate::specs::Listed::is_listed, crate::specs::Listed::is_entry))]
pub fn is_listed(file: &[u8], layout: Layout, object: u32, offset: u64) -> bool
    ensures { result ≡ is_listed file.now layout object offset }
{
    if layout.count <= object {
        return false;
    }
    let Some(entry) = entry_at(file, layout, object) else {
        return false;
    };
    entry == offset
}

// What is due in a container that was looked at already.
#[tactic(auto, unfolding(crate::specs::Layout::due_in))]
pub fn due_in(file: &[u8], layout: Layout, frame: Frame, standing: Standing) -> Due
    ensures { due_said result ≡ due_said (due_in file.now layout frame standing.offset standing.container) }
{
    let refs = layout.refs;
    let offset = standing.offset;
    let container = standing.container;
    match container {
        Container::NoContainer => Due::Wrong,
        Container::Array(extent) => due_in_array(file, refs, offset, extent, frame),
        Container::Dictionary(extent) => due_in_dictionary(file, refs, offset, extent, frame),
    }
}

#[tactic(auto, unfolding(crate::specs::Layout::in_array))]
fn due_in_array(file: &[u8], refs: Width, offset: u64, extent: Extent, frame: Frame) -> Due
    ensures { result ≡ in_array file.now refs frame offset extent }
{
    if extent.count != frame.length as u64 {
        return Due::Wrong;
    }
    let position = frame.position as u64;
    due_from(
        file,
        refs,
        offset,
        extent.start,
        frame.length as u64,
        position,
        position,
    )
}

// Keys and values come in turn, and all keys stand before all values.
#[tactic(auto, using(crate::proofs::Numbers::bit_times), unfolding(crate::specs::Layout::in_dictionary, crate::specs::Layout::place_in))]
fn due_in_dictionary(file: &[u8], refs: Width, offset: u64, extent: Extent, frame: Frame) -> Due
    ensures { result ≡ in_dictionary file.now refs frame offset extent }
{
    if extent.count != frame.length as u64 {
        return Due::Wrong;
    }
    let pairs = frame.length as u64;
    let position = frame.position as u64;
    let place = position / 2 + position % 2 * pairs;
    due_from(file, refs, offset, extent.start, 2 * pairs, place, position)
}

// The reference at a place among a container's references, or its end behind the last of them.
#[tactic(auto, using(crate::proofs::Rules::widths), unfolding(crate::proofs::Rules::due_there))]
fn due_from(
    file: &[u8],
    refs: Width,
    offset: u64,
    start: usize,
    references: u64,
    place: u64,
    position: u64,
) -> Due
    requires { place < 2 ^ 33 }
    ensures { result ≡ due_at file.now refs offset start references place position }
{
    if position == references {
        return Due::Close(offset);
    }
    if references < position {
        return Due::Wrong;
    }
    if file.len() < start {
        return Due::Wrong;
    }
    let bytes = bytes_in(refs);
    let Some(object) = read_at(file, bytes, start + place as usize * bytes) else {
        return Due::Wrong;
    };
    Due::Member(object)
}
