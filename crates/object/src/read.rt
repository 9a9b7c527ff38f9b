// The object at an offset: its kind, its length, its end, its content.
ghost use Rattle.std.specs.Prelude.{◌≡◌, ◌+◌, ◌*◌, ◌≤◌, ◌<◌, ltb, length};
ghost use Rattle.number.specs.Part.{part};
ghost use Rattle.number.specs.Width.{bytes_in};
ghost use Rattle.event.specs.declared.Event.TheVariants.{Integer as IntegerEvent};
ghost use Rattle.object.specs.Content.{trailer_at, content_at};
ghost use Rattle.object.specs.Found.{found_of};
ghost use Rattle.object.specs.KindLaws.{width_in};
ghost use Rattle.object.specs.Object.{scalar, by_kind, object_at, date_of, wide_in, data_in, utf8_in, utf16_in, array_in, dictionary_in};

use crate::content::{Content, be_at, content_at};
use crate::kind::{Kind, kind_of};
use crate::refusal::Refusal;
use event::date::is_date;
use event::real::{real_of, short_real_of};
use event::{Event, Integer};
use number::signed::signed_of;
use number::width::{Width, bytes_in};
use utf::utf8::is_utf8;
use utf::utf16::is_utf16;

// Bytes of the file.
#[derive(Clone, Copy)]
pub struct Part {
    pub start: usize,
    pub length: usize,
}

// Outside is an offset at or above the trailer. A container has its number of elements or pairs.
#[derive(Clone, Copy)]
pub enum Object {
    Outside,
    Refused(Refusal),
    Scalar(Event),
    Data(Part),
    Utf8(Part),
    Utf16(Part),
    Array(u64),
    Dictionary(u64),
}

// The object whose marker stands at an offset of the file.
pub fn object_at(file: &[u8], refs: Width, offset: usize) -> Object
    ensures { found_of result ≡ object_at file.now refs offset }
{
    if file.len() < 32 {
        return Object::Outside;
    }
    if file.len() - 32 <= offset {
        return Object::Outside;
    }
    by_kind(file, refs, offset, kind_of(file[offset]))
}

// What the kind says. Each scalar of fixed size is measured in its own arm, so that the compiler makes one decision of the marker's and
// this one: some 17 instructions an object less than where all are measured before.
fn by_kind(file: &[u8], refs: Width, offset: usize, kind: Kind) -> Object
    requires { (offset + 33 ≤ length file.now) × (0 < width_in kind) × (width_in kind ≤ 8) }
    ensures { found_of result ≡ by_kind file.now refs offset kind }
{
    match kind {
        Kind::Null => Object::Refused(Refusal::NullObjectUnimplemented),
        Kind::False => Object::Scalar(Event::Boolean(false)),
        Kind::True => Object::Scalar(Event::Boolean(true)),
        Kind::Fill => Object::Refused(Refusal::FillObjectUnimplemented),
        Kind::Unsigned(width) => {
            if crosses(file, offset, width) {
                return Object::Refused(Refusal::ObjectOffsetTooLarge);
            }
            integer(Integer::Unsigned(be_at(file, offset + 1, width)))
        }
        Kind::Signed => {
            if crosses(file, offset, 8) {
                return Object::Refused(Refusal::ObjectOffsetTooLarge);
            }
            integer(Integer::Signed(signed_of(be_at(file, offset + 1, 8))))
        }
        Kind::Wide => {
            if crosses(file, offset, 16) {
                return Object::Refused(Refusal::ObjectOffsetTooLarge);
            }
            wide_at(file, offset)
        }
        Kind::ShortReal => {
            if crosses(file, offset, 4) {
                return Object::Refused(Refusal::ObjectOffsetTooLarge);
            }
            Object::Scalar(short_real_of(be_at(file, offset + 1, 4) as u32))
        }
        Kind::Real => {
            if crosses(file, offset, 8) {
                return Object::Refused(Refusal::ObjectOffsetTooLarge);
            }
            Object::Scalar(real_of(be_at(file, offset + 1, 8)))
        }
        Kind::Date => {
            if crosses(file, offset, 8) {
                return Object::Refused(Refusal::ObjectOffsetTooLarge);
            }
            date(be_at(file, offset + 1, 8))
        }
        Kind::Data(nibble) => data_at(file, offset, nibble),
        Kind::Utf8(nibble) => utf8_at(file, offset, nibble),
        Kind::Utf16(nibble) => utf16_at(file, offset, nibble),
        Kind::Uid(width) => {
            if crosses(file, offset, width) {
                return Object::Refused(Refusal::ObjectOffsetTooLarge);
            }
            Object::Scalar(Event::Uid(be_at(file, offset + 1, width)))
        }
        Kind::Array(nibble) => array_at(file, refs, offset, nibble),
        Kind::Dictionary(nibble) => dictionary_at(file, refs, offset, nibble),
        Kind::Unknown(marker) => Object::Refused(Refusal::UnknownObjectType(marker)),
    }
}

// Whether so many bytes behind the marker end above the trailer's begin.
fn crosses(file: &[u8], offset: usize, width: usize) -> bool
    requires { offset + 32 ≤ length file.now }
    ensures { result ≡ ltb (trailer_at file.now) (offset + 1 + width) }
{
    file.len() - 32 - offset <= width
}

#[tactic(auto, unfolding(crate::specs::Found::found_of))]
fn integer(i: Integer) -> Object
    ensures { found_of result ≡ scalar (IntegerEvent i) }
{
    Object::Scalar(Event::Integer(i))
}

// A date is finite.
#[tactic(auto, unfolding(crate::specs::Found::found_of, crate::specs::Object::date_of))]
fn date(bits: u64) -> Object
    ensures { found_of result ≡ date_of bits }
{
    if is_date(bits) {
        return Object::Scalar(Event::Date(bits));
    }
    Object::Refused(Refusal::OverflowOrNanDate)
}

// 16 bytes are accepted where the high half is zero.
fn wide_at(file: &[u8], offset: usize) -> Object
    requires { offset + 32 ≤ length file.now }
    ensures { found_of result ≡ wide_in (part file.now (offset + 1) 16) }
{
    if be_at(file, offset + 1, 8) != 0 {
        return Object::Refused(Refusal::IntegerOutOfRange);
    }
    integer(Integer::Unsigned(be_at(file, offset + 9, 8)))
}

fn data_at(file: &[u8], offset: usize, nibble: u8) -> Object
    requires { offset + 32 ≤ length file.now }
    ensures { found_of result ≡ data_in (content_at file.now offset nibble 1) }
{
    match content_at(file, offset, nibble, 1) {
        Content::Refused(refusal) => Object::Refused(refusal),
        Content::Fits(extent) => Object::Data(Part {
            start: extent.start,
            length: extent.count as usize,
        }),
    }
}

fn utf8_at(file: &[u8], offset: usize, nibble: u8) -> Object
    requires { offset + 32 ≤ length file.now }
    ensures { found_of result ≡ utf8_in file.now (content_at file.now offset nibble 1) }
{
    match content_at(file, offset, nibble, 1) {
        Content::Refused(refusal) => Object::Refused(refusal),
        Content::Fits(extent) => {
            let start = extent.start;
            let length = extent.count as usize;
            if is_utf8(&file[start..start + length]) {
                return Object::Utf8(Part { start, length });
            }
            Object::Refused(Refusal::InvalidUtf8String)
        }
    }
}

fn utf16_at(file: &[u8], offset: usize, nibble: u8) -> Object
    requires { offset + 32 ≤ length file.now }
    ensures { found_of result ≡ utf16_in file.now (content_at file.now offset nibble 2) }
{
    match content_at(file, offset, nibble, 2) {
        Content::Refused(refusal) => Object::Refused(refusal),
        Content::Fits(extent) => {
            let start = extent.start;
            let length = extent.count as usize * 2;
            if is_utf16(&file[start..start + length]) {
                return Object::Utf16(Part { start, length });
            }
            Object::Refused(Refusal::InvalidUtf16String)
        }
    }
}

fn array_at(file: &[u8], refs: Width, offset: usize, nibble: u8) -> Object
    requires { offset + 32 ≤ length file.now }
    ensures { found_of result ≡ array_in (content_at file.now offset nibble (bytes_in refs)) }
{
    match content_at(file, offset, nibble, bytes_in(refs)) {
        Content::Refused(refusal) => Object::Refused(refusal),
        Content::Fits(extent) => Object::Array(extent.count),
    }
}

fn dictionary_at(file: &[u8], refs: Width, offset: usize, nibble: u8) -> Object
    requires { offset + 32 ≤ length file.now }
    ensures { found_of result ≡ dictionary_in (content_at file.now offset nibble (2 * bytes_in refs)) }
{
    match content_at(file, offset, nibble, 2 * bytes_in(refs)) {
        Content::Refused(refusal) => Object::Refused(refusal),
        Content::Fits(extent) => Object::Dictionary(extent.count),
    }
}
