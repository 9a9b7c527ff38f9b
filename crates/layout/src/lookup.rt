// Looking an object up by its number.
ghost use Rattle.std.specs.Prelude.{◌≡◌};
ghost use Rattle.layout.specs.Layout.{look_of};
ghost use Rattle.layout.specs.Looked.{with_place, start_of};
ghost use Rattle.layout.specs.Bytes.{looked_bytes};
ghost use Rattle.layout.specs.Said.{look_said, look_bytes, shape_said};

use crate::layout::{Layout, entry_at};
use crate::refusal::Refusal;
use event::Event;
use object::read::{Object, Part, object_at};
use object::refusal::Refusal as ObjectRefusal;

// Where the bytes of a scalar stand: in the file as they are, in the file as UTF-16, or nowhere, since it has none.
#[derive(Clone, Copy)]
pub enum Span {
    InFile(Part),
    InUtf16(Part),
    NoBytes,
}

#[derive(Clone, Copy)]
pub enum Shape {
    Array,
    Dictionary,
}

// What an object is: not in this file (17); refused, with the place; a scalar with where its bytes stand, or a container with its length, and its
// offset.
#[derive(Clone, Copy)]
pub enum Look {
    Missing,
    Refused(Refusal, u64),
    Scalar(Event, Span, u64),
    Container(Shape, u64, u64),
}

// The object of a number: its entry of the offset table, then what stands there. The place is the last offset sought, which a refusal
// carries where nothing is sought.
#[tactic(auto, using(crate::proofs::Looks::looks), unfolding(crate::proofs::Looks::looked),)]
pub fn look_up(file: &[u8], layout: Layout, object: u64, place: u64) -> Look
    ensures result_value { look_said result ≡ with_place place (look_of file.now layout object) }
    ensures result_value_2 { look_bytes result ≡ looked_bytes file.now (look_of file.now layout object) }
{
    if layout.count as u64 <= object {
        return Look::Refused(Refusal::ObjectReferenceTooLarge, place);
    }
    let Some(offset) = entry_at(file, layout, object as u32) else {
        return Look::Missing;
    };
    let refs = layout.refs;
    match object_at(file, refs, offset as usize) {
        Object::Outside => Look::Refused(
            Refusal::Object(ObjectRefusal::ObjectOffsetTooLarge),
            place,
        ),
        Object::Refused(refusal) => Look::Refused(Refusal::Object(refusal), offset),
        Object::Scalar(event) => Look::Scalar(event, Span::NoBytes, offset),
        Object::Data(part) => Look::Scalar(Event::Data, Span::InFile(part), offset),
        Object::Utf8(part) => Look::Scalar(Event::String, Span::InFile(part), offset),
        Object::Utf16(part) => Look::Scalar(Event::String, Span::InUtf16(part), offset),
        Object::Array(length) => Look::Container(Shape::Array, length, offset),
        Object::Dictionary(length) => Look::Container(Shape::Dictionary, length, offset),
    }
}

// The event that a container begins with.
#[tactic(auto, unfolding(crate::specs::Looked::start_of, crate::specs::Said::shape_said))]
pub fn start_of(shape: Shape, length: u64) -> Event
    ensures { result ≡ start_of (shape_said shape) length }
{
    match shape {
        Shape::Array => Event::StartArray(Some(length)),
        Shape::Dictionary => Event::StartDictionary(Some(length)),
    }
}
