// The text request: the bytes of a record, from the file or from lent scratch. Data and text have some; of other records it is only asked
// whether the file gives them.
ghost use Rattle.std.specs.Prelude.{◌≡◌};
ghost use Rattle.layout.specs.Bytes.{data_asked, text_asked, given_if, scalar_asked, start_asked, end_asked, found_asked};
ghost use Rattle.reader.specs.Request.{asked_under, asked_of, length_said, scratch_after, part_said};
ghost use Rattle.reader.specs.Said.{text_said, asked_said};
ghost use Rattle.object.specs.Found.{found_of};

use crate::answer::Record;
use crate::refusal::Refusal;
use crate::state::Reader;
use event::Event;
use event::same::is_same;
use layout::layout::{Layout, is_listed};
use layout::trailer::{TrailerRead, trailer_of};
use object::read::{Object, Part, object_at};
use utf::changed::Changed;
use utf::utf16::{utf8_length, utf16_to_utf8};

// How many bytes a record's data or text has, 0 for any other record; a refusal comes with its place.
#[derive(Clone, Copy)]
pub enum TextLength {
    Length(u64),
    Refused(Refusal, u64),
}

// Where the bytes of a record stand: in the file as they are, in the file as UTF-16, or nowhere, since it has none; or the file doesn't give it.
#[derive(Clone, Copy)]
enum Asked {
    InFile(Part),
    InUtf16(Part),
    NoBytes,
    Denied(Refusal),
}

// The first call: the length, with UTF-16 text changed to UTF-8 at the start of the scratch.
pub fn text_length(file: &[u8], scratch: &mut [u8], handed: Record) -> TextLength
    ensures result_value { text_said result ≡ length_said file.now scratch.old handed.offset (asked_of file.now handed) }
    ensures scratch_after { scratch.new ≡ scratch_after file.now scratch.old (asked_of file.now handed) }
{
    match asked_for(file, handed) {
        Asked::InFile(part) => TextLength::Length(part.length as u64),
        Asked::InUtf16(part) => {
            let start = part.start;
            let length = part.length;
            match utf16_to_utf8(&file[start..start + length], scratch) {
                Changed::Written(bytes) => TextLength::Length(bytes as u64),
                Changed::NoRoom => TextLength::Refused(Refusal::NoRoomForText, handed.offset),
                // What was read as UTF-16 is UTF-16.
                Changed::NotText => TextLength::Refused(Refusal::WrongFile, 0),
            }
        }
        Asked::NoBytes => TextLength::Length(0),
        Asked::Denied(refusal) => TextLength::Refused(refusal, 0),
    }
}

// The second call: the bytes themselves, a part of the file or of the scratch; empty where the first call refuses.
pub fn text_part<'a>(file: &'a [u8], scratch: &'a [u8], handed: Record) -> &'a [u8]
    ensures { result.now ≡ part_said file.now scratch.now (asked_of file.now handed) }
{
    match asked_for(file, handed) {
        Asked::InFile(part) => {
            let start = part.start;
            let end = start + part.length;
            &file[start..end]
        }
        Asked::InUtf16(part) => {
            let start = part.start;
            let end = start + part.length;
            let Some(bytes) = utf8_length(&file[start..end]) else {
                return &scratch[..0];
            };
            if scratch.len() < bytes {
                return &scratch[..0];
            }
            &scratch[..bytes]
        }
        Asked::NoBytes => &scratch[..0],
        Asked::Denied(_) => &scratch[..0],
    }
}

// What the file gives of a record: 1 first, then 17.
#[tactic(auto, unfolding(crate::proofs::Rules::requests, crate::specs::Request::asked_of, crate::specs::Request::asked_by))]
fn asked_for(file: &[u8], handed: Record) -> Asked
    ensures { asked_said result ≡ asked_of file.now handed }
{
    if Reader::MAX_LENGTH < file.len() {
        return Asked::Denied(Refusal::File(layout::refusal::Refusal::TooLong));
    }
    match trailer_of(file) {
        TrailerRead::Lays(layout, _) => asked_under(file, layout, handed),
        _ => Asked::Denied(Refusal::WrongFile),
    }
}

// The same once the trailer is read: the table has the record's offset under its number, and reading there gives the record.
#[tactic(auto, unfolding(crate::proofs::Rules::requests, crate::specs::Request::asked_under))]
fn asked_under(file: &[u8], layout: Layout, handed: Record) -> Asked
    ensures { asked_said result ≡ asked_under file.now handed layout }
{
    if is_listed(file, layout, handed.number, handed.offset) {
        let refs = layout.refs;
        let event = handed.event;
        return asked_as(event, object_at(file, refs, handed.offset as usize));
    }
    Asked::Denied(Refusal::WrongFile)
}

// An event's record, by what is read at its offset.
#[tactic(auto, unfolding(layout::specs::Bytes::found_asked))]
fn asked_as(event: Event, object: Object) -> Asked
    ensures { asked_said result ≡ found_asked event (found_of object) }
{
    match event {
        Event::Data => data_in(object),
        Event::String => text_in(object),
        Event::StartArray(_) => start_in(object, event),
        Event::StartDictionary(_) => start_in(object, event),
        Event::EndCollection => end_in(object),
        Event::Boolean(_) => scalar_in(object, event),
        Event::Date(_) => scalar_in(object, event),
        Event::Integer(_) => scalar_in(object, event),
        Event::Real(_) => scalar_in(object, event),
        Event::Nan(_) => scalar_in(object, event),
        Event::Uid(_) => scalar_in(object, event),
    }
}

#[tactic(auto, unfolding(crate::proofs::Rules::requests, layout::specs::Bytes::data_asked))]
fn data_in(object: Object) -> Asked
    ensures { asked_said result ≡ data_asked (found_of object) }
{
    match object {
        Object::Data(part) => Asked::InFile(part),
        _ => Asked::Denied(Refusal::WrongFile),
    }
}

#[tactic(auto, unfolding(crate::proofs::Rules::requests, layout::specs::Bytes::text_asked))]
fn text_in(object: Object) -> Asked
    ensures { asked_said result ≡ text_asked (found_of object) }
{
    match object {
        Object::Utf8(part) => Asked::InFile(part),
        Object::Utf16(part) => Asked::InUtf16(part),
        _ => Asked::Denied(Refusal::WrongFile),
    }
}

// A scalar without bytes: it is that event.
#[tactic(auto, unfolding(crate::proofs::Rules::requests, layout::specs::Bytes::scalar_asked))]
fn scalar_in(object: Object, event: Event) -> Asked
    ensures { asked_said result ≡ scalar_asked event (found_of object) }
{
    match object {
        Object::Scalar(found) => given_if(is_same(event, found)),
        _ => Asked::Denied(Refusal::WrongFile),
    }
}

// A container's start: it has that kind and length.
#[tactic(auto, unfolding(crate::proofs::Rules::requests, layout::specs::Bytes::start_asked))]
fn start_in(object: Object, event: Event) -> Asked
    ensures { asked_said result ≡ start_asked event (found_of object) }
{
    match object {
        Object::Array(length) => { given_if(is_same(event, Event::StartArray(Some(length)))) }
        Object::Dictionary(length) => {
            given_if(is_same(event, Event::StartDictionary(Some(length))))
        }
        _ => Asked::Denied(Refusal::WrongFile),
    }
}

// A container's end: there is one.
#[tactic(auto, unfolding(crate::proofs::Rules::requests, layout::specs::Bytes::end_asked))]
fn end_in(object: Object) -> Asked
    ensures { asked_said result ≡ end_asked (found_of object) }
{
    match object {
        Object::Array(_) => Asked::NoBytes,
        Object::Dictionary(_) => Asked::NoBytes,
        _ => Asked::Denied(Refusal::WrongFile),
    }
}

#[tactic(auto, unfolding(crate::proofs::Rules::requests))]
fn given_if(given: bool) -> Asked
    ensures { asked_said result ≡ given_if given }
{
    if given {
        Asked::NoBytes
    } else {
        Asked::Denied(Refusal::WrongFile)
    }
}
