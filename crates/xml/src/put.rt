// The line of an event: written where it fits, and measured in any case.
ghost use Rattle.std.specs.Prelude.{true, ◌≡◌, ◌≤◌, ◌<◌, length};
ghost use Rattle.radix64.specs.Base64.{base64};
ghost use Rattle.digits.specs.Digits.{signed};
ghost use Rattle.digits.specs.Put.{Written};
ghost use Rattle.event.specs.Meaning.{meaning_of, value_of};
ghost use Rattle.tape.specs.Code.{allowed};
ghost use Rattle.xml.specs.Put.{Placed, Worded, Dayed, Lined};
ghost use Rattle.xml.specs.Words.{word_data, word_integer};
ghost use Rattle.xml.specs.Xml.{is_key, start_tag, end_tag, empty_tag, line, element, closed, worded, truth};

use crate::answer::Bar;
use crate::simple::is_simple;
use crate::text::{is_barred, put_escaped, write_piece};
use calendar::calendar_of;
use digits::decimal::{put_signed, signed_length};
use digits::fits;
use digits::stamp::{STAMP_LENGTH, put_stamp};
use event::{Event, Integer};
use grammar::turn::Due;
use radix64::{base64_length, put_base64};

// The tags between which text stands.
#[derive(Clone, Copy)]
struct Tags {
    front: &'static [u8],
    back: &'static [u8],
}

// The line of an event where something is due: the place behind it, whether there was room for it or not; or why it has none.
pub(crate) fn put_line(
    out: &mut [u8],
    at: usize,
    due: Due,
    event: Event,
    bytes: &[u8],
) -> Result<usize, Bar>
    requires { (at < 0x100_0000_0000) × (length bytes.now ≤ 2_147_483_648) × (allowed (meaning_of event bytes.now) ≡ true) }
    ensures { Lined out.old at due (meaning_of event bytes.now) out.new result }
{
    match event {
        Event::StartArray(_) => Ok(write_piece(out, at, b"<array>\n")),
        Event::StartDictionary(_) => Ok(write_piece(out, at, b"<dict>\n")),
        Event::EndCollection => Ok(put_end(out, at, is_key(due))),
        Event::Boolean(value) => Ok(put_truth(out, at, value)),
        Event::Data => Ok(put_data(out, at, bytes)),
        Event::Date(bits) => put_date(out, at, bits),
        Event::Integer(integer) => Ok(put_integer(out, at, integer)),
        Event::String => put_other(out, at, is_key(due), bytes),
        Event::Real(_) | Event::Nan(_) | Event::Uid(_) => Err(Bar::NoElement),
    }
}

#[tactic(auto, unfolding(crate::specs::Xml::is_key))]
pub(crate) fn is_key(due: Due) -> bool
    ensures { result ≡ is_key due }
{
    matches!(due, Due::Key)
}

#[tactic(auto, unfolding(crate::specs::Xml::closed, crate::specs::Xml::end_tag, crate::specs::Xml::line,))]
fn put_end(out: &mut [u8], at: usize, key: bool) -> usize
    requires { at < 0x100_0000_0000 }
    ensures { Written out.old at (line (end_tag (closed key))) out.new result }
{
    if key {
        return write_piece(out, at, b"</dict>\n");
    }
    write_piece(out, at, b"</array>\n")
}

#[tactic(auto, unfolding(crate::specs::Xml::truth, crate::specs::Xml::empty_tag, crate::specs::Xml::line,))]
fn put_truth(out: &mut [u8], at: usize, value: bool) -> usize
    requires { at < 0x100_0000_0000 }
    ensures { Written out.old at (line (empty_tag (truth value))) out.new result }
{
    if value {
        return write_piece(out, at, b"<true/>\n");
    }
    write_piece(out, at, b"<false/>\n")
}

// The letters of data in base 64.
fn put_data(out: &mut [u8], at: usize, bytes: &[u8]) -> usize
    requires { (at < 0x100_0000_0000) × (length bytes.now ≤ 2_147_483_648) }
    ensures { Placed out.old at (element word_data (base64 bytes.now)) out.new result }
{
    let start = write_piece(out, at, b"<data>");
    put_base64(out, start, bytes);
    write_piece(out, start + base64_length(bytes), b"</data>\n")
}

// A date's day and time, where it has them.
fn put_date(out: &mut [u8], at: usize, bits: u64) -> Result<usize, Bar>
    requires { at < 0x100_0000_0000 }
    ensures { Dayed out.old at bits out.new result }
{
    let Some(time) = calendar_of(bits) else {
        return Err(Bar::NoDay);
    };
    let start = write_piece(out, at, b"<date>");
    put_stamp(out, start, time);
    Ok(write_piece(out, start + STAMP_LENGTH, b"</date>\n"))
}

fn put_integer(out: &mut [u8], at: usize, integer: Integer) -> usize
    requires { at < 0x100_0000_0000 }
    ensures { Placed out.old at (element word_integer (signed (value_of integer))) out.new result }
{
    let start = write_piece(out, at, b"<integer>");
    put_signed(out, start, integer);
    write_piece(out, start + signed_length(integer), b"</integer>\n")
}

// Text in the element that it has where a key is due or isn't.
pub(crate) fn put_text(out: &mut [u8], at: usize, key: bool, bytes: &[u8]) -> Result<usize, Bar>
    requires { (at < 0x100_0000_0000) × (length bytes.now ≤ 2_147_483_648) }
    ensures { Worded out.old at key bytes.now out.new result }
{
    if !is_simple(bytes) {
        return put_other(out, at, key, bytes);
    }
    if key {
        Ok(put_simple::<true>(out, at, bytes))
    } else {
        Ok(put_simple::<false>(out, at, bytes))
    }
}

// Simple text, as it is, between its tags. Of a constant the tags are constants too, and are written at once.
fn put_simple<const KEY: bool>(out: &mut [u8], at: usize, bytes: &[u8]) -> usize
    requires { (at < 0x100_0000_0000) × (length bytes.now ≤ 2_147_483_648) }
    ensures { Placed out.old at (element (worded KEY) bytes.now) out.new result }
{
    let tags = tags_of(KEY);
    let size = tags.front.len() + bytes.len() + tags.back.len();
    if fits(out.len(), at, size) {
        let start = write_piece(out, at, tags.front);
        let end = write_piece(out, start, bytes);
        return write_piece(out, end, tags.back);
    }
    at + size
}

// Any text: it may have to be escaped, or have no XML. Called in two places, it stays a function of its own, and the loop over a tape's events
// small.
fn put_other(out: &mut [u8], at: usize, key: bool, bytes: &[u8]) -> Result<usize, Bar>
    requires { (at < 0x100_0000_0000) × (length bytes.now ≤ 2_147_483_648) }
    ensures { Worded out.old at key bytes.now out.new result }
{
    if is_barred(bytes) {
        return Err(Bar::NoCharacter);
    }
    let tags = tags_of(key);
    let start = write_piece(out, at, tags.front);
    let end = put_escaped(out, start, bytes);
    Ok(write_piece(out, end, tags.back))
}

#[tactic(auto, unfolding(crate::specs::Xml::worded, crate::specs::Xml::start_tag, crate::specs::Xml::end_tag, crate::specs::Xml::line,))]
fn tags_of(key: bool) -> Tags
    ensures front { result.front.now ≡ start_tag (worded key) }
    ensures back { result.back.now ≡ line (end_tag (worded key)) }
    ensures few { (length result.front.now ≤ 8) × (length result.back.now ≤ 10) }
{
    if key {
        Tags {
            front: b"<key>",
            back: b"</key>\n",
        }
    } else {
        Tags {
            front: b"<string>",
            back: b"</string>\n",
        }
    }
}
