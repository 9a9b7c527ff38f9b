// The kind of an object: one decision over its marker byte.
ghost use Rattle.std.specs.Prelude.{◌≡◌};
ghost use Rattle.object.specs.Kind.{kind_of};

// A number beside a kind is the width in bytes, or the low four bits of the marker.
#[derive(Clone, Copy)]
pub enum Kind {
    Null,
    False,
    True,
    Fill,
    Unsigned(usize),
    Signed,
    Wide,
    ShortReal,
    Real,
    Date,
    Data(u8),
    Utf8(u8),
    Utf16(u8),
    Uid(usize),
    Array(u8),
    Dictionary(u8),
    Unknown(u8),
}

#[tactic(auto, using(crate::proofs::Rules::kinds), unfolding(crate::specs::Kind::kind_of))]
pub fn kind_of(marker: u8) -> Kind
    ensures { result ≡ kind_of marker }
{
    match marker {
        0x00 => Kind::Null,
        0x08 => Kind::False,
        0x09 => Kind::True,
        0x0f => Kind::Fill,
        0x10 => Kind::Unsigned(1),
        0x11 => Kind::Unsigned(2),
        0x12 => Kind::Unsigned(4),
        0x13 => Kind::Signed,
        0x14 => Kind::Wide,
        0x22 => Kind::ShortReal,
        0x23 => Kind::Real,
        0x33 => Kind::Date,
        0x40..=0x4f => Kind::Data(marker - 0x40),
        0x50..=0x5f => Kind::Utf8(marker - 0x50),
        0x60..=0x6f => Kind::Utf16(marker - 0x60),
        0x80..=0x87 => Kind::Uid(marker as usize - 0x7f),
        0xa0..=0xaf => Kind::Array(marker - 0xa0),
        0xd0..=0xdf => Kind::Dictionary(marker - 0xd0),
        _ => Kind::Unknown(marker),
    }
}
