// How many bytes a table gives to each of its numbers.
ghost use Rattle.std.specs.Prelude.{◌≡◌};
ghost use Rattle.number.specs.Size.{size_of};

// The size for numbers up to a maximum: 1, 2, 4 or 8 bytes.
#[tactic(auto, using(crate::specs::SizeLaws::size_by_bounds))]
pub fn size_for(max: u64) -> usize
    ensures { result ≡ size_of max }
{
    match max {
        ..0x100 => 1,
        ..0x1_0000 => 2,
        ..0x1_0000_0000 => 4,
        _ => 8,
    }
}
