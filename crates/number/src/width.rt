// The widths that a trailer may give to its offsets and references.
ghost use Rattle.std.specs.Prelude.{◌≡◌};
ghost use Rattle.number.specs.Width.{width_of, bytes_in};

#[derive(Clone, Copy)]
pub enum Width {
    One = 1,
    Two = 2,
    Three = 3,
    Four = 4,
    Eight = 8,
}

pub fn width_of(size: u8) -> Option<Width>
    ensures { result ≡ width_of size }
{
    match size {
        1 => Some(Width::One),
        2 => Some(Width::Two),
        3 => Some(Width::Three),
        4 => Some(Width::Four),
        8 => Some(Width::Eight),
        _ => None,
    }
}

#[tactic(auto, unfolding(crate::specs::Width::bytes_in))]
pub fn bytes_in(width: Width) -> usize
    ensures { result ≡ bytes_in width }
{
    width as usize
}
