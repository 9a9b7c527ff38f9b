// Dates by their bits: seconds since 2001, as a real.
ghost use Rattle.std.specs.Prelude.{◌≡◌};
ghost use Rattle.event.specs.Date.{is_date};

// Whether 64 bits may be a date's: neither a NaN's nor an infinity's.
#[tactic(auto, unfolding(crate::specs::Date::is_date))]
pub fn is_date(bits: u64) -> bool
    ensures { result ≡ is_date bits }
{
    bits % 0x8000_0000_0000_0000 < 0x7ff0_0000_0000_0000
}
