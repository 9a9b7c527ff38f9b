// Lines and words: places in a slice.
ghost use Rattle.std.specs.Prelude.{ℕ, ◌≡◌, ◌≢◌, ◌≤◌, ◌<◌, length, slice_index};

// Where a byte next stands from a place on, or the end.
pub fn next(s: &[u8], from: usize, b: u8) -> usize
    ensures upper_bound { result ≤ length s.now }
    ensures lower_bound { from ≤ length s.now → from ≤ result }
    ensures found { result < length s.now → slice_index s.now result ≡ b }
    ensures first { (k : ℕ) → from ≤ k → k < result → slice_index s.now k ≢ b }
{
    (from..s.len()).find(|i| s[*i] == b).unwrap_or(s.len())
}

// The place after one, or the end.
pub fn after(s: &[u8], at: usize) -> usize
    ensures { result ≤ length s.now }
{
    at.saturating_add(1).min(s.len())
}

// The decimal number that stands at a place; 0 where none does. It stays at the top rather than pass it. What is in front of the place is cut off
// first: `skip` would step over it, byte by byte, at each call.
pub fn number(s: &[u8], from: usize) -> u64 {
    s[from.min(s.len())..]
        .iter()
        .take_while(|b| b.is_ascii_digit())
        .fold(0, |n: u64, b| {
            n.saturating_mul(10)
                .saturating_add(u64::from(b.wrapping_sub(b'0')))
        })
}
