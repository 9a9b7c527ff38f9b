// Text that surely is its own XML, as most text is: looked at many bytes at once.
ghost use Rattle.std.specs.Prelude.{true, ◌≡◌, ◌<◌, length};
ghost use Rattle.xml.specs.Simple.{is_simple, all_simple, Covers, Tested};
ghost use Rattle.xml.specs.Text.{is_ordinary};

// The top bits of eight bytes.
const TOPS: u64 = 0x8080_8080_8080_8080;

// Whether text is simple: ASCII from the space on, without `&` and without what lies from `<` to `>`. Other text may be its own XML too. The
// last eight bytes stand for those behind the steps of eight; some of them may be looked at twice.
pub(crate) fn is_simple(s: &[u8]) -> bool
    ensures { result ≡ true → all_simple s.now ≡ true }
{
    let Some(last) = s.last_chunk::<8>() else {
        return are_eight_simple(few_at(s));
    };
    let (blocks, rest) = s.as_chunks::<128>();
    let (eights, _) = rest.as_chunks::<8>();
    blocks.iter().all(|block| are_simple(block))
        && eights.iter().all(|eight| is_simple_chunk(eight))
        && is_simple_chunk(last)
}

// It has no early exit, so that the compiler takes many bytes at once.
fn are_simple(part: &[u8]) -> bool
    ensures { result ≡ all_simple part.now }
{
    part.iter()
        .fold(true, |simple, b| simple & is_simple_byte(*b))
}

// Kept: every test is made, where matches! would branch, so that the compiler takes many bytes at once in a loop.
#[tactic(auto, unfolding(crate::specs::Simple::is_simple))]
fn is_simple_byte(b: u8) -> bool
    ensures { result ≡ is_simple b }
{
    (0x20 <= b) & (b < 0x80) & is_ordinary(b)
}

// It stands for itself.
#[tactic(auto, unfolding(crate::specs::Text::is_ordinary))]
fn is_ordinary(b: u8) -> bool
    ensures { result ≡ is_ordinary b }
{
    (b != b'&') & (b != b'<') & (b != b'>')
}

// The same of eight bytes at once; no may be said of simple ones too.
pub(crate) fn is_simple_chunk(eight: &[u8; 8]) -> bool
    ensures { result ≡ true → all_simple eight.now ≡ true }
{
    are_eight_simple(u64::from_le_bytes(*eight))
}

// The same of eight bytes in one number; no may be said of simple ones too. All are ASCII where no top bit is set. Then what is added to each byte
// sets its top bit from some byte on: from the space, where all must be set; from `&` and from the byte behind it, from `<` and from the byte
// behind `>`, where both sums must set the same.
fn are_eight_simple(x: u64) -> bool
    ensures { Tested x result }
{
    if 0x8000_0000_0000_0000 <= x {
        return false;
    }
    (x & TOPS == 0)
        & ((x + 0x6060_6060_6060_6060) & TOPS == TOPS)
        & ((x + 0x5a5a_5a5a_5a5a_5a5a) & TOPS == (x + 0x5959_5959_5959_5959) & TOPS)
        & ((x + 0x4444_4444_4444_4444) & TOPS == (x + 0x4141_4141_4141_4141) & TOPS)
}

// Fewer than eight bytes as eight: the first four and the last four, which may be the same in part; or the first, the middle and the last, then
// spaces.
fn few_at(s: &[u8]) -> u64
    requires { length s.now < 8 }
    ensures { Covers s.now result }
{
    let (Some(front), Some(back)) = (s.first_chunk::<4>(), s.last_chunk::<4>()) else {
        return fewer_at(s);
    };
    u32::from_le_bytes(*front) as u64 + u32::from_le_bytes(*back) as u64 * 0x1_0000_0000
}

fn fewer_at(s: &[u8]) -> u64
    requires { length s.now < 4 }
    ensures { Covers s.now result }
{
    let n = s.len();
    if n == 0 {
        return 0x2020_2020_2020_2020;
    }
    s[0] as u64 + s[n / 2] as u64 * 0x100 + s[n - 1] as u64 * 0x1_0000 + 0x2020_2020_2000_0000
}
