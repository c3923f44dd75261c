// Bytes as rows of sixteen, and a row as four 32-bit numbers.
#![tactic(auto)]

ghost use Rattle.std.specs.Prelude.{◌≡◌, ◌+◌, ◌≤◌, ◌<◌, length};
ghost use Rattle.octets.specs.Bytes.{u32_at, words_at};

// A row's sixteen bytes, as four 32-bit numbers.
#[derive(Clone, Copy, Default)]
pub struct Words {
    pub first: u32,
    pub second: u32,
    pub third: u32,
    pub fourth: u32,
}

// The 32-bit number at byte k, little-endian.
#[tactic(auto, unfolding(crate::specs::Bytes::u32_at))]
fn u32_at(s: &[u8], k: usize) -> u32
    requires { k + 4 ≤ length s.now }
    ensures { result ≡ u32_at s.now k }
{
    u32::from_le_bytes([s[k], s[k + 1], s[k + 2], s[k + 3]])
}

// Row r of the bytes; zeros past the last whole row.
#[tactic(auto, unfolding(crate::specs::Bytes::words_at))]
pub fn row_at(s: &[u8], r: usize) -> Words
    ensures { result ≡ words_at s.now r }
{
    if r < s.len() / 16 {
        let k = 16 * r;
        Words {
            first: u32_at(s, k),
            second: u32_at(s, k + 4),
            third: u32_at(s, k + 8),
            fourth: u32_at(s, k + 12),
        }
    } else {
        Words::default()
    }
}
