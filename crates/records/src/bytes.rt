// Numbers of 16 and 32 bits at a place, the low byte first.
ghost use Rattle.std.specs.Prelude.{◌≡◌, ◌+◌, ◌≤◌, length};
ghost use Rattle.records.specs.Bytes.{u16_at, u32_at};

#[tactic(auto, unfolding(crate::specs::Bytes::u16_at))]
pub fn u16_at(s: &[u8], p: usize) -> u16
    requires { p + 2 ≤ length s.now }
    ensures { result ≡ u16_at s.now p }
{
    u16::from_le_bytes([s[p], s[p + 1]])
}

#[tactic(auto, unfolding(crate::specs::Bytes::u16_at, crate::specs::Bytes::u32_at))]
pub fn u32_at(s: &[u8], p: usize) -> u32
    requires { p + 4 ≤ length s.now }
    ensures { result ≡ u32_at s.now p }
{
    u32::from_le_bytes([s[p], s[p + 1], s[p + 2], s[p + 3]])
}
