//! The numbers that stand in bytes, each with its highest byte first.

ghost use Rattle.std.specs.Prelude.{◌≡◌, ◌+◌, ◌≤◌, length};
ghost use Rattle.std.specs.Int.{w16, w32, w64};
ghost use Rattle.vfm_base.specs.Words.{word_at};

/// The two bytes at a place as a number.
#[tactic(auto, unfolding(crate::specs::Words::word_at))]
pub fn u16_at(bytes: &[u8], place: usize) -> u16
    requires { place + 2 ≤ length bytes.now }
    ensures { result ≡ word_at w16 place bytes.now }
{
    let b = &bytes[place..place + 2];
    u16::from_be_bytes([b[0], b[1]])
}

/// The four bytes at a place as a number.
#[tactic(auto, unfolding(crate::specs::Words::word_at))]
pub fn u32_at(bytes: &[u8], place: usize) -> u32
    requires { place + 4 ≤ length bytes.now }
    ensures { result ≡ word_at w32 place bytes.now }
{
    let b = &bytes[place..place + 4];
    u32::from_be_bytes([b[0], b[1], b[2], b[3]])
}

/// The eight bytes at a place as a number.
#[tactic(auto, unfolding(crate::specs::Words::word_at))]
pub fn u64_at(bytes: &[u8], place: usize) -> u64
    requires { place + 8 ≤ length bytes.now }
    ensures { result ≡ word_at w64 place bytes.now }
{
    let b = &bytes[place..place + 8];
    u64::from_be_bytes([b[0], b[1], b[2], b[3], b[4], b[5], b[6], b[7]])
}
