//! Reading the packet at the start of some bytes.

ghost use Rattle.std.specs.Prelude.{◌≡◌, ◌+◌, ◌≤◌, ◌↔◌, ◌≢◌, ℕ, length, MatchResult, Some, None};
ghost use Rattle.std.specs.Int.{w16, w32, w64};
ghost use Rattle.vfm_packet.specs.Header.{carries};
ghost use Rattle.vfm_base.specs.Words.{word_at};
ghost use Rattle.vfm_packet.specs.Sound.{head_at, head_fault, knows_stream, has_length, has_zeros};
ghost use Rattle.vfm_packet.specs.Packet.{packet_size};
ghost use Rattle.vfm_packet.specs.Answer.{decoded, decoded_head, is_sealed, BeginsWith, IsPartial, IsRefused, IsCorrupt};
ghost use Rattle.vfm_packet.specs.declared.header.Header.{Header};
ghost use Rattle.vfm_packet.specs.declared.answer.Cause.{Cause};

use crate::answer::{Cause, Decoded, Expect};
use crate::header::{HEAD_LEN, Header, Kind, PAYLOAD_LIMIT, packet_size, seal_len};
use crate::writer::{encode_head, seal};
use vfm_base::{u16_at, u32_at, u64_at};

/// The first four bytes of a header, `VFMD`, as a number.
const MAGIC: u32 = 0x5646_4d44;

// Whether a packet of this kind carries a payload.
fn carries(kind: Kind) -> bool
    ensures { result ≡ carries kind }
{
    match kind {
        Kind::Data | Kind::Config => true,
        Kind::End | Kind::Abort => false,
    }
}

// Whether there is a stream of the number, where the packet is of a stream.
fn knows_stream(head: &Header, expect: &Expect) -> bool
    ensures { result ≡ knows_stream (carries head.now.kind) expect.now head.now }
{
    if carries(head.kind) {
        head.stream < expect.streams
    } else {
        true
    }
}

// Whether a payload can have this length, where there is one.
fn has_length(head: &Header) -> bool
    ensures { result ≡ has_length (carries head.now.kind) head.now }
{
    if carries(head.kind) {
        0 < head.length && head.length <= PAYLOAD_LIMIT
    } else {
        true
    }
}

// Whether what a packet without payload has no use for is zero.
fn has_zeros(head: &Header) -> bool
    ensures { result ≡ has_zeros (carries head.now.kind) head.now }
{
    if carries(head.kind) {
        true
    } else {
        head.stream == 0 && head.index == 0 && head.length == 0
    }
}

// The header that stands at the start, with this version and kind.
fn header_at(version: u16, kind: Kind, bytes: &[u8]) -> Header
    requires { 40 ≤ length bytes.now }
    ensures { result ≡ record (head_at bytes.now) { version = version; kind = kind } }
{
    Header {
        version,
        kind,
        session: u64_at(bytes, 8),
        stream: u32_at(bytes, 16),
        index: u32_at(bytes, 20),
        length: u32_at(bytes, 24),
    }
}

// The sound header at the start, or why there is none.
#[tactic(auto, unfolding(crate::specs::Sound::head_fault))]
fn sound_head(bytes: &[u8], expect: &Expect) -> Result<Header, Cause>
    requires { 40 ≤ length bytes.now }
    ensures { MatchResult result
        (λ head. (head_fault expect.now bytes.now ≡ None) × (head ≡ head_at bytes.now))
        (λ cause. head_fault expect.now bytes.now ≡ Some cause) }
{
    if u32_at(bytes, 0) != MAGIC {
        return Err(Cause::Magic);
    }
    let version = u16_at(bytes, 4);
    if version != expect.version {
        return Err(Cause::Version);
    }
    let kind = match Kind::of_number(u16_at(bytes, 6)) {
        Some(kind) => kind,
        None => return Err(Cause::Kind),
    };
    let head = header_at(version, kind, bytes);
    if head.session != expect.session || !knows_stream(&head, expect) {
        return Err(Cause::Foreign);
    }
    if !has_length(&head) {
        return Err(Cause::Length);
    }
    if u64_at(bytes, 28) != 0 || u32_at(bytes, 36) != 0 || !has_zeros(&head) {
        return Err(Cause::Spare);
    }
    Ok(head)
}

// Whether the payload is followed by the packet's seal. A sound header has one encoding, so the forty bytes of this one
// are those that stand there. Where no seal follows, no digest is computed.
fn is_sealed(head: &Header, bytes: &[u8]) -> bool
    requires { packet_size head.now ≤ length bytes.now }
    ensures { result ≡ is_sealed head.now bytes.now }
{
    if seal_len(head.version) == 0 {
        return true;
    }
    let end = HEAD_LEN + head.length as usize;
    let digest = seal(&encode_head(head), &bytes[HEAD_LEN..end]);
    bytes[end..].starts_with(&digest)
}

// The answer about a sound header.
fn answer_head(head: Header, bytes: &[u8]) -> Decoded
    ensures { result ≡ decoded_head head bytes.now }
{
    let used = packet_size(&head);
    if bytes.len() < used {
        Decoded::More
    } else if is_sealed(&head, bytes) {
        Decoded::Packet { head, used }
    } else {
        Decoded::Bad {
            cause: Cause::Corrupt,
        }
    }
}

// The answer by the tests in their order.
#[tactic(auto, unfolding(crate::specs::Answer::decoded))]
fn answer(bytes: &[u8], expect: &Expect) -> Decoded
    ensures { result ≡ decoded expect.now bytes.now }
{
    if bytes.len() < HEAD_LEN {
        return Decoded::More;
    }
    match sound_head(bytes, expect) {
        Ok(head) => answer_head(head, bytes),
        Err(cause) => Decoded::Bad { cause },
    }
}

/// What stands at the start of the bytes: a whole packet, less than one, 40 bytes that are no sound header, or a whole
/// packet of version 2 with another seal. What follows a packet isn't looked at, and no memory is taken.
pub fn decode(bytes: &[u8], expect: &Expect) -> Decoded
    // Exactly a sound header with all that it announces, its seal being the right one, is a packet.
    ensures packet { (head : Header) (used : ℕ) → (result ≡ Decoded.Packet head used)
        ↔ (BeginsWith expect.now bytes.now head × (used ≡ packet_size head)) }
    // Fewer than 40 bytes, or a sound header that announces more than there is, ask for more.
    ensures more { (result ≡ Decoded.More) ↔ IsPartial expect.now bytes.now }
    // 40 bytes that encode no sound header are refused for the first test that fails, a whole packet for its seal alone.
    ensures bad { (cause : Cause) → (result ≡ Decoded.Bad cause) ↔ IsRefused expect.now bytes.now cause }
    ensures corrupt { (result ≡ Decoded.Bad Cause.Corrupt) ↔ IsCorrupt expect.now bytes.now }
    ensures exact { result ≡ decoded expect.now bytes.now }
{
    answer(bytes, expect)
}
