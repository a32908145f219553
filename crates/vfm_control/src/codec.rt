//! Encoding a frame and decoding one.

ghost use Rattle.std.specs.Prelude.{◌≡◌, ◌+◌, ◌^◌, ◌<◌, ◌≤◌, ◌↔◌, ◌++◌, length, drop, Some, IsNone};
ghost use Rattle.std.specs.Int.{w32, w64, to_be_bytes};
ghost use Rattle.vfm_control.specs.declared.frame.Frame.{Frame};
ghost use Rattle.vfm_control.specs.Frame.{session_of, frame_bytes, refusal_at, refusal_bytes, frame_at, frame_marked, IsDigest, IsRefusal, IsEncodedBy, IsNoFrame};

use crate::frame::{FRAME_LEN, Frame};
use vfm_base::{u32_at, u64_at};
use vfm_types::Refusal;

/// The first four bytes of each frame as a number: `VFMS`, `VFMR` and `VFMG`.
const STAGED: u32 = 0x5646_4d53;

const REFUSED: u32 = 0x5646_4d52;

const GO: u32 = 0x5646_4d47;

// The 32 bytes of a refusal: its three numbers and twelve zeros.
fn refusal_bytes(refusal: &Refusal) -> [u8; 32]
    ensures bytes { result ≡ refusal_bytes refusal.now }
    ensures fits { IsRefusal refusal.now }
{
    let c = refusal.code.to_be_bytes();
    let a = refusal.a.to_be_bytes();
    let b = refusal.b.to_be_bytes();
    [
        c[0], c[1], c[2], c[3], a[0], a[1], a[2], a[3], a[4], a[5], a[6], a[7], b[0], b[1], b[2],
        b[3], b[4], b[5], b[6], b[7], 0, 0, 0, 0, 0, 0, 0, 0, 0, 0, 0, 0,
    ]
}

// The 44 bytes of these letters, this session and this body.
fn frame_with(mark: u32, session: u64, body: [u8; 32]) -> [u8; FRAME_LEN]
    ensures bytes { result ≡ to_be_bytes w32 mark ++ to_be_bytes w64 session ++ body }
    ensures session { session < 2 ^ 64 }
    ensures body { IsDigest body }
{
    let mut bytes = [0u8; FRAME_LEN];
    bytes[..4].copy_from_slice(&mark.to_be_bytes());
    bytes[4..12].copy_from_slice(&session.to_be_bytes());
    bytes[12..].copy_from_slice(&body);
    bytes
}

/// The 44 bytes of a frame, each number big-endian. No other frame has the same bytes.
#[tactic(auto, unfolding(crate::specs::Frame::frame_bytes))]
pub fn encode(f: &Frame) -> [u8; FRAME_LEN]
    ensures bytes { result ≡ frame_bytes f.now }
    ensures encoded { IsEncodedBy f.now (session_of f.now) result }
    // so decoded in its session they are this frame again
    ensures again { frame_at (session_of f.now) result ≡ Some f.now }
{
    match f {
        Frame::Staged { session, digest } => frame_with(STAGED, *session, *digest),
        Frame::Refused { session, refusal } => {
            frame_with(REFUSED, *session, refusal_bytes(refusal))
        }
        Frame::Go { session, digest } => frame_with(GO, *session, *digest),
    }
}

// The digest of a frame that has one.
fn digest_at(bytes: &[u8; FRAME_LEN]) -> [u8; 32]
    ensures { result ≡ drop 12 bytes.now }
{
    let mut digest = [0u8; 32];
    digest.copy_from_slice(&bytes[12..]);
    digest
}

// The refusal of a frame that has one.
fn refusal_at(bytes: &[u8; FRAME_LEN]) -> Refusal
    ensures { result ≡ refusal_at bytes.now }
{
    Refusal {
        code: u32_at(bytes, 12),
        a: u64_at(bytes, 16),
        b: u64_at(bytes, 24),
    }
}

// The frame of these bytes by its first four, for a session that is known to be theirs.
fn frame_marked(mark: u32, session: u64, bytes: &[u8; FRAME_LEN]) -> Option<Frame>
    ensures { result ≡ frame_marked mark session bytes.now }
{
    match mark {
        STAGED => Some(Frame::Staged {
            session,
            digest: digest_at(bytes),
        }),
        REFUSED if u64_at(bytes, 32) == 0 && u32_at(bytes, 40) == 0 => Some(Frame::Refused {
            session,
            refusal: refusal_at(bytes),
        }),
        GO => Some(Frame::Go {
            session,
            digest: digest_at(bytes),
        }),
        _ => None,
    }
}

// The frame by the tests in their order.
#[tactic(auto, unfolding(crate::specs::Frame::frame_at))]
fn answer(bytes: &[u8; FRAME_LEN], session: u64) -> Option<Frame>
    ensures { result ≡ frame_at session bytes.now }
{
    if u64_at(bytes, 4) != session {
        return None;
    }
    frame_marked(u32_at(bytes, 0), session, bytes)
}

/// The frame of this session with these bytes, or `None` exactly where they are the bytes of none.
pub fn decode(bytes: &[u8; FRAME_LEN], session: u64) -> Option<Frame>
    ensures frame { (f : Frame) → (result ≡ Some f) ↔ IsEncodedBy f session bytes.now }
    ensures none { IsNone result ↔ IsNoFrame session bytes.now }
    ensures exact { result ≡ frame_at session bytes.now }
{
    answer(bytes, session)
}
