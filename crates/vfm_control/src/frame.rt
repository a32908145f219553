//! The control frames: what the two ends of a handshake say to one another.

use vfm_types::Refusal;

/// How many bytes a frame has.
pub const FRAME_LEN: usize = 44;

/// What one end says to the other over the control link. Every frame names the session of its move.
#[derive(Clone, Copy, Debug, PartialEq, Eq)]
pub enum Frame {
    /// From the destination: it has staged a whole state with this SHA-256, and waits for `Go`.
    Staged { session: u64, digest: [u8; 32] },
    /// From the destination: it won't take the machine over, and why. Any code may stand here.
    Refused { session: u64, refusal: Refusal },
    /// From the source: the destination may run, if it staged the state with this SHA-256.
    Go { session: u64, digest: [u8; 32] },
}
