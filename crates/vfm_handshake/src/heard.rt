//! Hearing a frame.

ghost use Rattle.std.specs.Prelude.{◌≡◌, ◌≤◌, IfOk, IfSome, OnErr, take};
ghost use Rattle.vfm_base.specs.Words.{IsBytes};
ghost use Rattle.vfm_outside.specs.Counts.{CountsFaults};
ghost use Rattle.vfm_control.specs.Frame.{frame_at, session_of};
ghost use Rattle.vfm_handshake.specs.Control.{Heard, IsCutShort};

use std::marker::Model;
use vfm_control::{FRAME_LEN, Frame, decode};
use vfm_outside::{Failed, Link};
use vfm_types::Heard44;

/// At most 44 bytes that came where a frame should come. Seen as the list of them.
#[derive(Debug, Drop)]
pub struct HeardBytes {
    bytes: [u8; FRAME_LEN],
    len: usize,
}

impl Model for HeardBytes {
    ghost use Rattle.std.specs.Prelude.{ℕ, List, take, ◌≤◌};

    ghost Value = { List ℕ };

    ghost view = { λ h. take h.len h.bytes };

    ghost invariant = { λ h. h.len ≤ 44 };
}

impl HeardBytes {
    // The first so many bytes of a buffer.
    fn of(bytes: &[u8; FRAME_LEN], len: usize) -> HeardBytes
        requires { len ≤ 44 }
        ensures value { result ≡ take len bytes.now }
        ensures fits { IsBytes result }
    {
        let all: &[u8] = bytes;
        HeardBytes {
            bytes: *bytes,
            len: all.len().min(len),
        }
    }

    /// The frame of this session that these bytes are.
    #[tactic(auto, unfolding(vfm_control::specs::Frame::frame_at))]
    pub fn frame(&self, session: u64) -> Option<Frame>
        ensures value { result ≡ frame_at session self.now }
        ensures session { IfSome result (λ frame. session_of frame ≡ session) }
    {
        if self.len < FRAME_LEN {
            return None;
        }
        decode(&self.bytes, session)
    }

    /// The bytes, to be kept.
    pub fn kept(&self) -> Heard44
        ensures { result ≡ self.now }
    {
        match Heard44::of(&self.bytes[..self.len]) {
            Some(kept) => kept,
            None => unreachable!(),
        }
    }
}

/// Receives until there are 44 bytes, or the link ends, or fails.
pub fn hear<L: Link>(control: &mut L) -> Result<HeardBytes, Failed>
    ensures heard { IfOk result (λ heard. Heard (record {
      before = L.received control.old;
      now = L.received control.new;
      had_ended = L.ended control.old;
      ended = L.ended control.new;
    }) heard) }
    ensures cut_short { OnErr result (IsCutShort (record {
      before = L.received control.old;
      now = L.received control.new;
      had_ended = L.ended control.old;
      ended = L.ended control.new;
    })) }
    ensures count { CountsFaults result (L.failed_in control.old) (L.failed_in control.new) }
    ensures sent { L.sent control.new ≡ L.sent control.old }
    ensures finished { L.finished control.new ≡ L.finished control.old }
    ensures failed_out { L.failed_out control.new ≡ L.failed_out control.old }
{
    let mut bytes = [0; FRAME_LEN];
    let mut len = 0;
    while len < FRAME_LEN {
        let n = control.recv(&mut bytes[len..])?;
        if n == 0 {
            break;
        }
        len += n;
    }
    Ok(HeardBytes::of(&bytes, len))
}
