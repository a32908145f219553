//! Laws of the frames, each a function that does nothing: its clause holds of every value.

ghost use Rattle.std.specs.Prelude.{◌≡◌, ◌≢◌, ℕ, List, Some, None, length, ◌<◌, ◌^◌};
ghost use Rattle.vfm_types.specs.declared.fault.Refusal.{Refusal};
ghost use Rattle.vfm_control.specs.declared.frame.Frame.{Frame};
ghost use Rattle.vfm_control.specs.declared.frame.Frame.TheVariants.{Refused};
ghost use Rattle.vfm_base.specs.Words.{IsBytes};
ghost use Rattle.vfm_control.specs.Frame.{IsFrame, IsRefusal, IsEncodedBy, IsNoFrame, session_of, frame_bytes, frame_at};

use crate::frame::FRAME_LEN;

/// A frame that was encoded is decoded again in its session, and in no other.
pub fn encoded_frame_is_decoded()
    ensures again { (f : Frame) → IsFrame f → frame_at (session_of f) (frame_bytes f) ≡ Some f }
    ensures elsewhere { (f : Frame) (session : ℕ) → IsFrame f → session_of f ≢ session
        → frame_at session (frame_bytes f) ≡ None }
    ensures len { (f : Frame) → IsFrame f → length (frame_bytes f) ≡ FRAME_LEN }
    // so no two frames have the same bytes
    ensures once { (f g : Frame) → IsFrame f → IsFrame g → frame_bytes f ≡ frame_bytes g → f ≡ g }
    // a refusal is one whatever its code
    ensures refusal { (session : ℕ) (r : Refusal) → session < 2 ^ 64 → IsRefusal r
        → frame_at session (frame_bytes (Refused session r)) ≡ Some (Refused session r) }
{}

/// Of any bytes, the frame that `frame_at` finds is the one whose bytes they are, and where it finds none there is
/// none.
pub fn only_frames_are_decoded()
    ensures some { (f : Frame) (session : ℕ) (bytes : List ℕ) → IsBytes bytes
        → frame_at session bytes ≡ Some f → IsEncodedBy f session bytes }
    ensures none { (session : ℕ) (bytes : List ℕ) → frame_at session bytes ≡ None → IsNoFrame session bytes }
    ensures found { (f : Frame) (session : ℕ) (bytes : List ℕ) → IsEncodedBy f session bytes
        → frame_at session bytes ≡ Some f }
{}
