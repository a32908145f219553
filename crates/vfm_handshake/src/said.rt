//! Saying a frame.

ghost use Rattle.std.specs.Prelude.{◌≡◌, ◌≤◌, ◌||◌, true, is_ok, OnOk, OnErr};
ghost use Rattle.vfm_control.specs.Frame.{frame_bytes};
ghost use Rattle.vfm_outside.specs.Counts.{CountsFaults};
ghost use Rattle.vfm_outside.specs.Told.{with_appended};
ghost use Rattle.vfm_send.specs.Sends.{SentPrefix};

use vfm_control::{Frame, encode};
use vfm_outside::Link;
use vfm_send::send_bytes;
use vfm_types::LinkFault;

/// Sends a frame. At a fault a prefix of it was sent.
pub fn say<L: Link>(control: &mut L, frame: &Frame) -> Result<(), LinkFault>
    ensures sent { OnOk result (L.sent control.new ≡ with_appended (L.sent control.old) (frame_bytes frame.now)) }
    ensures prefix { OnErr result (SentPrefix (L.sent control.old) (L.sent control.new) (frame_bytes frame.now)) }
    ensures count { CountsFaults result (L.failed_out control.old) (L.failed_out control.new) }
    ensures finished { L.finished control.new ≡ L.finished control.old }
    ensures failed_in { L.failed_in control.new ≡ L.failed_in control.old }
    ensures received { L.received control.new ≡ L.received control.old }
    ensures ended { L.ended control.new ≡ L.ended control.old }
{
    let bytes = encode(frame);
    if send_bytes(control, &bytes) < bytes.len() {
        return Err(LinkFault);
    }
    Ok(())
}

/// Sends a frame, and says that nothing more will be sent. At a fault a prefix of the frame was sent, or all of it.
pub fn say_last<L: Link>(control: &mut L, frame: &Frame) -> Result<(), LinkFault>
    ensures sent { OnOk result (L.sent control.new ≡ with_appended (L.sent control.old) (frame_bytes frame.now)) }
    ensures prefix { OnErr result (SentPrefix (L.sent control.old) (L.sent control.new) (frame_bytes frame.now)) }
    ensures count { CountsFaults result (L.failed_out control.old) (L.failed_out control.new) }
    ensures finished { L.finished control.new ≡ (L.finished control.old || is_ok result) }
    ensures failed_in { L.failed_in control.new ≡ L.failed_in control.old }
    ensures received { L.received control.new ≡ L.received control.old }
    ensures ended { L.ended control.new ≡ L.ended control.old }
{
    say(control, frame)?;
    match control.finish() {
        Ok(()) => Ok(()),
        Err(_) => Err(LinkFault),
    }
}
