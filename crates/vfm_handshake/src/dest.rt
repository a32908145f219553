//! The destination's calls: saying the answer, hearing Go.

ghost use Rattle.std.specs.Prelude.{◌≡◌, ◌≢◌, ◌≤◌, ◌||◌, ◌&&◌, Err, is_ok, OnOk, OnErr};
ghost use Rattle.vfm_control.specs.Calls.{answer_frame};
ghost use Rattle.vfm_control.specs.Frame.{frame_bytes};
ghost use Rattle.vfm_outside.specs.Counts.{CountsFaults, Rose};
ghost use Rattle.vfm_outside.specs.Told.{with_appended};
ghost use Rattle.vfm_send.specs.Sends.{SentPrefix};
ghost use Rattle.vfm_handshake.specs.declared.fault.GoFault.TheVariants as going;
ghost use Rattle.vfm_handshake.specs.Control.{TakenBy, TakesOver, is_refusal};

use crate::fault::GoFault;
use crate::heard::{HeardBytes, hear};
use crate::said::{say, say_last};
use vfm_control::{Answer, Frame};
use vfm_outside::Link;
use vfm_types::LinkFault;

/// Says the answer: that a state with this digest was staged, or that the destination refuses, after which nothing more
/// will be said. At a fault a prefix of the frame was sent, or all of it; the count of what failed to be sent rose.
pub fn answer<L: Link>(control: &mut L, session: u64, said: &Answer) -> Result<(), LinkFault>
    ensures sent { OnOk result (L.sent control.new ≡ with_appended (L.sent control.old) (frame_bytes (answer_frame session said.now))) }
    ensures prefix { OnErr result (SentPrefix (L.sent control.old) (L.sent control.new) (frame_bytes (answer_frame session said.now))) }
    ensures count { CountsFaults result (L.failed_out control.old) (L.failed_out control.new) }
    ensures finished { L.finished control.new ≡ (L.finished control.old || is_ok result && is_refusal said.now) }
    ensures failed_in { L.failed_in control.new ≡ L.failed_in control.old }
    ensures received { L.received control.new ≡ L.received control.old }
    ensures ended { L.ended control.new ≡ L.ended control.old }
{
    match said {
        Answer::Staged(digest) => say(
            control,
            &Frame::Staged {
                session,
                digest: *digest,
            },
        ),
        Answer::Refused(refusal) => say_last(
            control,
            &Frame::Refused {
                session,
                refusal: *refusal,
            },
        ),
    }
}

/// Hears Go in this session: `Ok` only for the state with our own digest. It receives at most 44 bytes, and fewer only
/// where the link ends or fails. `Link` comes only where the count of failed receipts rose.
pub fn hear_go<L: Link>(control: &mut L, session: u64, ours: &[u8; 32]) -> Result<(), GoFault>
    ensures takes_over { TakesOver session ours.now (record {
      before = L.received control.old;
      now = L.received control.new;
      had_ended = L.ended control.old;
      ended = L.ended control.new;
    }) result }
    ensures never_falls { L.failed_in control.old ≤ L.failed_in control.new }
    ensures fault { result ≡ Err going.Link → Rose (L.failed_in control.old) (L.failed_in control.new) }
    ensures no_fault { result ≢ Err going.Link → L.failed_in control.new ≡ L.failed_in control.old }
    ensures sent { L.sent control.new ≡ L.sent control.old }
    ensures finished { L.finished control.new ≡ L.finished control.old }
    ensures failed_out { L.failed_out control.new ≡ L.failed_out control.old }
{
    match hear(control) {
        Ok(heard) => taken(&heard, session, ours),
        Err(_) => Err(GoFault::Link),
    }
}

// what the destination answers to what it heard
fn taken(heard: &HeardBytes, session: u64, ours: &[u8; 32]) -> Result<(), GoFault>
    ensures { TakenBy session ours.now heard.now result }
{
    match heard.frame(session) {
        Some(Frame::Go { session: _, digest }) => {
            if digest == *ours {
                Ok(())
            } else {
                Err(GoFault::Other {
                    ours: *ours,
                    theirs: digest,
                })
            }
        }
        Some(Frame::Staged { .. }) => Err(GoFault::NoGo(heard.kept())),
        Some(Frame::Refused { .. }) => Err(GoFault::NoGo(heard.kept())),
        None => Err(GoFault::NoGo(heard.kept())),
    }
}
